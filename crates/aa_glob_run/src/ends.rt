//! The patterns whose ends a text reaches.

ghost use Rattle.std.specs.Prelude.{length, IfOk, OnOk};
ghost use Rattle.std.specs.List.Sorted.{IsStrictlyIncreasing};
ghost use Rattle.aa_glob_nfa.specs.Steps.{IsCounted, most_visits};
ghost use Rattle.aa_glob_nfa.specs.Visits.{CountsAllVisits, CountsFirstVisits};
ghost use Rattle.aa_glob_nfa.specs.Graphs.{IsFound, Reaches};
ghost use Rattle.aa_glob_nfa.specs.OfTables.{AreSound, AreSorted, graph_of};
ghost use Rattle.aa_glob_run.specs.code.Memos.{Remembers};

use crate::memo::Memo;
use crate::patterns::patterns_of;
use crate::recall::known_far;
use aa_glob_nfa::{Front, Steps, Tables, run, run_on};
use std::alloc::{AllocError, Global};

// The patterns whose ends a text reaches: by what is remembered, as far as that goes, and by a run from there on.
pub fn ends(
    alloc: Global,
    tables: &Tables,
    text: &[u8],
    memo: &Memo,
    steps: &mut Steps,
) -> Result<Vec<usize>, AllocError>
    requires sound { AreSound tables.now }
    requires sorted { AreSorted tables.now }
    requires memo { Remembers (graph_of tables.now) (length tables.now.states) memo.now }
    ensures found { IfOk result (λ patterns. IsFound (graph_of tables.now) text.now patterns.items) }
    ensures rise { IfOk result (λ patterns. IsStrictlyIncreasing patterns.items) }
    ensures steps { IsCounted 0 (most_visits text.now (length tables.now.states)) steps.old steps.new }
    ensures visits { OnOk result (IsCounted 1 (most_visits text.now (length tables.now.states)) steps.old steps.new) }
    ensures all { OnOk result (CountsAllVisits (Reaches (graph_of tables.now)) text.now steps.old steps.new) }
    ensures first { CountsFirstVisits (Reaches (graph_of tables.now)) text.now steps.old steps.new }
{
    let count = tables.states.len();
    let mut counted = steps.as_many();
    let Some(far) = known_far(tables, text, memo, &mut counted) else {
        let mut here = Front::new(alloc, count)?;
        let mut next = Front::new(alloc, count)?;
        run(tables, text, &mut here, &mut next, steps)?;
        return patterns_of(alloc, tables, here.states());
    };
    *steps = counted;
    let live = memo.front(far.number);
    if far.place == text.len() {
        steps.visited(live.len());
        return patterns_of(alloc, tables, live);
    }
    let mut here = Front::of(alloc, count, live)?;
    let mut next = Front::new(alloc, count)?;
    run_on(tables, text, far.place, &mut here, &mut next, steps)?;
    patterns_of(alloc, tables, here.states())
}
