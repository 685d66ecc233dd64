//! A run over a text, from its first byte to its last: which states are reached.

ghost use Rattle.std.specs.Prelude.{◌≡◌, ◌≤◌, [], ℕ, length, reverse, OnErr, OnOk};
ghost use Rattle.aa_glob_nfa.specs.Graphs.{Reaches};
ghost use Rattle.aa_glob_nfa.specs.OfTables.{AreSound, AreSorted, graph_of};
ghost use Rattle.aa_glob_nfa.specs.Runs.{HasRun, IsPassed, IsWhole};
ghost use Rattle.aa_glob_nfa.specs.Steps.{counted, IsCounted, most_visits};
ghost use Rattle.aa_glob_nfa.specs.Visits.{CountsAllVisits, CountsFirstVisits};

use crate::front::Front;
use crate::leading::visit;
use crate::steps::Steps;
use crate::tables::Tables;
use std::alloc::AllocError;
use std::mem::swap;

/// Finds the states that are reached by a text. Both fronts are empty before and have room for all states; afterwards `here` has the states that are
/// reached, and nothing is promised about `next`.
///
/// Steps are counted: one for each visit of a state at a place of the text, which are its bytes and its end. The run stops at the first byte after
/// which no state is reached.
///
/// # Errors
///
/// Where memory runs out. The steps at the places before are counted; nothing is promised then about the states in the fronts.
pub fn run(
    tables: &Tables,
    text: &[u8],
    here: &mut Front,
    next: &mut Front,
    steps: &mut Steps,
) -> Result<(), AllocError>
    requires sound { AreSound tables.now }
    requires sorted { AreSorted tables.now }
    requires here { here.old ≡ record { states = []; room = length tables.now.states } }
    requires next { next.old ≡ record { states = []; room = length tables.now.states } }
    ensures whole { OnOk result (IsWhole (graph_of tables.now) (reverse text.now) here.new.states) }
    ensures room { OnOk result (here.new.room ≡ length tables.now.states) }
    ensures steps { IsCounted 0 (most_visits text.now (length tables.now.states)) steps.old steps.new }
    ensures visits { OnOk result (IsCounted 1 (most_visits text.now (length tables.now.states)) steps.old steps.new) }
    ensures all { OnOk result (CountsAllVisits (Reaches (graph_of tables.now)) text.now steps.old steps.new) }
    ensures first { CountsFirstVisits (Reaches (graph_of tables.now)) text.now steps.old steps.new }
{
    here.insert(0)?;
    run_on(tables, text, 0, here, next, steps)
}

/// Continues a run from a place of the text on: the contract speaks of a count from before that run began. `here` has the states that the last byte
/// before the place led into.
///
/// # Errors
///
/// Where memory runs out, as for `run`.
pub fn run_on(
    tables: &Tables,
    text: &[u8],
    place: usize,
    here: &mut Front,
    next: &mut Front,
    steps: &mut Steps,
) -> Result<(), AllocError>
    requires sound { AreSound tables.now }
    requires sorted { AreSorted tables.now }
    requires within { place ≤ length text.now }
    requires here { here.old.room ≡ length tables.now.states }
    requires next { next.old ≡ record { states = []; room = length tables.now.states } }
    ensures whole { (first : ℕ) → HasRun (graph_of tables.now) text.now place (length tables.now.states) here.old next.old first steps.old
        → OnOk result (IsWhole (graph_of tables.now) (reverse text.now) here.new.states) }
    ensures room { OnOk result (here.new.room ≡ length tables.now.states) }
    ensures steps { (first : ℕ) → HasRun (graph_of tables.now) text.now place (length tables.now.states) here.old next.old first steps.old
        → IsCounted 0 (most_visits text.now (length tables.now.states)) first steps.new }
    ensures visits { (first : ℕ) → HasRun (graph_of tables.now) text.now place (length tables.now.states) here.old next.old first steps.old
        → OnOk result (IsCounted 1 (most_visits text.now (length tables.now.states)) first steps.new) }
    ensures all { (first : ℕ) → HasRun (graph_of tables.now) text.now place (length tables.now.states) here.old next.old first steps.old
        → OnOk result (CountsAllVisits (Reaches (graph_of tables.now)) text.now first steps.new) }
    ensures first { (first : ℕ) → HasRun (graph_of tables.now) text.now place (length tables.now.states) here.old next.old first steps.old
        → CountsFirstVisits (Reaches (graph_of tables.now)) text.now first steps.new }
{
    let mut at = place;
    while at < text.len() {
        if here.len() == 0 {
            return Ok(());
        }
        pass(tables, Some(text[at]), here, next, steps)?;
        here.clear();
        swap(here, next);
        at += 1;
    }
    pass(tables, None, here, next, steps)?;
    Ok(())
}

/// Visits each state that is live at a place, those that are found on the way included. `here` has those that the last byte led into, and afterwards
/// all. What follows by the byte, if there is one, is inserted into `next`, which is empty before. A step is counted for each visit.
///
/// # Errors
///
/// Where memory runs out. No step is counted then; nothing is promised about the states in the fronts.
#[inline(always)]
pub fn pass(
    tables: &Tables,
    byte: Option<u8>,
    here: &mut Front,
    next: &mut Front,
    steps: &mut Steps,
) -> Result<(), AllocError>
    requires sound { AreSound tables.now }
    requires sorted { AreSorted tables.now }
    requires here { here.old.room ≡ length tables.now.states }
    requires next { next.old ≡ record { states = []; room = length tables.now.states } }
    ensures passed { OnOk result (IsPassed (graph_of tables.now) byte here.old here.new next.new) }
    ensures steps { OnOk result (steps.new ≡ counted steps.old (length here.new.states)) }
    ensures err { OnErr result (steps.new ≡ steps.old) }
{
    let mut at = 0;
    while at < here.len() {
        visit(tables, here.state(at), byte, here, next)?;
        at += 1;
    }
    steps.visited(at);
    Ok(())
}
