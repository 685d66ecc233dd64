//! Finished automata.

ghost use Rattle.std.specs.Prelude.{◌≡◌, ◌<◌, ℕ, length, IfOk, OnOk};
ghost use Rattle.std.specs.List.Sorted.{IsStrictlyIncreasing};
ghost use Rattle.aa_glob_nfa.specs.Steps.{IsCounted, most_visits};
ghost use Rattle.aa_glob_nfa.specs.Visits.{CountsAllVisits, CountsFirstVisits};
ghost use Rattle.aa_glob_nfa.specs.Graphs.{EndsAt, IsFound, Reaches, SameGraph};
ghost use Rattle.aa_glob_nfa.specs.OfTables.{AreSorted, AreSound, graph_of};
ghost use Rattle.aa_glob_pairs.specs.Clashes.{IsLeast};
ghost use Rattle.aa_glob_pairs.specs.Graphs.{ClashesAt, IsLaid};

use crate::ends::ends;
use crate::memo::Memo;
use crate::patterns::patterns_of;
use crate::recall::recall;
use aa_glob_nfa::{Steps, Tables};
use aa_glob_pairs::first_clash;
use std::alloc::{AllocError, Global};
use std::marker::Model;

/// A finished automaton, of the states, ways and ends that were added. Contracts see its graph.
#[derive(Drop)]
pub struct Nfa {
    tables: Tables,
    // What was remembered of runs. Contracts don't see it.
    memo: Memo,
}

impl Model for Nfa {
    ghost use Rattle.aa_glob_nfa.specs.Graphs.{Graph};
    ghost use Rattle.aa_glob_nfa.specs.OfTables.{AreSound, AreSorted, graph_of};
    ghost use Rattle.aa_glob_run.specs.code.Memos.{Remembers};
    ghost use Rattle.std.specs.Prelude.{length};

    ghost Value = { Graph };

    ghost view = { λ s. graph_of s.tables };

    ghost invariant = { λ s. AreSound s.tables × AreSorted s.tables × Remembers (graph_of s.tables) (length s.tables.states) s.memo };
}

impl Nfa {
    // The automaton of these tables, which it sorts.
    pub(crate) fn of(tables: Tables) -> Nfa
        requires { AreSound tables }
        ensures { SameGraph (graph_of tables) result }
    {
        let mut tables = tables;
        tables.sort();
        tables.shrink();
        let alloc = *tables.ways.allocator();
        Nfa {
            tables,
            memo: Memo::new(alloc),
        }
    }

    /// How many states there are. It takes no memory.
    pub fn states(&self) -> usize
        ensures { result ≡ length self.now.entries }
    {
        self.tables.states.len()
    }

    /// The tables of its graph, sound and sorted, lent. It takes no memory.
    pub fn tables(&self) -> &Tables
        ensures graph { graph_of result.now ≡ self.now }
        ensures sound { AreSound result.now }
        ensures sorted { AreSorted result.now }
    {
        &self.tables
    }

    /// The least pattern that clashes with one of a smaller number, or `None`: some text leads to ends of both, and their classes differ. `classes`
    /// has the class of each pattern, by its number.
    ///
    /// # Errors
    ///
    /// Where memory runs out.
    pub fn first_clash(&self, alloc: Global, classes: &[u32]) -> Result<Option<u32>, AllocError>
        requires later { IsLaid self.now }
        requires classes { (q p : ℕ) → EndsAt self.now q p → p < length classes.now }
        ensures { IfOk result (λ found. IsLeast found (ClashesAt self.now classes.now)) }
    {
        first_clash(alloc, &self.tables, classes)
    }

    /// The patterns whose ends a text reaches, each once, in rising order.
    ///
    /// Steps are counted: one for each visit of a state at a place of the text, which are its bytes and its end. The run stops at the first byte
    /// after which no state is reached. So the steps are as many as there are states that are reached at each of the places, all places together.
    /// Visits that a remembered list stands for are counted, too.
    ///
    /// # Errors
    ///
    /// Where memory runs out. The steps at the places before are counted.
    pub fn ends_reached(
        &self,
        alloc: Global,
        text: &[u8],
        steps: &mut Steps,
    ) -> Result<Vec<usize>, AllocError>
        ensures found { IfOk result (λ patterns. IsFound self.now text.now patterns.items) }
        ensures rise { IfOk result (λ patterns. IsStrictlyIncreasing patterns.items) }
        ensures steps { IsCounted 0 (most_visits text.now (length self.now.entries)) steps.old steps.new }
        ensures visits { OnOk result (IsCounted 1 (most_visits text.now (length self.now.entries)) steps.old steps.new) }
        ensures all { OnOk result (CountsAllVisits (Reaches self.now) text.now steps.old steps.new) }
        ensures first { CountsFirstVisits (Reaches self.now) text.now steps.old steps.new }
    {
        ends(alloc, &self.tables, text, &self.memo, steps)
    }

    /// Remembers which states are live at the places of a text, and returns whether all of this is remembered now: later questions about this text
    /// are answered quicker, and those about other texts as far as the same states are live together. Contracts don't see it. It takes at most some
    /// 7 MB (docs/PERFORMANCE.md, "What is remembered"). Where there is no room, or no memory, no more is remembered.
    pub fn remember(&mut self, alloc: Global, text: &[u8]) -> bool
        ensures { self.new ≡ self.old }
    {
        // What can't be remembered is found by a run when it is asked.
        recall(alloc, &self.tables, text, &mut self.memo).unwrap_or(false)
    }

    /// How many bytes what is remembered takes. It takes no memory; `O(1)`.
    pub fn remembered_bytes(&self) -> usize {
        self.memo.bytes()
    }

    /// Forgets what was remembered, and frees its memory.
    pub fn forget(&mut self, alloc: Global)
        ensures { self.new ≡ self.old }
    {
        self.memo = Memo::new(alloc);
    }
}
