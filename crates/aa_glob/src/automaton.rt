//! The automaton of some patterns.

ghost use Rattle.std.specs.Prelude.{◌≡◌, ◌≤◌, ℕ, List, IfOk, None, OnOk, Some};
ghost use Rattle.std.specs.List.Sorted.{IsStrictlyIncreasing};
ghost use Rattle.std.specs.Option.{option_copied};
ghost use Rattle.aa_glob.specs.Automata.{AreClassesOf, IsAutomatonOf};
ghost use Rattle.aa_glob.specs.Visits.{IsReadOf};
ghost use Rattle.aa_glob_pairs.specs.Clashes.{IsLeast};
ghost use Rattle.aa_glob_syntax.specs.Overlap.{ClashesAmong};
ghost use Rattle.aa_glob_syntax.specs.Patterns.{AreMatching};
ghost use Rattle.aa_glob_nfa.specs.Steps.{IsCounted, most_visits};
ghost use Rattle.aa_glob_nfa.specs.Visits.{CountsAllVisits, CountsFirstVisits};
ghost use Rattle.aa_glob_pattern.specs.Beginnings.{HasStates, most_states};

use crate::builder::AutomatonBuilder;
use crate::graph_laws::what_reaches_a_state;
use aa_glob_nfa::Steps;
use aa_glob_pattern::{Pattern, how_many_states_there_are};
use aa_glob_run::Nfa;
use std::alloc::{AllocError, Global};
use std::marker::Model;

/// The automaton of some patterns, which finds all of them that match a path in one run over it. It keeps no copy of their texts. Contracts see of
/// which patterns it is (`IsAutomatonOf`).
#[derive(Drop)]
pub struct Automaton {
    // `None` where there are no patterns.
    nfa: Option<Nfa>,
}

impl Model for Automaton {
    ghost use Rattle.std.specs.Prelude.{Option};
    ghost use Rattle.aa_glob_nfa.specs.Graphs.{Graph};

    ghost Value = { Option Graph };

    ghost view = { λ a. a.nfa };
}

impl Automaton {
    // The automaton of no patterns.
    pub(crate) fn none() -> Automaton
        ensures { result ≡ None }
    {
        Automaton { nfa: None }
    }

    // The automaton with this graph, of one pattern or more.
    pub(crate) fn of(nfa: Nfa) -> Automaton
        ensures { result ≡ Some nfa }
    {
        Automaton { nfa: Some(nfa) }
    }

    /// Builds the automaton of some patterns. A pattern's place in answers is its index in the slice. It has one state for each different beginning
    /// of the patterns, and so at most two for each byte of their texts and two for each pattern.
    ///
    /// # Errors
    ///
    /// Where memory runs out, and where there are more than 4,294,967,295 patterns or states.
    pub fn build(alloc: Global, patterns: &[Pattern]) -> Result<Automaton, AllocError>
        ensures { IfOk result (λ automaton. IsAutomatonOf automaton patterns.now) }
    {
        let builder = AutomatonBuilder::new(alloc)?;
        let added = builder.add_each(alloc, patterns)?;
        Ok(added.finish())
    }

    /// The finished automaton that is run, lent, or `None` where there are no patterns. It takes no memory; `O(1)`.
    pub fn nfa(&self) -> Option<&Nfa>
        ensures { option_copied result ≡ self.now }
    {
        match &self.nfa {
            None => None,
            Some(nfa) => Some(nfa),
        }
    }

    /// How many states there are: one for each different beginning of the patterns, and so at most two for each byte of their texts and two for each
    /// pattern; none where there is no pattern. It takes no memory; `O(1)`.
    pub fn states(&self) -> usize
        ensures states { (patterns : List (List ℕ)) → IsAutomatonOf self.now patterns → HasStates patterns result }
        ensures few { (patterns : List (List ℕ)) → IsAutomatonOf self.now patterns → result ≤ most_states patterns }
    {
        how_many_states_there_are();
        match &self.nfa {
            None => 0,
            Some(nfa) => nfa.states(),
        }
    }

    /// The least place (index) of a pattern that clashes with one at an earlier place: some text matches both, and their classes differ. `classes`
    /// has the class of each pattern, by its place. `None` where no pattern clashes with an earlier one.
    ///
    /// # Errors
    ///
    /// Where memory runs out.
    pub fn first_clash(&self, alloc: Global, classes: &[u32]) -> Result<Option<u32>, AllocError>
        requires { AreClassesOf self.now classes.now }
        ensures { IfOk result (λ found. (patterns : List (List ℕ))
            → IsAutomatonOf self.now patterns
            → IsLeast found (ClashesAmong patterns classes.now)) }
    {
        what_reaches_a_state();
        match &self.nfa {
            None => Ok(None),
            Some(nfa) => nfa.first_clash(alloc, classes),
        }
    }

    /// Returns the places (indices) of the patterns that match a path, of any bytes, in rising order. A directory's path has to end with `/`, which
    /// the caller writes.
    ///
    /// Steps are counted: one for each visit of a state at a place of the path, which are its bytes and its end. A state is visited at most once at
    /// each place, so that there are at most `(n + 1) * s` steps for a path of n bytes and s states; the run stops at the first byte after which no
    /// pattern can match. So the steps are as many as there are different beginnings of the patterns that are read at each of the places, all places
    /// together.
    ///
    /// # Errors
    ///
    /// Where memory runs out. The steps at the places before are counted.
    pub fn matching(
        &self,
        alloc: Global,
        path: &[u8],
        steps: &mut Steps,
    ) -> Result<Vec<usize>, AllocError>
        ensures found { IfOk result (λ found. (patterns : List (List ℕ))
            → IsAutomatonOf self.now patterns
            → AreMatching patterns path.now found.items) }
        ensures rise { IfOk result (λ found. IsStrictlyIncreasing found.items) }
        ensures steps { (patterns : List (List ℕ)) (states : ℕ) → IsAutomatonOf self.now patterns → HasStates patterns states
            → IsCounted 0 (most_visits path.now states) steps.old steps.new }
        ensures all { (patterns : List (List ℕ)) → IsAutomatonOf self.now patterns
            → OnOk result (CountsAllVisits (IsReadOf patterns) path.now steps.old steps.new) }
        ensures first { (patterns : List (List ℕ)) → IsAutomatonOf self.now patterns
            → CountsFirstVisits (IsReadOf patterns) path.now steps.old steps.new }
    {
        how_many_states_there_are();
        what_reaches_a_state();
        match &self.nfa {
            None => Ok(Vec::new(alloc)),
            Some(nfa) => nfa.ends_reached(alloc, path, steps),
        }
    }

    /// Remembers which states are live at the places of a path, and returns whether all of this is remembered now: later questions about this path
    /// are answered quicker, and those about other paths as far as they reach the same states together. No answer changes, and contracts don't see
    /// it. It takes at most some 7 MB (docs/PERFORMANCE.md, "What is remembered"). Where there is no room, or no memory, no more is remembered.
    pub fn remember(&mut self, alloc: Global, path: &[u8]) -> bool
        ensures { self.new ≡ self.old }
    {
        match &mut self.nfa {
            None => true,
            Some(nfa) => nfa.remember(alloc, path),
        }
    }

    /// How many bytes what is remembered takes (`remember`). It takes no memory; `O(1)`.
    pub fn remembered_bytes(&self) -> usize {
        match &self.nfa {
            None => 0,
            Some(nfa) => nfa.remembered_bytes(),
        }
    }

    /// Forgets what was remembered, and frees its memory.
    pub fn forget(&mut self, alloc: Global)
        ensures { self.new ≡ self.old }
    {
        if let Some(nfa) = &mut self.nfa {
            nfa.forget(alloc);
        }
    }
}
