//! Automata while they are built.

ghost use Rattle.std.specs.Prelude.{◌≡◌, ◌+◌, ◌++◌, ◌∷◌, [], ℕ, List, length, IfOk, Ok};
ghost use Rattle.aa_glob.specs.Automata.{IsAutomatonOf};
ghost use Rattle.aa_glob.specs.Built.{IsBuilt};
ghost use Rattle.aa_glob.specs.States.{state_count};
ghost use Rattle.aa_glob.specs.code.Followed.{LeadsToEnd};
ghost use Rattle.aa_glob_pattern.specs.Beginnings.{HasStates};
ghost use Rattle.aa_glob_syntax.specs.Reading.{items_of, reading};

use crate::automaton::Automaton;
use crate::graph_laws::how_graphs_are_drawn;
use crate::growing::Growing;
use crate::numbers::Numbers;
use crate::tree::Tree;
use aa_glob_pattern::{Pattern, how_beginnings_are_gathered, how_many_states_there_are};
use aa_glob_run::Drawing;
use std::alloc::{AllocError, Global};
use std::marker::Model;

/// An automaton while it is built, pattern by pattern. Contracts see of which patterns it is so far (`IsBuilt`).
#[derive(Drop)]
pub struct AutomatonBuilder {
    growing: Growing,
    patterns: u32,
}

impl Model for AutomatonBuilder {
    ghost use Rattle.std.specs.Prelude.{ℕ};
    ghost use Rattle.aa_glob.specs.Built.{IsOfSome};
    ghost use Rattle.aa_glob.specs.declared.growing.Growing.{Growing};

    ghost Value = { Growing × ℕ };

    ghost view = { λ b. (b.growing, b.patterns) };

    ghost invariant = { λ b. IsOfSome b.growing b.patterns };
}

impl AutomatonBuilder {
    /// A builder without a pattern.
    ///
    /// # Errors
    ///
    /// Where memory runs out.
    pub fn new(alloc: Global) -> Result<AutomatonBuilder, AllocError>
        ensures { IfOk result (λ builder. IsBuilt builder []) }
    {
        how_graphs_are_drawn();
        how_beginnings_are_gathered();
        let growing = Growing {
            drawing: Drawing::new(alloc)?,
            tree: Tree::new(alloc)?,
            numbers: Numbers::new(alloc),
        };
        Ok(AutomatonBuilder {
            growing,
            patterns: 0,
        })
    }

    /// Adds a pattern, whose place comes after those of the others, and returns the builder.
    ///
    /// # Errors
    ///
    /// Where memory runs out, and where there are 4,294,967,295 patterns or states already. The builder is dropped then.
    pub fn add(self, alloc: Global, pattern: &Pattern) -> Result<AutomatonBuilder, AllocError>
        ensures { IfOk result (λ added. (patterns : List (List ℕ)) → IsBuilt self patterns → IsBuilt added (patterns ++ pattern.now ∷ [])) }
    {
        how_graphs_are_drawn();
        how_beginnings_are_gathered();
        let AutomatonBuilder {
            mut growing,
            patterns,
        } = self;
        if patterns == u32::MAX {
            return Err(AllocError);
        }
        let state = growing.follow(alloc, pattern.text())?;
        growing.drawing.end(state, patterns)?;
        Ok(AutomatonBuilder {
            growing,
            patterns: patterns + 1,
        })
    }

    /// Adds more patterns, whose places come after those of the others, in their order, and returns the builder.
    ///
    /// # Errors
    ///
    /// As for `add`.
    pub fn add_each(self, alloc: Global, more: &[Pattern]) -> Result<AutomatonBuilder, AllocError>
        ensures { IfOk result (λ added. (patterns : List (List ℕ)) → IsBuilt self patterns → IsBuilt added (patterns ++ more.now)) }
    {
        let mut added = self;
        for pattern in more {
            added = added.add(alloc, pattern)?;
        }
        Ok(added)
    }

    /// How many states there are so far: one for each different beginning of the patterns. It takes no memory.
    pub fn states(&self) -> usize
        ensures states { (patterns : List (List ℕ)) → IsBuilt self.now patterns → HasStates patterns result }
        ensures counted { (patterns : List (List ℕ)) → IsBuilt self.now patterns → result ≡ state_count patterns }
    {
        how_beginnings_are_gathered();
        how_many_states_there_are();
        if self.patterns == 0 {
            0
        } else {
            self.growing.tree.places()
        }
    }

    /// The automaton of the patterns that were added. It takes no memory.
    pub fn finish(self) -> Automaton
        ensures { (patterns : List (List ℕ)) → IsBuilt self patterns → IsAutomatonOf result patterns }
    {
        how_graphs_are_drawn();
        if self.patterns == 0 {
            Automaton::none()
        } else {
            Automaton::of(self.growing.drawing.finish())
        }
    }
}
