//! Automata while they are built.

ghost use Rattle.std.specs.Prelude.{◌≡◌, ◌<◌, length, IfOk, OnOk, OnErr};
ghost use Rattle.aa_glob_nfa.specs.Graphs.{AddsEnd, AddsWay, IsState, SameGraph, SameRuns, start_alone, with_entry};

use crate::nfa::Nfa;
use aa_glob_nfa::{Entry, Tables};
use std::alloc::{AllocError, Global};
use std::marker::Model;

/// An automaton while it is built: states with their entries, ways from state to state, and ends of patterns. State 0 is the start.
///
/// Contracts see the graph: its entries, ways and ends. It has at most 2^32 - 1 states.
#[derive(Drop)]
pub struct Drawing {
    tables: Tables,
}

impl Model for Drawing {
    ghost use Rattle.aa_glob_nfa.specs.Graphs.{Graph};
    ghost use Rattle.aa_glob_nfa.specs.OfTables.{AreSound, graph_of};

    ghost Value = { Graph };

    ghost view = { λ d. graph_of d.tables };

    ghost invariant = { λ d. AreSound d.tables };
}

impl Drawing {
    /// The start alone, without ways or ends.
    ///
    /// # Errors
    ///
    /// Where memory runs out.
    pub fn new(alloc: Global) -> Result<Drawing, AllocError>
        ensures { IfOk result (λ drawing. drawing ≡ start_alone) }
    {
        Ok(Drawing {
            tables: Tables::new(alloc)?,
        })
    }

    /// Adds a state with this entry, and returns its number: how many there were before.
    ///
    /// # Errors
    ///
    /// Where memory runs out, and where there are 2^32 - 1 states already. Nothing is promised then about the graph.
    pub fn add(&mut self, entry: Entry) -> Result<u32, AllocError>
        ensures number { IfOk result (λ number. number ≡ length self.old.entries) }
        ensures added { OnOk result (self.new ≡ with_entry entry self.old) }
    {
        self.tables.add(&entry)
    }

    /// Adds a way from a state to a state. A way to the next state takes no memory.
    ///
    /// # Errors
    ///
    /// Where memory runs out. The graph is then as it was.
    pub fn link(&mut self, from: u32, to: u32) -> Result<(), AllocError>
        requires from { IsState self.old from }
        requires to { IsState self.old to }
        ensures added { OnOk result (AddsWay self.old self.new from to) }
        ensures err { OnErr result (self.new ≡ self.old) }
    {
        self.tables.link(from, to)
    }

    /// Makes a state an end of a pattern, in addition to those that end there already.
    ///
    /// # Errors
    ///
    /// Where memory runs out. The graph is then as it was.
    pub fn end(&mut self, state: u32, pattern: u32) -> Result<(), AllocError>
        requires { IsState self.old state }
        ensures added { OnOk result (AddsEnd self.old self.new state pattern) }
        ensures err { OnErr result (self.new ≡ self.old) }
    {
        self.tables.end(state, pattern)
    }

    /// The finished automaton, of the same states, ways and ends. It takes no memory.
    pub fn finish(self) -> Nfa
        ensures same { SameGraph self result }
        ensures runs { SameRuns self result }
    {
        Nfa::of(self.tables)
    }
}
