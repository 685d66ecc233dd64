//! The tables of a graph, and look-ups in them.

ghost use Rattle.std.specs.Prelude.{◌≡◌, ◌++◌, ◌+◌, ◌<◌, ◌≤◌, length, All, AllPairs, Contains, IfOk, OnErr, OnOk};
ghost use Rattle.std.specs.List.{AllWithin};
ghost use Rattle.std.specs.List.Sorted.{IsNonDecreasingBy};
ghost use Rattle.aa_glob_nfa.specs.Entries.{is_free, stays_at, takes_byte, takes_if};
ghost use Rattle.aa_bytes.specs.ByteMaps.{in_map};
ghost use Rattle.aa_glob_nfa.specs.Graphs.{AddsEnd, AddsWay, entry_of, SameGraph, start_alone, with_entry};
ghost use Rattle.aa_glob_nfa.specs.declared.state.End.{End};
ghost use Rattle.aa_glob_nfa.specs.declared.state.Way.{Way};
ghost use Rattle.aa_glob_nfa.specs.Tables.{AreLeaving, entry_behind, order_of, set_of, sets_in};

use crate::entry::Entry;
use crate::state::{ClassRow, End, Gate, Way};
use crate::states::States;
use crate::ways::{Leaving, begin_block, find_firsts, leaving_among, ways_of_block};
use aa_bytes::is_inside;
use std::alloc::{AllocError, Global};

/// The tables of a graph.
#[derive(Drop)]
pub struct Tables {
    pub states: States,
    pub ways: Vec<Way>,
    // For each block of states the index of its first way, once the ways are sorted.
    pub firsts: Vec<u32>,
    pub classes: Vec<ClassRow>,
    pub ends: Vec<End>,
}

impl Tables {
    ghost use Rattle.aa_glob_nfa.specs.OfTables.{AreSound, AreSorted, graph_of};

    /// The tables of the start alone.
    ///
    /// # Errors
    ///
    /// Where memory runs out.
    pub fn new(alloc: Global) -> Result<Tables, AllocError>
        ensures sound { IfOk result AreSound }
        ensures alone { IfOk result (λ tables. graph_of tables ≡ start_alone) }
    {
        let mut states = States::new(alloc);
        states.push(Gate::Free)?;
        let mut firsts = Vec::new(alloc);
        begin_block(&mut firsts, 0)?;
        Ok(Tables {
            states,
            ways: Vec::new(alloc),
            firsts,
            classes: Vec::new(alloc),
            ends: Vec::new(alloc),
        })
    }

    /// Adds a state with this entry, and returns its number.
    ///
    /// # Errors
    ///
    /// Where memory runs out, and where there are 2^32 - 1 states already; the tables are still sound then.
    pub fn add(&mut self, entry: &Entry) -> Result<u32, AllocError>
        requires { AreSound self.old }
        ensures sound { AreSound self.new }
        ensures number { IfOk result (λ number. number ≡ length (graph_of self.old).entries) }
        ensures added { OnOk result (graph_of self.new ≡ with_entry entry.now (graph_of self.old)) }
    {
        let number = self.states.len();
        if number >= u32::MAX as usize {
            return Err(AllocError);
        }
        let number = number as u32;
        begin_block(&mut self.firsts, number)?;
        self.states.push(Gate::of(entry))?;
        keep_set(&mut self.classes, number, entry)?;
        Ok(number)
    }

    /// Adds a way, which is a flag where it leads to the next state.
    ///
    /// # Errors
    ///
    /// Where memory runs out. The graph is then as it was.
    pub fn link(&mut self, from: u32, to: u32) -> Result<(), AllocError>
        requires sound { AreSound self.old }
        requires from { from < length self.old.states }
        requires to { to < length self.old.states }
        ensures sound { AreSound self.new }
        ensures added { OnOk result (AddsWay (graph_of self.old) (graph_of self.new) from to) }
        ensures err { OnErr result (graph_of self.new ≡ graph_of self.old) }
    {
        if to == from + 1 {
            self.states.lead_on(from);
            return Ok(());
        }
        let by = self.states.gate(to).by();
        self.states.lead_away(from);
        self.ways.push(Way { from, by, to })?;
        Ok(())
    }

    /// Makes a state an end of a pattern.
    ///
    /// # Errors
    ///
    /// Where memory runs out. The graph is then as it was.
    pub fn end(&mut self, state: u32, pattern: u32) -> Result<(), AllocError>
        requires sound { AreSound self.old }
        requires is_state { state < length self.old.states }
        ensures sound { AreSound self.new }
        ensures added { OnOk result (AddsEnd (graph_of self.old) (graph_of self.new) state pattern) }
        ensures err { OnErr result (graph_of self.new ≡ graph_of self.old) }
    {
        self.states.end(state);
        self.ends.push(End { state, pattern })?;
        Ok(())
    }

    /// Sorts ways and ends, and finds where the ways of each block begin.
    pub fn sort(&mut self)
        requires { AreSound self.old }
        ensures sound { AreSound self.new }
        ensures sorted { AreSorted self.new }
        ensures same { SameGraph (graph_of self.old) (graph_of self.new) }
    {
        self.ways.sort_unstable_by_key(|way| way.order());
        self.ends.sort_unstable_by_key(|end| end.state);
        find_firsts(&self.ways, &mut self.firsts);
    }

    /// Gives back the tables' unused capacity.
    pub fn shrink(&mut self)
        ensures states { self.new.states ≡ self.old.states }
        ensures ways { self.new.ways.items ≡ self.old.ways.items }
        ensures firsts { self.new.firsts.items ≡ self.old.firsts.items }
        ensures classes { self.new.classes.items ≡ self.old.classes.items }
        ensures ends { self.new.ends.items ≡ self.old.ends.items }
    {
        self.states.shrink();
        self.ways.shrink_to_fit();
        self.firsts.shrink_to_fit();
        self.classes.shrink_to_fit();
        self.ends.shrink_to_fit();
    }
}

impl Tables {
    ghost use Rattle.aa_glob_nfa.specs.OfTables.{AreSound, AreSorted, graph_of};

    /// Whether a state is entered without a byte.
    pub fn is_free(&self, number: u32) -> bool
        requires { number < length self.now.states }
        ensures { result ≡ is_free (entry_of (graph_of self.now) number) }
    {
        self.states.gate(number).is_free()
    }

    /// Whether a state is entered by this byte, if there is one.
    pub fn takes_if(&self, number: u32, byte: Option<u8>) -> bool
        requires sound { AreSound self.now }
        requires is_state { number < length self.now.states }
        ensures { result ≡ takes_if byte (entry_of (graph_of self.now) number) }
    {
        match byte {
            Some(byte) => takes(self.states.gate(number), &self.classes, number, byte),
            None => false,
        }
    }

    /// Whether the byte stays in a state.
    pub fn stays(&self, number: u32, byte: u8) -> bool
        requires { number < length self.now.states }
        ensures { result ≡ stays_at (entry_of (graph_of self.now) number) byte }
    {
        self.states.gate(number).stays(byte)
    }

    /// The ways from the states of a state's block, its own included, in sorted order.
    pub fn ways_around(&self, from: u32) -> &[Way]
        requires { AreSorted self.now }
        ensures sorted { IsNonDecreasingBy order_of result.now }
        ensures only { All (Contains self.now.ways.items) result.now }
        ensures each { (way : Way) → Contains self.now.ways.items way → way.from ≡ from → Contains result.now way }
    {
        ways_of_block(&self.ways, &self.firsts, from)
    }

    /// The ways of the table by which states are entered from a state without a byte, or by the byte, if there is one. Other ways may be among them.
    pub fn leaving(&self, from: u32, byte: Option<u8>) -> Leaving<'_>
        requires sound { AreSound self.now }
        requires sorted { AreSorted self.now }
        ensures { AreLeaving self.now.ways.items from byte result.any.now result.own.now }
    {
        leaving_among(self.ways_around(from), from, byte)
    }

    /// The ends of patterns at a state.
    pub fn ends_of(&self, state: u32) -> &[End]
        requires sound { AreSound self.now }
        requires sorted { AreSorted self.now }
        requires is_state { state < length self.now.states }
        ensures only { All (λ e. Contains self.now.ends.items e × (e.state ≡ state)) result.now }
        ensures each { (end : End) → Contains self.now.ends.items end → end.state ≡ state → Contains result.now end }
    {
        if self.states.ends(state) {
            ends_at(&self.ends, state)
        } else {
            &[]
        }
    }
}

// Appends the set of a state's entry to the sets of classes, if the entry is a class.
fn keep_set(classes: &mut Vec<ClassRow>, number: u32, entry: &Entry) -> Result<(), AllocError>
    ensures ok { OnOk result (classes.new.items ≡ classes.old.items ++ sets_in number entry.now) }
    ensures err { OnErr result (classes.new.items ≡ classes.old.items) }
{
    if let Entry::Class(map) = entry {
        classes.push(ClassRow {
            state: number,
            map: *map,
        })?;
    }
    Ok(())
}

// Whether the byte leads into a state with this gate.
fn takes(gate: Gate, classes: &[ClassRow], number: u32, byte: u8) -> bool
    requires { AllPairs (λ a b. a.state < b.state) classes.now }
    ensures { result ≡ takes_byte (entry_behind gate (set_of classes.now number)) byte }
{
    match gate {
        Gate::Byte(wanted) => byte == wanted,
        Gate::Inside => is_inside(byte),
        Gate::Class => class_has(classes, number, byte),
        Gate::Free | Gate::Star | Gate::DoubleStar => false,
    }
}

// Whether the set of a state's class has the byte.
fn class_has(classes: &[ClassRow], state: u32, byte: u8) -> bool
    requires { AllPairs (λ a b. a.state < b.state) classes.now }
    ensures { result ≡ in_map (set_of classes.now state) byte }
{
    match classes.get(first_class(classes, state)) {
        Some(class) if class.state == state => class.map.has(byte),
        _ => false,
    }
}

// The index of the first class of a state that isn't less than this one.
fn first_class(classes: &[ClassRow], state: u32) -> usize
    requires { IsNonDecreasingBy (λ c. c.state) classes.now }
    ensures within { result ≤ length classes.now }
    ensures before { AllWithin (λ c. c.state < state) classes.now 0 result }
    ensures behind { AllWithin (λ c. state ≤ c.state) classes.now result (length classes.now) }
{
    classes.partition_point(|class| class.state < state)
}

// The ends at a state.
fn ends_at(ends: &[End], state: u32) -> &[End]
    requires { IsNonDecreasingBy (λ e. e.state) ends.now }
    ensures only { All (λ e. Contains ends.now e × (e.state ≡ state)) result.now }
    ensures each { (end : End) → Contains ends.now end → end.state ≡ state → Contains result.now end }
{
    let start = first_end(ends, state as u64);
    let end = first_end(ends, state as u64 + 1);
    &ends[start..end]
}

// The index of the first end whose state isn't less than this number.
fn first_end(ends: &[End], state: u64) -> usize
    requires { IsNonDecreasingBy (λ e. e.state) ends.now }
    ensures within { result ≤ length ends.now }
    ensures before { AllWithin (λ e. e.state < state) ends.now 0 result }
    ensures behind { AllWithin (λ e. state ≤ e.state) ends.now result (length ends.now) }
{
    ends.partition_point(|end| (end.state as u64) < state)
}
