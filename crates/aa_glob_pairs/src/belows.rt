//! For each state of a graph which classes the patterns have that end at it or at one that it leads to.

ghost use Rattle.std.specs.Prelude.{◌≡◌, ◌<◌, ℕ, All, Contains, length, replicate, set, slice_index_or, IfOk};
ghost use Rattle.aa_glob_nfa.specs.OfTables.{AreSound, graph_of};
ghost use Rattle.aa_glob_nfa.specs.declared.state.End.{End};
ghost use Rattle.aa_glob_pairs.specs.Below.{Covers, Includes};
ghost use Rattle.aa_glob_pairs.specs.Graphs.{AreBelow, IsBelowAt, IsLaid, class_at};
ghost use Rattle.aa_glob_nfa.specs.Tables.{LeadsAway, LeadsOn};
ghost use Rattle.aa_glob_pairs.specs.Pairs.{AreClassed};
ghost use Rattle.aa_glob_pairs.specs.code.Numbered.{as_kept, below_of, number_of};
ghost use Rattle.aa_glob_pairs.specs.declared.below.Below.TheVariants.{Nothing};

use crate::below::Below;
use aa_glob_nfa::{End, Tables, Way};
use std::alloc::{AllocError, Global};
use std::marker::Model;

// So many classes have a number of their own.
const NUMBERED_CLASSES: u32 = 4_294_967_294;

/// The classes below each state of a graph, in four bytes a state. Contracts see a list.
#[derive(Drop)]
pub struct Belows {
    // For each state the number of the classes below it.
    numbers: Vec<u32>,
}

impl Model for Belows {
    ghost use Rattle.std.specs.Prelude.{List, map};
    ghost use Rattle.aa_glob_pairs.specs.code.Numbered.{below_of};
    ghost use Rattle.aa_glob_pairs.specs.declared.below.Below.{Below};

    ghost Value = { List Below };

    ghost view = { λ b. map below_of b.numbers.items };
}

impl Belows {
    // No class below each of so many states.
    //
    // # Errors
    //
    // Where memory runs out.
    fn new(alloc: Global, states: usize) -> Result<Belows, AllocError>
        ensures { IfOk result (λ belows. belows ≡ replicate states Nothing) }
    {
        let numbers = vec![in alloc; 0u32; states]?;
        Ok(Belows { numbers })
    }

    /// The classes below a state.
    pub fn at(&self, state: u32) -> Below
        requires { state < length self.now }
        ensures { result ≡ slice_index_or self.now state Nothing }
    {
        below_of(self.numbers[state as usize])
    }

    // Replaces the classes below a state.
    fn put(&mut self, state: u32, below: Below)
        requires { state < length self.old }
        ensures { self.new ≡ set self.old state (as_kept below) }
    {
        self.numbers[state as usize] = number_of(below);
    }
}

// The classes below a state, by their number.
fn below_of(number: u32) -> Below
    ensures { result ≡ below_of number }
{
    match number {
        0 => Below::Nothing,
        1 => Below::Several,
        _ => Below::One(number - 2),
    }
}

// The number of the classes below a state.
fn number_of(below: Below) -> u32
    ensures { result ≡ number_of below }
{
    match below {
        Below::Nothing => 0,
        Below::One(class) if class < NUMBERED_CLASSES => class + 2,
        Below::One(_) | Below::Several => 1,
    }
}

// The classes of the patterns that end at a state.
fn of_ends(ends: &[End], classes: &[u32]) -> Below
    requires { All (λ e. e.pattern < length classes.now) ends.now }
    ensures { (e : End) → Contains ends.now e → Covers result (class_at classes.now e.pattern) }
{
    let mut below = Below::Nothing;
    for end in ends {
        below = below.with(classes[end.pattern as usize]);
    }
    below
}

// These classes and those below the next state, if a way leads there from the state.
fn beside_next(below: Below, tables: &Tables, state: u32, belows: &Belows) -> Below
    requires sound { AreSound tables.now }
    requires is_state { state < length tables.now.states }
    requires room { length belows.now ≡ length tables.now.states }
    ensures first { Includes result below }
    ensures on { (x : ℕ) → LeadsOn tables.now.states state x → Includes result (slice_index_or belows.now x Nothing) }
{
    if tables.states.leads_on(state) {
        below.beside(belows.at(state + 1))
    } else {
        below
    }
}

// These classes and those below the states to which those of these ways lead that lead from the state.
fn beside_ways(below: Below, ways: &[Way], state: u32, belows: &Belows) -> Below
    requires { All (λ w. w.to < length belows.now) ways.now }
    ensures first { Includes result below }
    ensures away { (x : ℕ) → LeadsAway ways.now state x → Includes result (slice_index_or belows.now x Nothing) }
{
    let mut all = below;
    for way in ways {
        all = beside_way(all, way, state, belows);
    }
    all
}

// These classes and those below the state to which a way leads, if it leads there from the state.
fn beside_way(below: Below, way: &Way, state: u32, belows: &Belows) -> Below
    requires { way.now.to < length belows.now }
    ensures first { Includes result below }
    ensures away { way.now.from ≡ state → Includes result (slice_index_or belows.now way.now.to Nothing) }
{
    if way.from == state {
        below.beside(belows.at(way.to))
    } else {
        below
    }
}

// The classes below a state, where those below all later states are known.
fn below_at(tables: &Tables, classes: &[u32], state: u32, belows: &Belows) -> Below
    requires classed { AreClassed tables.now classes.now }
    requires is_state { state < length tables.now.states }
    requires room { length belows.now ≡ length tables.now.states }
    ensures { IsBelowAt (graph_of tables.now) classes.now belows.now state result }
{
    let below = of_ends(tables.ends_of(state), classes);
    let below = beside_next(below, tables, state, belows);
    beside_ways(below, tables.ways_around(state), state, belows)
}

/// The classes below each state of a graph whose ways lead to later states; they are found from the last state to the first.
///
/// # Errors
///
/// Where memory runs out.
pub fn belows_of(alloc: Global, tables: &Tables, classes: &[u32]) -> Result<Belows, AllocError>
    requires classed { AreClassed tables.now classes.now }
    requires later { IsLaid (graph_of tables.now) }
    ensures { IfOk result (AreBelow (graph_of tables.now) classes.now) }
{
    let mut belows = Belows::new(alloc, tables.states.len())?;
    let mut left = tables.states.len();
    while left > 0 {
        left -= 1;
        let below = below_at(tables, classes, left as u32, &belows);
        belows.put(left as u32, below);
    }
    Ok(belows)
}
