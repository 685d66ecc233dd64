//! What leads away from states of a graph, as lists.

ghost use Rattle.std.specs.Prelude.{◌≡◌, ℕ, ◌+◌, ◌<◌, ◌^◌, ◌==◌, ◌&&◌, ◌||◌, [], length, IfOk, OnOk, true};
ghost use Rattle.aa_bytes.specs.ByteMaps.{in_map};
ghost use Rattle.aa_glob_nfa.specs.Entries.{stays_at, takes_byte};
ghost use Rattle.aa_glob_nfa.specs.Graphs.{entry_of, Leads};
ghost use Rattle.aa_glob_nfa.specs.OfTables.{AreSorted, AreSound, graph_of};
ghost use Rattle.aa_bytes.specs.declared.byte_map.ByteMap.{ByteMap};
ghost use Rattle.aa_glob_nfa.specs.Tables.{entry_behind, state_at};
ghost use Rattle.aa_glob_pairs.specs.Bytes.{in_bytes, is_among};
ghost use Rattle.aa_glob_nfa.specs.declared.state.Way.{Way};
ghost use Rattle.aa_glob_pairs.specs.Graphs.{AreMoves};
ghost use Rattle.aa_glob_pairs.specs.code.Gathered.{GetsLed, GetsStay};
ghost use Rattle.aa_glob_nfa.specs.Tables.{LeadsAway, LeadsOn};

use crate::bytes::Bytes;
use aa_bytes::ByteMap;
use aa_glob_nfa::{Gate, Tables, Way};
use std::alloc::{AllocError, Global};

/// A step by a byte: to a state, or staying in one.
#[derive(Clone, Copy)]
pub struct Step {
    /// The state to which they lead.
    pub to: u32,
    /// The bytes.
    pub bytes: Bytes,
}

/// What leads away from a state.
#[derive(Drop)]
pub struct Moves {
    /// The states that are entered from it without a byte.
    pub free: Vec<u32>,
    /// The steps that take a byte.
    pub steps: Vec<Step>,
}

impl Moves {
    /// No step. It takes no memory.
    pub fn new(alloc: Global) -> Moves
        ensures free { result.free.items ≡ [] }
        ensures steps { result.steps.items ≡ [] }
    {
        Moves {
            free: Vec::new(alloc),
            steps: Vec::new(alloc),
        }
    }
}

/// Fills the lists with what leads away from a state, in place of their items.
///
/// # Errors
///
/// Where memory runs out.
pub fn put_moves(tables: &Tables, state: u32, moves: &mut Moves) -> Result<(), AllocError>
    requires sound { AreSound tables.now }
    requires sorted { AreSorted tables.now }
    requires is_state { state < length tables.now.states }
    ensures { OnOk result (AreMoves (graph_of tables.now) state moves.new) }
{
    moves.free.clear();
    moves.steps.clear();
    lead_on(tables, state, moves)?;
    lead_away(tables, state, moves)?;
    stay(tables, state, moves)?;
    Ok(())
}

// Adds the way to the next state, if there is one.
fn lead_on(tables: &Tables, state: u32, moves: &mut Moves) -> Result<(), AllocError>
    requires sound { AreSound tables.now }
    requires is_state { state < length tables.now.states }
    ensures { OnOk result (GetsLed (graph_of tables.now) moves.old moves.new (LeadsOn tables.now.states state)) }
{
    if tables.states.leads_on(state) {
        add(tables, state + 1, moves)
    } else {
        Ok(())
    }
}

// Adds the ways of the table.
fn lead_away(tables: &Tables, state: u32, moves: &mut Moves) -> Result<(), AllocError>
    requires sound { AreSound tables.now }
    requires sorted { AreSorted tables.now }
    ensures { OnOk result (GetsLed (graph_of tables.now) moves.old moves.new (LeadsAway tables.now.ways.items state)) }
{
    for way in tables.ways_around(state) {
        add_if_from(tables, way, state, moves)?;
    }
    Ok(())
}

// Adds a way, if it leads from the state.
fn add_if_from(tables: &Tables, way: &Way, state: u32, moves: &mut Moves) -> Result<(), AllocError>
    requires sound { AreSound tables.now }
    requires to { way.now.to < length tables.now.states }
    ensures { OnOk result (GetsLed (graph_of tables.now) moves.old moves.new (λ x. (way.now.from ≡ state) × (x ≡ way.now.to))) }
{
    if way.from == state {
        add(tables, way.to, moves)
    } else {
        Ok(())
    }
}

// Adds a step to a state, or the state itself where no byte leads into it.
fn add(tables: &Tables, to: u32, moves: &mut Moves) -> Result<(), AllocError>
    requires sound { AreSound tables.now }
    requires to { to < length tables.now.states }
    ensures { OnOk result (GetsLed (graph_of tables.now) moves.old moves.new (λ x. x ≡ to)) }
{
    if tables.is_free(to) {
        moves.free.push(to)?;
    } else {
        moves.steps.push(Step {
            to,
            bytes: bytes_taken(tables, to),
        })?;
    }
    Ok(())
}

// Adds a step of the state to itself, if some bytes stay in it.
fn stay(tables: &Tables, state: u32, moves: &mut Moves) -> Result<(), AllocError>
    requires is_state { state < length tables.now.states }
    ensures { OnOk result (GetsStay (graph_of tables.now) moves.old moves.new state) }
{
    if let Some(bytes) = bytes_staying(tables.states.gate(state)) {
        moves.steps.push(Step { to: state, bytes })?;
    }
    Ok(())
}

// The bytes that lead into a state.
fn bytes_taken(tables: &Tables, state: u32) -> Bytes
    requires sound { AreSound tables.now }
    requires is_state { state < length tables.now.states }
    ensures { (byte : ℕ) → byte < 2 ^ 8 → in_bytes result byte ≡ takes_byte (entry_of (graph_of tables.now) state) byte }
{
    match tables.states.gate(state) {
        Gate::Byte(byte) => Bytes::One(byte),
        Gate::Inside => Bytes::Inside,
        _ => Bytes::Set(taken(tables, state)),
    }
}

// The bytes that stay in a state with this gate, if there are any.
fn bytes_staying(gate: Gate) -> Option<Bytes>
    ensures { (set : ByteMap) (byte : ℕ) → stays_at (entry_behind gate set) byte ≡ is_among result byte }
{
    match gate {
        Gate::Star => Some(Bytes::Inside),
        Gate::DoubleStar => Some(Bytes::Any),
        Gate::Free | Gate::Byte(_) | Gate::Inside | Gate::Class => None,
    }
}

// The bytes that lead into a state, found byte by byte.
fn taken(tables: &Tables, state: u32) -> ByteMap
    requires sound { AreSound tables.now }
    requires is_state { state < length tables.now.states }
    ensures { (byte : ℕ) → byte < 2 ^ 8 → in_map result byte ≡ takes_byte (entry_of (graph_of tables.now) state) byte }
{
    let mut map = ByteMap::new();
    for byte in 0..255 {
        put_if(tables.takes_if(state, Some(byte)), byte, &mut map);
    }
    put_if(tables.takes_if(state, Some(255)), 255, &mut map);
    map
}

// Adds a byte to a map, if `is_put`.
fn put_if(is_put: bool, byte: u8, map: &mut ByteMap)
    ensures { (other : ℕ) → in_map map.new other ≡ (other == byte && is_put || in_map map.old other) }
{
    if is_put {
        map.insert(byte);
    }
}
