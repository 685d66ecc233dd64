//! Bytes that stand for those that no state of a set tells apart from them.

ghost use Rattle.std.specs.Prelude.{◌≡◌, ◌<◌, ℕ, true, length, All, Contains, OnOk};
ghost use Rattle.aa_bytes.specs.ByteMaps.{in_map};
ghost use Rattle.aa_glob_nfa.specs.Entries.{takes_byte};
ghost use Rattle.aa_glob_nfa.specs.Graphs.{Leads, entry_of};
ghost use Rattle.aa_glob_nfa.specs.OfTables.{AreSound, AreSorted, graph_of};
ghost use Rattle.aa_glob_nfa.specs.Tables.{IsWay, LeadsAway, LeadsOn};
ghost use Rattle.aa_glob_paths.specs.Alike.{StandForAll, StandForAllFrom};
ghost use Rattle.aa_glob_paths.specs.code.Told.{ArePicked, HasEnds, KeepsTold, TellsEntry, TellsSet, TellsWays};

use aa_bytes::ByteMap;
use aa_glob_nfa::{Gate, Tables, Way};
use std::alloc::AllocError;

// Adds those of some bytes to a set that lead into a state.
fn tell_taken(tables: &Tables, bytes: &[u8], number: u32, told: &mut ByteMap)
    requires sound { AreSound tables.now }
    requires is_state { number < length tables.now.states }
    ensures keeps { KeepsTold told.old told.new }
    ensures taken { (c : ℕ) → Contains bytes.now c → takes_byte (entry_of (graph_of tables.now) number) c ≡ true → in_map told.new c ≡ true }
{
    for byte in bytes {
        if tables.takes_if(number, Some(*byte)) {
            told.insert(*byte);
        }
    }
}

// Adds those of some bytes to a set by which a state is entered while others don't enter it. Zero and `/` are in the set already.
fn tell_entry(tables: &Tables, bytes: &[u8], number: u32, told: &mut ByteMap)
    requires sound { AreSound tables.now }
    requires is_state { number < length tables.now.states }
    requires ends { HasEnds told.old }
    ensures keeps { KeepsTold told.old told.new }
    ensures tells { TellsEntry (graph_of tables.now) bytes.now told.new number }
{
    match tables.states.gate(number) {
        Gate::Byte(byte) => told.insert(byte),
        Gate::Class => tell_taken(tables, bytes, number, told),
        Gate::Free | Gate::Inside | Gate::Star | Gate::DoubleStar => {}
    }
}

// Adds those of some bytes to a set that the state after another tells apart, if a way leads there.
fn tell_on(tables: &Tables, bytes: &[u8], from: u32, told: &mut ByteMap)
    requires sound { AreSound tables.now }
    requires is_state { from < length tables.now.states }
    requires ends { HasEnds told.old }
    ensures keeps { KeepsTold told.old told.new }
    ensures tells { TellsWays (LeadsOn tables.now.states from) (graph_of tables.now) bytes.now told.new }
{
    if tables.states.leads_on(from) {
        tell_entry(tables, bytes, from + 1, told);
    }
}

// Adds those of some bytes to a set that states tell apart to which these ways lead from a state.
fn tell_by(tables: &Tables, bytes: &[u8], ways: &[Way], from: u32, told: &mut ByteMap)
    requires sound { AreSound tables.now }
    requires each { All (IsWay tables.now.states) ways.now }
    requires ends { HasEnds told.old }
    ensures keeps { KeepsTold told.old told.new }
    ensures tells { TellsWays (LeadsAway ways.now from) (graph_of tables.now) bytes.now told.new }
{
    for way in ways {
        if way.from == from {
            tell_entry(tables, bytes, way.to, told);
        }
    }
}

// Adds those of some bytes to a set that states tell apart to which ways of the table lead from a state.
fn tell_away(tables: &Tables, bytes: &[u8], from: u32, told: &mut ByteMap)
    requires sound { AreSound tables.now }
    requires sorted { AreSorted tables.now }
    requires is_state { from < length tables.now.states }
    requires ends { HasEnds told.old }
    ensures keeps { KeepsTold told.old told.new }
    ensures tells { TellsWays (LeadsAway tables.now.ways.items from) (graph_of tables.now) bytes.now told.new }
{
    if tables.states.leads_away(from) {
        tell_by(tables, bytes, tables.ways_around(from), from, told);
    }
}

// Adds those of some bytes to a set that states tell apart to which any way leads from a state.
fn tell_ways(tables: &Tables, bytes: &[u8], from: u32, told: &mut ByteMap)
    requires sound { AreSound tables.now }
    requires sorted { AreSorted tables.now }
    requires is_state { from < length tables.now.states }
    requires ends { HasEnds told.old }
    ensures keeps { KeepsTold told.old told.new }
    ensures tells { TellsWays (Leads (graph_of tables.now) from) (graph_of tables.now) bytes.now told.new }
{
    tell_on(tables, bytes, from, told);
    tell_away(tables, bytes, from, told);
}

// A set with each of some bytes that the states to which a set of states leads tell apart from another byte.
fn told_by(tables: &Tables, bytes: &[u8], set: &[u32]) -> ByteMap
    requires sound { AreSound tables.now }
    requires sorted { AreSorted tables.now }
    requires are_states { All (λ r. r < length tables.now.states) set.now }
    ensures ends { HasEnds result }
    ensures tells { TellsSet (graph_of tables.now) bytes.now result set.now }
{
    let mut told = ByteMap::new();
    told.insert(0);
    told.insert(b'/');
    for state in set {
        tell_ways(tables, bytes, *state, &mut told);
    }
    told
}

// Fills a list with those of some bytes that are in a set, and the first one that isn't.
fn pick(bytes: &[u8], told: &ByteMap, own: &mut Vec<u8>) -> Result<(), AllocError>
    ensures { OnOk result (ArePicked bytes.now told.now own.new.items) }
{
    own.clear();
    let mut has_untold = false;
    for byte in bytes {
        let is_told = told.has(*byte);
        if is_told || !has_untold {
            own.push(*byte)?;
        }
        has_untold = has_untold || !is_told;
    }
    Ok(())
}

/// Fills a list with those of some bytes, which stand for all, that stand for all after the texts of a set of states: each byte is like one of them,
/// as far as the states of the set tell bytes apart. They keep their order. It goes over the set once.
///
/// # Errors
///
/// Where memory runs out. Nothing is promised then about the list.
pub fn bytes_for_set(
    tables: &Tables,
    bytes: &[u8],
    set: &[u32],
    own: &mut Vec<u8>,
) -> Result<(), AllocError>
    requires sound { AreSound tables.now }
    requires sorted { AreSorted tables.now }
    requires are_states { All (λ r. r < length tables.now.states) set.now }
    requires bytes { StandForAll (graph_of tables.now) bytes.now }
    ensures { OnOk result (StandForAllFrom (graph_of tables.now) set.now own.new.items) }
{
    let told = told_by(tables, bytes, set);
    pick(bytes, &told, own)
}
