//! The sets of states that are live after texts, found one after the other.

ghost use Rattle.std.specs.Prelude.{◌≡◌, ◌<◌, ℕ, [], length, IfOk, IfSome, None, OnOk};
ghost use Rattle.aa_glob_nfa.specs.OfTables.{AreSound, AreSorted, graph_of};
ghost use Rattle.aa_glob_paths.specs.Alike.{StandForAll, StandForAllFrom};
ghost use Rattle.aa_glob_paths.specs.Found.{AreFound, set_at};
ghost use Rattle.aa_glob_paths.specs.Reachable.{AreMoreThan, AreReachable, IsFollowed, IsKeptBack};
ghost use Rattle.aa_glob_paths.specs.code.Closing.{AreMore, ComeOfUpTo, IsFollowedByAll};
ghost use Rattle.aa_glob_paths.specs.code.Rooms.{HasRoom};

use crate::bytes::bytes_for_all;
use crate::fronts::Fronts;
use crate::lives::{are_kept, first_set, next_set};
use crate::origin::Origin;
use crate::sets::Sets;
use crate::told::bytes_for_set;
use aa_glob_nfa::Tables;
use std::alloc::{AllocError, Global};

// The set that is live before a text, alone.
fn begin(alloc: Global, tables: &Tables) -> Result<Sets, AllocError>
    requires sound { AreSound tables.now }
    requires sorted { AreSorted tables.now }
    ensures found { IfOk result (AreFound (graph_of tables.now) (length tables.now.states)) }
    ensures up_to { IfOk result (λ sets. ComeOfUpTo sets 0) }
{
    let mut sets = Sets::new(alloc);
    let states = first_set(alloc, tables)?;
    sets.place(&states, Origin { from: 0, byte: 0 })?;
    Ok(sets)
}

// Appends the set that is live after that of a number and a byte, if it isn't there, a state in it matters, and none is settled.
fn follow_byte(
    tables: &Tables,
    wanted: &[bool],
    settled: &[bool],
    fronts: &mut Fronts,
    sets: &mut Sets,
    from: usize,
    byte: u8,
) -> Result<(), AllocError>
    requires sound { AreSound tables.now }
    requires sorted { AreSorted tables.now }
    requires wanted { length wanted.now ≡ length tables.now.states }
    requires settled { length settled.now ≡ length tables.now.states }
    requires room { HasRoom (length tables.now.states) fronts.old }
    requires found { AreFound (graph_of tables.now) (length tables.now.states) sets.old }
    requires up_to { ComeOfUpTo sets.old from }
    requires within { from < length sets.old }
    ensures more { OnOk result (AreMore (graph_of tables.now) (length tables.now.states) from sets.old sets.new) }
    ensures followed { OnOk result (IsFollowed (graph_of tables.now) wanted.now settled.now sets.new from byte) }
    ensures room { OnOk result (HasRoom (length tables.now.states) fronts.new) }
{
    next_set(tables, sets.set(from), byte, fronts)?;
    if are_kept(&fronts.set, wanted, settled) {
        sets.place(&fronts.set, Origin { from, byte })
    } else {
        Ok(())
    }
}

// Appends the sets that are live after that of a number and each of some bytes, which stand for all bytes after the texts of the set.
fn follow_each(
    tables: &Tables,
    wanted: &[bool],
    settled: &[bool],
    bytes: &[u8],
    fronts: &mut Fronts,
    sets: &mut Sets,
    from: usize,
) -> Result<(), AllocError>
    requires sound { AreSound tables.now }
    requires sorted { AreSorted tables.now }
    requires wanted { length wanted.now ≡ length tables.now.states }
    requires settled { length settled.now ≡ length tables.now.states }
    requires room { HasRoom (length tables.now.states) fronts.old }
    requires found { AreFound (graph_of tables.now) (length tables.now.states) sets.old }
    requires up_to { ComeOfUpTo sets.old from }
    requires within { from < length sets.old }
    requires bytes { StandForAllFrom (graph_of tables.now) (set_at sets.old from) bytes.now }
    ensures more { OnOk result (AreMore (graph_of tables.now) (length tables.now.states) from sets.old sets.new) }
    ensures followed { OnOk result (IsFollowedByAll (graph_of tables.now) wanted.now settled.now sets.new from) }
    ensures room { OnOk result (HasRoom (length tables.now.states) fronts.new) }
{
    for byte in bytes {
        follow_byte(tables, wanted, settled, fronts, sets, from, *byte)?;
    }
    Ok(())
}

// Appends the sets that are live after that of a number and any byte, by bytes that stand for all.
fn follow_all(
    tables: &Tables,
    wanted: &[bool],
    settled: &[bool],
    bytes: &[u8],
    own: &mut Vec<u8>,
    fronts: &mut Fronts,
    sets: &mut Sets,
    from: usize,
) -> Result<(), AllocError>
    requires sound { AreSound tables.now }
    requires sorted { AreSorted tables.now }
    requires wanted { length wanted.now ≡ length tables.now.states }
    requires settled { length settled.now ≡ length tables.now.states }
    requires room { HasRoom (length tables.now.states) fronts.old }
    requires found { AreFound (graph_of tables.now) (length tables.now.states) sets.old }
    requires up_to { ComeOfUpTo sets.old from }
    requires within { from < length sets.old }
    requires bytes { StandForAll (graph_of tables.now) bytes.now }
    ensures more { OnOk result (AreMore (graph_of tables.now) (length tables.now.states) from sets.old sets.new) }
    ensures followed { OnOk result (IsFollowedByAll (graph_of tables.now) wanted.now settled.now sets.new from) }
    ensures room { OnOk result (HasRoom (length tables.now.states) fronts.new) }
{
    bytes_for_set(tables, bytes, sets.set(from), own)?;
    follow_each(tables, wanted, settled, own, fronts, sets, from)
}

/// The sets of states that are live after some text, as far as a state among them matters and none is settled, in the order of the lengths of these
/// texts; `None` where they are more than `limit`. A set with a settled state isn't followed. `wanted` says of each state whether it matters, and
/// `settled` whether it is settled.
///
/// Its time grows with the number of sets, the states of each, and the bytes that they tell apart; its memory with the number of sets and the states
/// of each.
///
/// # Errors
///
/// Where memory runs out.
pub fn reachable(
    alloc: Global,
    tables: &Tables,
    wanted: &[bool],
    settled: &[bool],
    limit: usize,
) -> Result<Option<Sets>, AllocError>
    requires sound { AreSound tables.now }
    requires sorted { AreSorted tables.now }
    requires wanted { length wanted.now ≡ length tables.now.states }
    requires settled { length settled.now ≡ length tables.now.states }
    requires back { IsKeptBack (graph_of tables.now) wanted.now }
    ensures found { IfOk result (λ found. IfSome found (AreFound (graph_of tables.now) (length tables.now.states))) }
    ensures full { IfOk result (λ found. found ≡ None → AreMoreThan (graph_of tables.now) limit) }
    ensures reachable { IfOk result (λ found. IfSome found (AreReachable (graph_of tables.now) wanted.now settled.now)) }
{
    let bytes = bytes_for_all(alloc, tables)?;
    let mut own = Vec::new(alloc);
    let mut fronts = Fronts::new(alloc, tables.states.len())?;
    let mut sets = begin(alloc, tables)?;
    let mut at = 0;
    while at < sets.len() {
        if sets.len() > limit {
            return Ok(None);
        }
        follow_all(
            tables,
            wanted,
            settled,
            &bytes,
            &mut own,
            &mut fronts,
            &mut sets,
            at,
        )?;
        at += 1;
    }
    Ok(Some(sets))
}
