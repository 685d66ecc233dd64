//! Which states are live after a byte.

ghost use Rattle.std.specs.Prelude.{◌≡◌, ◌<◌, ◌&&◌, not, [], length, All, IfOk, OnOk};
ghost use Rattle.std.specs.List.{list_any};
ghost use Rattle.std.specs.List.Sorted.{IsNonDecreasing, IsPermutation};
ghost use Rattle.aa_glob_nfa.specs.OfTables.{AreSound, AreSorted, graph_of};
ghost use Rattle.aa_glob_nfa.specs.Fronts.{IsLive};
ghost use Rattle.aa_glob_nfa.specs.Runs.{IsWhole, LeadsTo};
ghost use Rattle.aa_glob_paths.specs.Found.{IsStateSet};
ghost use Rattle.aa_glob_paths.specs.Reachable.{is_marked, is_settled, matters};
ghost use Rattle.aa_glob_paths.specs.code.Rooms.{HasRoom};

use crate::fronts::{Fronts, follow};
use aa_glob_nfa::{Tables, first};
use std::alloc::{AllocError, Global};

// Sorts states, so that a set is one list.
fn put_in_order(states: &mut Vec<u32>)
    ensures same { IsPermutation states.old.items states.new.items }
    ensures order { IsNonDecreasing states.new.items }
{
    states.sort_unstable();
}

// The states that are live before a text, as a sorted set.
pub fn first_set(alloc: Global, tables: &Tables) -> Result<Vec<u32>, AllocError>
    requires sound { AreSound tables.now }
    requires sorted { AreSorted tables.now }
    ensures whole { IfOk result (λ states. IsWhole (graph_of tables.now) [] states.items) }
    ensures set { IfOk result (λ states. IsStateSet (length tables.now.states) states.items) }
{
    let mut states = first(alloc, tables)?;
    put_in_order(&mut states);
    Ok(states)
}

// The states that are live after a byte, given those that are live before it: they are returned as the set of the fronts.
pub fn next_set(
    tables: &Tables,
    from: &[u32],
    byte: u8,
    fronts: &mut Fronts,
) -> Result<(), AllocError>
    requires sound { AreSound tables.now }
    requires sorted { AreSorted tables.now }
    requires live { IsLive (length tables.now.states) from.now }
    requires room { HasRoom (length tables.now.states) fronts.old }
    ensures leads { OnOk result (LeadsTo (graph_of tables.now) from.now byte fronts.new.set.items) }
    ensures set { OnOk result (IsStateSet (length tables.now.states) fronts.new.set.items) }
    ensures room { OnOk result (HasRoom (length tables.now.states) fronts.new) }
{
    follow(tables, from, byte, &mut fronts.here, &mut fronts.next)?;
    fronts.set.clear();
    fronts.set.extend_from_slice(fronts.next.states())?;
    put_in_order(&mut fronts.set);
    Ok(())
}

// Whether one of some states is marked.
pub fn some_marked(states: &[u32], marks: &[bool]) -> bool
    requires { All (λ r. r < length marks.now) states.now }
    ensures { result ≡ list_any (is_marked marks.now) states.now }
{
    for state in states {
        if marks[*state as usize] {
            return true;
        }
    }
    false
}

// Whether one of some states matters, and none is settled.
pub fn are_kept(states: &[u32], wanted: &[bool], settled: &[bool]) -> bool
    requires wanted { All (λ r. r < length wanted.now) states.now }
    requires settled { All (λ r. r < length settled.now) states.now }
    ensures { result ≡ (list_any (matters wanted.now) states.now && not (list_any (is_settled settled.now) states.now)) }
{
    some_marked(states, wanted) && !some_marked(states, settled)
}
