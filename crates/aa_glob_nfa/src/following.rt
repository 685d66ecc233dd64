//! Which states are live before a text, and which after a byte.

ghost use Rattle.std.specs.Prelude.{◌≡◌, [], ℕ, List, length, IfOk};
ghost use Rattle.aa_glob_nfa.specs.OfTables.{AreSound, AreSorted, graph_of};
ghost use Rattle.aa_glob_nfa.specs.Fronts.{IsLive};
ghost use Rattle.aa_glob_nfa.specs.Runs.{IsBegun, IsWhole, LeadsTo};

use crate::front::Front;
use crate::running::pass;
use crate::steps::Steps;
use crate::tables::Tables;
use std::alloc::{AllocError, Global};

// All states that are live at a place, given those that its last byte led into.
fn close(alloc: Global, tables: &Tables, brought: Front) -> Result<Vec<u32>, AllocError>
    requires sound { AreSound tables.now }
    requires sorted { AreSorted tables.now }
    requires room { brought.room ≡ length tables.now.states }
    ensures whole { IfOk result (λ states. (past : List ℕ) → IsBegun (graph_of tables.now) past brought.states → IsWhole (graph_of tables.now) past states.items) }
    ensures live { IfOk result (λ states. IsLive (length tables.now.states) states.items) }
{
    let mut here = brought;
    let mut next = Front::new(alloc, tables.states.len())?;
    pass(tables, None, &mut here, &mut next, &mut Steps::new())?;
    Ok(here.into_states())
}

/// The states that are live before a text.
///
/// # Errors
///
/// Where memory runs out.
pub fn first(alloc: Global, tables: &Tables) -> Result<Vec<u32>, AllocError>
    requires sound { AreSound tables.now }
    requires sorted { AreSorted tables.now }
    ensures whole { IfOk result (λ states. IsWhole (graph_of tables.now) [] states.items) }
    ensures live { IfOk result (λ states. IsLive (length tables.now.states) states.items) }
{
    let mut here = Front::new(alloc, tables.states.len())?;
    here.insert(0)?;
    close(alloc, tables, here)
}

/// The states that are live after a byte, given those that are live before it.
///
/// # Errors
///
/// Where memory runs out.
pub fn follow(
    alloc: Global,
    tables: &Tables,
    from: &[u32],
    byte: u8,
) -> Result<Vec<u32>, AllocError>
    requires sound { AreSound tables.now }
    requires sorted { AreSorted tables.now }
    requires live { IsLive (length tables.now.states) from.now }
    ensures leads { IfOk result (λ to. LeadsTo (graph_of tables.now) from.now byte to.items) }
    ensures live { IfOk result (λ to. IsLive (length tables.now.states) to.items) }
{
    let count = tables.states.len();
    let mut here = Front::of(alloc, count, from)?;
    let mut next = Front::new(alloc, count)?;
    pass(tables, Some(byte), &mut here, &mut next, &mut Steps::new())?;
    close(alloc, tables, next)
}
