//! What follows from a pair of states: the pairs that are reached from it where one of the states moves without a byte, or both by the same byte.

ghost use Rattle.std.specs.Prelude.{◌≡◌, ◌∷◌, [], Contains, OnOk};
ghost use Rattle.aa_glob_pairs.specs.Nodes.{AreShared, FollowsBy};
ghost use Rattle.aa_glob_pairs.specs.Waiting.{Gains, Ordered};

use crate::bytes::share;
use crate::moves::{Moves, Step};
use crate::waiting::Waiting;
use std::alloc::AllocError;

/// Adds the pairs that follow from one to those that wait.
///
/// # Errors
///
/// Where memory runs out.
pub fn visit(
    first: &Moves,
    second: &Moves,
    row: u32,
    column: u32,
    waiting: &mut Waiting,
) -> Result<(), AllocError>
    ensures { OnOk result (Gains waiting.old waiting.new (Ordered (FollowsBy first.now second.now row column))) }
{
    go_first(&first.free, column, waiting)?;
    go_second(row, &second.free, waiting)?;
    go_both(&first.steps, &second.steps, waiting)
}

// Adds the pairs where the first state moves without a byte.
fn go_first(free: &[u32], column: u32, waiting: &mut Waiting) -> Result<(), AllocError>
    ensures { OnOk result (Gains waiting.old waiting.new (Ordered (λ x y. Contains free.now x × (y ≡ column)))) }
{
    for state in free {
        waiting.insert_pair(*state, column)?;
    }
    Ok(())
}

// Adds the pairs where the second state moves without a byte.
fn go_second(row: u32, free: &[u32], waiting: &mut Waiting) -> Result<(), AllocError>
    ensures { OnOk result (Gains waiting.old waiting.new (Ordered (λ x y. (x ≡ row) × Contains free.now y))) }
{
    for state in free {
        waiting.insert_pair(row, *state)?;
    }
    Ok(())
}

// Adds the pairs where both states move by the same byte.
fn go_both(first: &[Step], second: &[Step], waiting: &mut Waiting) -> Result<(), AllocError>
    ensures { OnOk result (Gains waiting.old waiting.new (Ordered (AreShared first.now second.now))) }
{
    for step in first {
        go_beside(step, second, waiting)?;
    }
    Ok(())
}

// Adds the pairs where the first state moves by this step, and the second by the same byte.
fn go_beside(step: &Step, second: &[Step], waiting: &mut Waiting) -> Result<(), AllocError>
    ensures { OnOk result (Gains waiting.old waiting.new (Ordered (AreShared (step.now ∷ []) second.now))) }
{
    for other in second {
        go_if_shared(step, other, waiting)?;
    }
    Ok(())
}

// Adds the pair to which these two steps lead, if they share a byte.
fn go_if_shared(step: &Step, other: &Step, waiting: &mut Waiting) -> Result<(), AllocError>
    ensures { OnOk result (Gains waiting.old waiting.new (Ordered (AreShared (step.now ∷ []) (other.now ∷ [])))) }
{
    if share(&step.bytes, &other.bytes) {
        waiting.insert_pair(step.to, other.to)
    } else {
        Ok(())
    }
}
