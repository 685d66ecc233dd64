//! Questions whose answers differ between two policy sets.

ghost use Rattle.std.specs.Prelude.{◌≡◌, ◌++◌, IfOk, OnOk, slice_get};
ghost use Rattle.aatry_diff.specs.Differing.{differences};
ghost use Rattle.aatry_diff.specs.SeenDifferences.{seen_differences};
ghost use Rattle.aatry_diff.specs.code.Steps.{difference_at, difference_if};
ghost use Rattle.aatry_requests.specs.SeenTallies.{seen_tally};

use crate::answers::answer;
use aa_bytes::Sequence;
use aa_set_manager::Manager;
use aatry_requests::{Tallies, Tally};
use std::alloc::{AllocError, Global};

/// A question whose answers differ between two policy sets.
#[derive(Drop)]
pub struct Difference<'t, 'a> {
    /// The question, and how often it occurred.
    pub tally: &'t Tally<'a>,
    /// The answer of the old policy set.
    pub before: Sequence<u8>,
    /// The answer of the new one.
    pub after: Sequence<u8>,
}

// Appends a question with its answers to the differences found, if the answers of two policy sets differ.
fn push_difference<'t, 'a>(
    alloc: Global,
    old: &mut Manager,
    new: &mut Manager,
    tally: &'t Tally<'a>,
    found: &mut Vec<Difference<'t, 'a>>,
) -> Result<(), AllocError>
    ensures found { OnOk result (seen_differences found.new.items
        ≡ seen_differences found.old.items ++ difference_if old.old.machine.now new.old.machine.now (seen_tally tally.now)) }
    ensures old { old.new ≡ old.old }
    ensures new { new.new ≡ new.old }
{
    let question = tally.question.question();
    let before = answer(alloc, old, &question)?;
    let after = answer(alloc, new, &question)?;
    if before.as_slice() == after.as_slice() {
        return Ok(());
    }
    found.push(Difference {
        tally,
        before,
        after,
    })?;
    Ok(())
}

// Appends the question at an index, if there is one, with its answers to the differences found, if these differ.
fn push_difference_at<'t, 'a>(
    alloc: Global,
    old: &mut Manager,
    new: &mut Manager,
    tallies: &'t Tallies<'a>,
    place: usize,
    found: &mut Vec<Difference<'t, 'a>>,
) -> Result<(), AllocError>
    ensures found { OnOk result (seen_differences found.new.items
        ≡ seen_differences found.old.items ++ difference_at old.old.machine.now new.old.machine.now (slice_get tallies.now place)) }
    ensures old { old.new ≡ old.old }
    ensures new { new.new ≡ new.old }
{
    match tallies.get(place) {
        Some(tally) => push_difference(alloc, old, new, tally, found),
        None => Ok(()),
    }
}

/// Asks an old and a new policy set the same questions, and returns those whose answers differ, in order, each with the answer before and after.
/// What the policy sets remember of questions doesn't change their answers.
///
/// # Errors
///
/// Where memory runs out, also in an answer.
pub fn find_differences<'t, 'a>(
    alloc: Global,
    old: &mut Manager,
    new: &mut Manager,
    tallies: &'t Tallies<'a>,
) -> Result<Vec<Difference<'t, 'a>>, AllocError>
    ensures found { IfOk result (λ found. seen_differences found.items ≡ differences old.old.machine.now new.old.machine.now tallies.now) }
    ensures old { old.new ≡ old.old }
    ensures new { new.new ≡ new.old }
{
    let mut found = Vec::new(alloc);
    for place in 0..tallies.len() {
        push_difference_at(alloc, old, new, tallies, place, &mut found)?;
    }
    Ok(found)
}
