//! The order in which questions are printed that occurred differently often.

ghost use Rattle.std.specs.Prelude.{◌≡◌, ◌++◌, IfOk, OnOk, slice_get};
ghost use Rattle.aatry_requests.specs.Order.{IsMostAskedFirst};
ghost use Rattle.aatry_requests.specs.SeenTallies.{seen_all};
ghost use Rattle.aatry_requests.specs.code.TallyAt.{tally_at};

use crate::tallies::{Tallies, Tally};
use std::alloc::{AllocError, Global};

// Appends the tally at an index to `all`, if there is one.
fn push_at<'t, 'a>(
    tallies: &'t Tallies<'a>,
    place: usize,
    all: &mut Vec<&'t Tally<'a>>,
) -> Result<(), AllocError>
    ensures { OnOk result (seen_all all.new.items ≡ seen_all all.old.items ++ tally_at (slice_get tallies.now place)) }
{
    if let Some(tally) = tallies.get(place) {
        all.push(tally)?;
    }
    Ok(())
}

// All tallies, in their order.
fn all_of<'t, 'a>(alloc: Global, tallies: &'t Tallies<'a>) -> Result<Vec<&'t Tally<'a>>, AllocError>
    ensures { IfOk result (λ all. seen_all all.items ≡ tallies.now) }
{
    let mut all = Vec::with_capacity(alloc, tallies.len())?;
    for place in 0..tallies.len() {
        push_at(tallies, place, &mut all)?;
    }
    Ok(all)
}

/// The tallies of some questions, the most frequent first; of those that occurred equally often, in their order. `O(n log n)` in their number. It
/// allocates a reference to each.
///
/// # Errors
///
/// Where memory runs out.
pub fn most_asked_first<'t, 'a>(
    alloc: Global,
    tallies: &'t Tallies<'a>,
) -> Result<Vec<&'t Tally<'a>>, AllocError>
    ensures { IfOk result (λ told. IsMostAskedFirst tallies.now (seen_all told.items)) }
{
    let mut told = all_of(alloc, tallies)?;
    told.sort_by(|one, other| other.times.cmp(&one.times))?;
    Ok(told)
}
