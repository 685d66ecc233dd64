//! The summary.

ghost use Rattle.std.specs.Prelude.{◌≡◌, ◌++◌, OnOk};
ghost use Rattle.aatry_diff.specs.Summary.{summary_line};
ghost use Rattle.aatry_requests.specs.Gathering.{seen_requests};

use aatry_report::Teller;
use aatry_requests::{Requests, Share};
use std::alloc::AllocError;

/// Appends the summary to a text (`aatry_requests::Requests::push_summary`), by how many answers differ: that is `differing` in a record.
///
/// # Errors
///
/// Where memory runs out. A beginning may have been appended then.
pub fn push_summary(
    teller: Teller,
    requests: &Requests<'_>,
    differing: usize,
    out: &mut Vec<u8>,
) -> Result<(), AllocError>
    ensures { OnOk result (out.new.items ≡ out.old.items ++ summary_line teller.form (seen_requests requests.now) differing) }
{
    let share = Share {
        number: differing,
        words: " answered otherwise, ",
        name: "differing",
    };
    requests.push_summary(teller, share, out)
}
