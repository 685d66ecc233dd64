//! The summary.

ghost use Rattle.std.specs.Prelude.{◌≡◌, ◌++◌, IfOk, OnOk};
ghost use Rattle.aatry_log.specs.Summary.{fields_of, of_nobody, summary_line};
ghost use Rattle.aatry_logs.specs.LogRequests.{seen_logs};
ghost use Rattle.aatry_report.specs.SeenFields.{seen_fields};
ghost use Rattle.aatry_requests.specs.SeenShares.{seen_share};

use aatry_logs::LogRequests;
use aatry_report::{Field, Teller, tell};
use aatry_requests::Share;
use std::alloc::{AllocError, Global};

// The share of questions whose asker isn't in the folder.
fn of_nobody<'s>(number: usize) -> Share<'s>
    ensures { seen_share result ≡ of_nobody number }
{
    Share {
        number,
        words: " of nobody here, ",
        name: "nobody",
    }
}

// The fields of the summary.
fn fields_of<'s>(
    alloc: Global,
    logs: &LogRequests<'_>,
    nobody: usize,
) -> Result<Vec<Field<'s>>, AllocError>
    ensures { IfOk result (λ fields. seen_fields fields.items ≡ fields_of (seen_logs logs.now) nobody) }
{
    let mut fields = logs.requests.summary_fields(alloc, of_nobody(nobody))?;
    fields.extend_from_slice(&[
        Field::Words(", "),
        Field::Number("passed_over", logs.passed_over as usize),
        Field::Words(" passed over"),
    ])?;
    Ok(fields)
}

/// Appends the summary of logs to a text (`aatry_requests::Requests::push_summary`), by how many questions have an asker that isn't in the folder,
/// which is `nobody` in a record, and how many lines are passed over, which is `passed_over`.
///
/// # Errors
///
/// Where memory runs out. A beginning may have been appended then.
pub fn push_summary(
    teller: Teller,
    logs: &LogRequests<'_>,
    nobody: usize,
    out: &mut Vec<u8>,
) -> Result<(), AllocError>
    ensures { OnOk result (out.new.items ≡ out.old.items ++ summary_line teller.form (seen_logs logs.now) nobody) }
{
    let fields = fields_of(teller.alloc, logs, nobody)?;
    tell(teller, "summary", &fields, out)
}
