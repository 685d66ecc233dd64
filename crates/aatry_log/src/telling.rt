//! Logs, asked of a folder of policy.

ghost use Rattle.std.specs.Prelude.{◌≡◌, IfOk};
ghost use Rattle.aatry_folder.specs.Reports.{seen_report};
ghost use Rattle.aatry_log.specs.Log.{IsLogTold, passes};
ghost use Rattle.aatry_logs.specs.LogRequests.{seen_logs};
ghost use Rattle.aatry_policy.specs.Folders.{seen_folder};

use crate::apart::push_apart;
use crate::notes::push_logs_note;
use crate::requests::push_requests;
use crate::summary::push_summary;
use aatry_folder::{PolicyFolder, Report, failed_by};
use aatry_logs::LogRequests;
use aatry_policy::load_folder;
use aatry_report::Teller;
use aatry_uncertain::heads_left_out;
use std::alloc::AllocError;

/// Whether logs pass: where they are taken strictly, each of their lines can be read, and the asker of each exists.
pub fn passes(strict: bool, logs: &LogRequests<'_>, nobody: usize) -> bool
    ensures { result ≡ passes strict (seen_logs logs.now) nobody }
{
    !strict || (logs.requests.unreadable == 0 && nobody == 0)
}

/// The report on the requests of logs, asked of a folder of policy that was read, in a form. First come the files that are left out, where these are
/// reported, and it is noted how many they are (`aatry_policy::load_folder`). Then comes each request once, the most frequent first: a line with how
/// often it occurred, when, and its question, and below it the present answer of the policy, with the rules that decide it and the missing one, and
/// the profiles of files that are left out on which it could depend, as `why` prints them. Then come the first lines that make no question: that
/// can't be read, of which the kernel knew no whole path, or of learning profiles. The summary comes last. It is noted how many such lines there
/// are, and how many questions have an asker that doesn't exist. Where the logs are taken strictly, one failed where a line can't be read or there
/// is such a question.
///
/// # Errors
///
/// Where memory runs out.
pub fn log(
    teller: Teller,
    folder: &PolicyFolder<'_>,
    strict: bool,
    logs: &LogRequests<'_>,
) -> Result<Report, AllocError>
    ensures { IfOk result (λ report. IsLogTold teller.form teller.verbose (seen_folder folder.now) strict (seen_logs logs.now) (seen_report report)) }
{
    let mut report = Report::new(teller.alloc);
    let mut loaded = load_folder(teller, folder, &mut report)?;
    let left_out = heads_left_out(teller.alloc, &loaded)?;
    let nobody = push_requests(
        teller,
        &mut loaded,
        &left_out,
        &logs.requests.tallies,
        &mut report.text,
    )?;
    push_apart(teller, logs, &mut report.text)?;
    push_summary(teller, logs, nobody, &mut report.text)?;
    push_logs_note(logs, nobody, &mut report.notes)?;
    report.failed = failed_by(passes(strict, logs, nobody));
    Ok(report)
}
