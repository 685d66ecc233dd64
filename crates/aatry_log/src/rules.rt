//! The rules that allow the requests of logs, asked of a folder of policy.

ghost use Rattle.std.specs.Prelude.{◌≡◌, ◌++◌, IfOk, OnOk};
ghost use Rattle.aatry_arguments.specs.Given.{meant_telling};
ghost use Rattle.aatry_folder.specs.Reports.{seen_report};
ghost use Rattle.aatry_log.specs.Apart.{apart_text};
ghost use Rattle.aatry_log.specs.Rules.{AreLogRulesTold, aside};
ghost use Rattle.aatry_log.specs.Summary.{summary_line};
ghost use Rattle.aatry_logs.specs.LogRequests.{seen_logs};
ghost use Rattle.aatry_policy.specs.Folders.{seen_folder};

use crate::apart::push_apart;
use crate::notes::push_logs_note;
use crate::prefixing::push_prefixed;
use crate::summary::push_summary;
use crate::telling::passes;
use aatry_arguments::LogTelling;
use aatry_folder::{PolicyFolder, Report, failed_by};
use aatry_log_rules::push_rules;
use aatry_logs::LogRequests;
use aatry_policy::{LoadedFolder, load_folder};
use aatry_report::{Form, Teller};
use aatry_requests::{Tallies, most_asked_first};
use std::alloc::AllocError;

// Appends lines as comments to a text, or records as they are.
fn push_aside(form: Form, text: &[u8], out: &mut Vec<u8>) -> Result<(), AllocError>
    ensures { OnOk result (out.new.items ≡ out.old.items ++ aside form text.now) }
{
    push_prefixed(form, b"# ", text, out)
}

// Appends what follows the rules to a text.
fn push_behind(
    teller: Teller,
    logs: &LogRequests<'_>,
    nobody: usize,
    out: &mut Vec<u8>,
) -> Result<(), AllocError>
    ensures { OnOk result (out.new.items
        ≡ out.old.items ++ aside teller.form (apart_text teller.form (seen_logs logs.now) ++ summary_line teller.form (seen_logs logs.now) nobody)) }
{
    let mut behind = Vec::new(teller.alloc);
    push_apart(teller, logs, &mut behind)?;
    push_summary(teller, logs, nobody, &mut behind)?;
    push_aside(teller.form, &behind, out)
}

// Has the policy of a loaded folder remember which states requests pass in the rules of their askers, so that these are made ready once for all of
// them. Its answers don't change.
fn remember_all(
    teller: Teller,
    loaded: &mut LoadedFolder<'_>,
    tallies: &Tallies<'_>,
) -> Result<(), AllocError>
    ensures folder { loaded.new.folder.now ≡ loaded.old.folder.now }
    ensures manager { loaded.new.policy.manager ≡ loaded.old.policy.manager }
    ensures places { loaded.new.policy.origins.items ≡ loaded.old.policy.origins.items }
{
    let asked = most_asked_first(teller.alloc, tallies)?;
    for tally in asked {
        loaded.policy.manager.remember(&tally.question.question());
    }
    Ok(())
}

/// The rules that would allow the requests of logs, where these lack something of a folder of policy that was read, in a form
/// (`aatry_log_rules::push_rules`). They follow the files that are left out, where these are reported, and are followed by the first lines that make
/// no question, as `log` prints them, and the summary; on lines all of that is comments, so that what isn't one is a rule. It notes what `log`
/// notes, and one failed where it does for `log`. Wider rules are offered beside them where these are asked for.
///
/// # Errors
///
/// Where memory runs out.
pub fn log_rules(
    teller: Teller,
    folder: &PolicyFolder<'_>,
    telling: LogTelling,
    logs: &LogRequests<'_>,
) -> Result<Report, AllocError>
    ensures { IfOk result (λ report. AreLogRulesTold (meant_telling telling) teller.form teller.verbose (seen_folder folder.now) (seen_logs logs.now)
        (seen_report report)) }
{
    let mut report = Report::new(teller.alloc);
    let mut loaded = load_folder(teller, folder, &mut report)?;
    remember_all(teller, &mut loaded, &logs.requests.tallies)?;
    let mut text = Vec::new(teller.alloc);
    push_aside(teller.form, &report.text, &mut text)?;
    let nobody = push_rules(
        teller,
        telling.globs,
        &loaded,
        &logs.requests.tallies,
        &mut text,
    )?;
    push_behind(teller, logs, nobody, &mut text)?;
    report.text = text;
    push_logs_note(logs, nobody, &mut report.notes)?;
    report.failed = failed_by(passes(telling.strict, logs, nobody));
    Ok(report)
}
