//! Logs, asked of a folder of policy on disk.

ghost use Rattle.std.specs.Prelude.{◌≡◌, ◌≤◌, ◌^◌, IfErr, IfOk};
ghost use Rattle.aatry_arguments.specs.Given.{meant_lines, meant_logs};
ghost use Rattle.aatry_folder.specs.Reports.{seen_report};
ghost use Rattle.aatry_log.specs.Below.{IsLogToldBelow, selection_by};
ghost use Rattle.aatry_log.specs.Ends.{IsEndOfLog};
ghost use Rattle.aatry_log_lines.specs.Selections.{seen_selection};

use crate::rules::log_rules;
use crate::telling::log;
use aa_profile_parsing::Language;
use aa_set_commands::Source;
use aa_start::FileSystem;
use aatry_arguments::{LogLines, Logs};
use aatry_folder::{Fault, Folders, Report, policy_below};
use aatry_log_lines::Selection;
use aatry_logs::{gather_logs, meant_paths};
use aatry_report::Teller;

// Which lines count.
fn selection_of(lines: &LogLines) -> Selection<'_>
    ensures { seen_selection result ≡ selection_by (meant_lines lines.now) }
{
    Selection {
        denied: lines.denied,
        profile: match &lines.profile {
            Some(name) => Some(name.as_slice()),
            None => None,
        },
        since: lines.since,
    }
}

/// The present answers of the policy of a folder, read by a language, to the requests of logs. The folder is read as by
/// `aatry_folder::policy_below`, and then the given logs, or standard input where none is given; the report is that of `log`, or of `log_rules`
/// where rules are asked for.
///
/// # Errors
///
/// - `Unreadable` with the first folder or file below the folder of policy that can't be read, or else the first log that can't be opened.
/// - `TooMany` where there are more than 65,536 files and folders.
/// - `Read` where a read of a log failed, or one didn't end.
/// - `NoMemory` where memory ran out.
pub fn log_folder<F: Folders, D: FileSystem, S: Source>(
    teller: Teller,
    language: Language,
    folders: &F,
    disk: &D,
    asked: Logs,
    input: &mut S,
) -> Result<Report, Fault>
    requires { S.reads input.old ≤ 2 ^ 62 }
    ensures told { IfOk result (λ report. IsLogToldBelow teller.form teller.verbose language (F.told folders.now) (D.known disk.now) (S.left input.old)
        (meant_logs asked) (seen_report report)) }
    ensures fault { IfErr result (IsEndOfLog (F.told folders.now) (D.known disk.now) (meant_logs asked)) }
{
    let Logs {
        base,
        paths,
        telling,
        lines,
    } = asked;
    let folder = policy_below(teller.alloc, language, folders, disk, base.as_str())?;
    let meant = meant_paths(teller.alloc, paths)?;
    let selection = selection_of(&lines);
    let logs = gather_logs(teller.alloc, selection, disk, &meant, input)?;
    let report = if telling.rules {
        log_rules(teller, &folder, telling, &logs)?
    } else {
        log(teller, &folder, telling.strict, &logs)?
    };
    Ok(report)
}
