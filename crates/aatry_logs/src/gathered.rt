//! Named logs, gathered one after the other.

ghost use Rattle.std.specs.Prelude.{◌≡◌, ◌≤◌, ◌⊎◌, ◌^◌, None, Some, false, true, IfErr, IfOk, OnOk, map, string_bytes};
ghost use Rattle.aatry_folder.specs.declared.fault.Fault.TheVariants as fault;
ghost use Rattle.aatry_log_lines.specs.Selections.{seen_selection};
ghost use Rattle.aatry_logs.specs.Compressed.{IsNamedCompressed};
ghost use Rattle.aatry_logs.specs.Ends.{IsOfLog, IsOfOneLog};
ghost use Rattle.aatry_logs.specs.Gathered.{AreGathered, is_input, left_at, log_file, meant_paths};
ghost use Rattle.aatry_logs.specs.Inputs.{IsGatheredFrom};
ghost use Rattle.aatry_logs.specs.LogRequests.{nothing, seen_logs};
ghost use Rattle.aatry_logs.specs.code.Reading.{left_by, was_read_by};

use crate::log_requests::LogRequests;
use crate::opened::open_at;
use aa_set_commands::{FromRead, Source};
use aa_start::FileSystem;
use aatry_folder::Fault;
use aatry_log_lines::Selection;
use std::alloc::{AllocError, Global};

// Whether a path is standard input.
fn is_input(path: &str) -> bool
    ensures { result ≡ is_input path.now }
{
    path == "-"
}

// Takes the lines of the log at a path that isn't standard input.
fn take_file<D: FileSystem>(
    alloc: Global,
    selection: Selection<'_>,
    disk: &D,
    path: &str,
    logs: &mut LogRequests<'_>,
) -> Result<(), Fault>
    ensures taken { OnOk result (IsGatheredFrom (seen_selection selection.entry) (Some path.now) ((D.known disk.now).bytes_at path.now)
        (seen_logs logs.old) (seen_logs logs.new)) }
    ensures fault { IfErr result (IsOfLog (D.known disk.now) path.now) }
{
    let file = open_at(disk, String::from_str(alloc, path)?)?;
    let mut source = FromRead::new(file);
    logs.take_input(alloc, selection, Some(path), &mut source)
}

// Takes the lines of standard input, unless it was read before: nothing is left of it then.
fn take_standard<S: Source>(
    alloc: Global,
    selection: Selection<'_>,
    input: &mut S,
    was_read: &mut bool,
    logs: &mut LogRequests<'_>,
) -> Result<(), Fault>
    requires { was_read.old ≡ false → S.reads input.old ≤ 2 ^ 62 }
    ensures taken { OnOk result (IsGatheredFrom (seen_selection selection.entry) None (left_by was_read.old (S.left input.old))
        (seen_logs logs.old) (seen_logs logs.new)) }
    ensures read { was_read.new ≡ true }
    ensures fault { IfErr result (λ told. (told ≡ fault.Read) ⊎ (told ≡ fault.NoMemory) ⊎ IsNamedCompressed None told) }
{
    if *was_read {
        logs.begin();
        return Ok(());
    }
    *was_read = true;
    logs.take_input(alloc, selection, None, input)
}

// Takes the lines of the log at a path.
fn take_log<D: FileSystem, S: Source>(
    alloc: Global,
    selection: Selection<'_>,
    disk: &D,
    path: &str,
    input: &mut S,
    was_read: &mut bool,
    logs: &mut LogRequests<'_>,
) -> Result<(), Fault>
    requires { was_read.old ≡ false → S.reads input.old ≤ 2 ^ 62 }
    ensures taken { OnOk result (IsGatheredFrom (seen_selection selection.entry) (log_file path.now)
        (left_at (D.known disk.now) (left_by was_read.old (S.left input.old)) path.now) (seen_logs logs.old) (seen_logs logs.new)) }
    ensures read { OnOk result (was_read.new ≡ was_read_by was_read.old path.now) }
    ensures unread { was_read.new ≡ false → input.new ≡ input.old }
    ensures fault { IfErr result (IsOfLog (D.known disk.now) path.now) }
{
    if is_input(path) {
        return take_standard(alloc, selection, input, was_read, logs);
    }
    take_file(alloc, selection, disk, path, logs)
}

/// What is gathered of the logs at these paths, one after the other, by their selected lines. `-` is standard input, which is read once: where it is
/// named again nothing is left of it. Lines are dropped as they are taken.
///
/// # Errors
///
/// - `Unreadable` with the first path where no file can be opened.
/// - `Read` where a read failed, or a log didn't end (`LogRequests::take_input`).
/// - `Compressed` with the first path of a log that gzip wrote.
/// - `NoMemory` where memory ran out.
pub fn gather_logs<'a, D: FileSystem, S: Source>(
    alloc: Global,
    selection: Selection<'_>,
    disk: &D,
    paths: &[String],
    input: &mut S,
) -> Result<LogRequests<'a>, Fault>
    requires { S.reads input.old ≤ 2 ^ 62 }
    ensures gathered { IfOk result (λ logs. AreGathered (seen_selection selection.entry) (D.known disk.now) (S.left input.old)
        (map string_bytes paths.now) nothing (seen_logs logs)) }
    ensures fault { IfErr result (IsOfOneLog (D.known disk.now) (map string_bytes paths.now)) }
{
    let mut logs = LogRequests::new(alloc);
    let mut was_read = false;
    let mut rest = paths;
    while let [path, behind @ ..] = rest {
        take_log(
            alloc,
            selection,
            disk,
            path.as_str(),
            input,
            &mut was_read,
            &mut logs,
        )?;
        rest = behind;
    }
    Ok(logs)
}

/// The paths that are meant: that of standard input where none is given.
///
/// # Errors
///
/// Where memory runs out.
pub fn meant_paths(alloc: Global, paths: Vec<String>) -> Result<Vec<String>, AllocError>
    ensures { IfOk result (λ meant. map string_bytes meant.items ≡ meant_paths (map string_bytes paths.items)) }
{
    let mut meant = paths;
    if meant.is_empty() {
        meant.push(String::from_str(alloc, "-")?)?;
    }
    Ok(meant)
}
