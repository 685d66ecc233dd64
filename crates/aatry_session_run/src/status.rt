//! What is loaded, and how the files that a session has differ from those on disk.

ghost use Rattle.std.specs.Prelude.{◌≡◌, ◌++◌, ℕ, List, OnOk};
ghost use Rattle.aa_set_answers.specs.List.{list_lines};
ghost use Rattle.aatry_report.specs.Shown.{shown_lines};
ghost use Rattle.aatry_session_run.specs.Status.{IsStatus, TellsDisk};

use crate::faults::push_told;
use crate::state::{Setting, Table};
use aa_start::FileSystem;
use aa_text_files::Files;
use aatry_folder::{Folders, policy_below};
use aatry_report::push_shown_lines;
use aatry_session::Session;
use aatry_session_told::push_differing;
use std::alloc::{AllocError, Global};

// Appends what is loaded to a text, as `list` prints it.
fn push_loaded(session: &Session, out: &mut Vec<u8>) -> Result<(), AllocError>
    ensures { OnOk result (out.new.items ≡ out.old.items ++ shown_lines (list_lines session.now.managed.machine.now)) }
{
    match session.manager().list() {
        Ok(lines) => push_shown_lines(out, &lines),
        Err(_) => Err(AllocError),
    }
}

// Reads everything below the folder, and appends how these files differ from the ones that a session has; or the fault that keeps them from being
// read.
fn push_disk<F: Folders, D: FileSystem>(
    alloc: Global,
    setting: &Setting<'_, F, D>,
    files: &Files,
    out: &mut Vec<u8>,
) -> Result<(), AllocError>
    ensures { OnOk result ((text : List ℕ) × (out.new.items ≡ out.old.items ++ text)
        × TellsDisk (F.told setting.now.folders.now) (D.known setting.now.disk.now) setting.now.base.now files.now text) }
{
    match policy_below(
        alloc,
        setting.language,
        setting.folders,
        setting.disk,
        setting.base,
    ) {
        Ok(read) => push_differing(alloc, setting.base.as_bytes(), files, &read.files, out),
        Err(fault) => push_told(&fault, out),
    }
}

/// Appends what is loaded to a text, as `list` prints it, followed by how the files of a session differ from those below the folder now, which are
/// read for it (`aatry_session_told::push_differing`). Where something can't be read, the fault is appended, as `reload` prints it. The session
/// stays as it is.
///
/// # Errors
///
/// Where memory runs out. A beginning may have been appended then.
pub fn push_status<F: Folders, D: FileSystem>(
    alloc: Global,
    setting: &Setting<'_, F, D>,
    table: &Table,
    out: &mut Vec<u8>,
) -> Result<(), AllocError>
    ensures { OnOk result ((text : List ℕ) × (out.new.items ≡ out.old.items ++ text)
        × IsStatus (F.told setting.now.folders.now) (D.known setting.now.disk.now) setting.now.base.now table.now.files
        table.now.session text) }
{
    push_loaded(&table.session, out)?;
    push_disk(alloc, setting, &table.files, out)?;
    Ok(())
}
