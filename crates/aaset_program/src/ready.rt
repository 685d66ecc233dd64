//! What is ready before the first command is read.
ghost use Rattle.std.specs.Prelude.{◌≡◌, drop, map, string_bytes};
ghost use Rattle.aaset_program.specs.Prepared.{ArePrepared, IsPrepared};
ghost use Rattle.aa_start.specs.Arguments.{ForRun, asked};
ghost use Rattle.aa_start.specs.Plan.{run_of};

use crate::fault::Fault;
use crate::stop::Stop;
use aa_set::Language;
use aa_start::{FileSystem, Plan};
use aa_text_files::Files;
use std::alloc::Global;

/// What is ready before the first command is read.
#[derive(Drop)]
pub struct Ready {
    /// The files that commands may name.
    pub files: Files,
    /// The language by which they are read.
    pub language: Language,
    /// Whether each profile is loaded in complain mode, whatever its flags are.
    pub force_complain: bool,
}

// Reads the files of a plan.
fn gather<D: FileSystem>(alloc: Global, plan: Plan, disk: &D) -> Result<Ready, Stop>
    ensures { IsPrepared (D.known disk.now) (ForRun (run_of plan)) result }
{
    let Plan {
        language,
        force_complain,
        base,
        names,
    } = plan;
    let files = aa_start::gather(disk, alloc, base.as_str(), names)?;
    Ok(Ready {
        files,
        language,
        force_complain,
    })
}

// Reads the files that the words of the start ask for, the first of which is the program's own name.
fn prepare_for<D: FileSystem>(alloc: Global, words: &[String], disk: &D) -> Result<Ready, Stop>
    ensures { IsPrepared (D.known disk.now) (asked (drop 1 (map string_bytes words.now))) result }
{
    let plan = aa_start::plan(alloc, words)?;
    gather(alloc, plan, disk)
}

// Reads the files that the words of the start ask for, where these words are there.
pub fn prepare<D: FileSystem>(
    alloc: Global,
    words: Result<Vec<String>, Fault>,
    disk: &D,
) -> Result<Ready, Stop>
    ensures { ArePrepared (D.known disk.now) words result }
{
    match words {
        Ok(words) => prepare_for(alloc, words.as_slice(), disk),
        Err(fault) => Err(Stop::Failed(fault)),
    }
}
