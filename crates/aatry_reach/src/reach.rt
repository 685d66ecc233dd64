//! Under which profiles programs may run that somebody starts, by the policy of a folder.

ghost use Rattle.std.specs.Prelude.{◌≡◌, ◌++◌, IfErr, IfOk, OnOk, map, string_bytes};
ghost use Rattle.aatry_arguments.specs.Given.{meant_reach};
ghost use Rattle.aatry_claims.specs.Never.{seen_paths_report};
ghost use Rattle.aatry_policy.specs.Folders.{loaded_in, policy_in, seen_folder};
ghost use Rattle.aatry_reach.specs.Finding.{seen_found};
ghost use Rattle.aatry_reach.specs.Reach.{IsEndOfReach, IsFoundTold, IsReachIn, IsReachTold, reach_text};

use crate::finding::{Found, find, has_absent, has_undecided};
use crate::graph::push_graph;
use crate::telling::push_all;
use aa_decide::IndexedSlots;
use aa_profile_parsing::Language;
use aa_start::FileSystem;
use aatry_arguments::{Asking, Reach};
use aatry_claims::{PathsReport, slices_of};
use aatry_folder::{Fault, Folders, PolicyFolder, Report, failed_by, policy_below};
use aatry_policy::{LoadedFolder, load_folder};
use aatry_report::{Form, Teller};
use std::alloc::AllocError;

/// How it is asked and told.
#[derive(Clone, Copy)]
pub struct How {
    /// Whether lines are to be a graph.
    pub dot: bool,
    /// How many sets of states are to be looked at, at most, for each who starts programs.
    pub limit: usize,
}

/// What it came to.
#[derive(Clone, Copy)]
pub struct Outcome {
    /// Whether nobody has one of the names.
    pub absent: bool,
    /// Whether it isn't known of somebody where all lead that are reached.
    pub undecided: bool,
}

// Appends what is told of all that is found to a text.
fn push_found(
    teller: Teller,
    dot: bool,
    slots: &IndexedSlots<'_>,
    found: &[Found<'_, '_>],
    out: &mut Vec<u8>,
) -> Result<(), AllocError>
    ensures { OnOk result (out.new.items ≡ out.old.items ++ reach_text teller.form dot slots.now (map seen_found found.now)) }
{
    match (teller.form, dot) {
        (Form::Lines, true) => push_graph(teller.alloc, slots, found, out),
        (Form::Lines, false) => push_all(teller, slots, found, out),
        (Form::Records, _) => push_all(teller, slots, found, out),
    }
}

// Finds it by what is loaded of a folder, and appends what is told of it to a text.
fn tell(
    teller: Teller,
    how: How,
    loaded: &LoadedFolder<'_>,
    names: &[&[u8]],
    out: &mut Vec<u8>,
) -> Result<Outcome, AllocError>
    requires { loaded.now.policy.manager ≡ loaded_in (seen_folder loaded.now.folder.now) }
    ensures { IfOk result (λ told. IsFoundTold teller.form how.dot how.limit (policy_in (seen_folder loaded.now.folder.now)) (map (λ name. name.now) names.now)
        out.old.items out.new.items told.absent told.undecided) }
{
    let set = loaded.policy.manager.policy_set();
    let slots = set.slots();
    let found = find(teller.alloc, &slots, names, how.limit)?;
    push_found(teller, how.dot, &slots, &found, out)?;
    Ok(Outcome {
        absent: has_absent(&found),
        undecided: has_undecided(&found),
    })
}

// The same of a folder that was read, by words.
fn told_of(
    teller: Teller,
    how: How,
    folder: &PolicyFolder<'_>,
    words: &[String],
) -> Result<PathsReport, AllocError>
    ensures { IfOk result (λ told. IsReachIn teller.form teller.verbose how.dot how.limit (map string_bytes words.now) (seen_folder folder.now) (seen_paths_report told)) }
{
    let names = slices_of(teller.alloc, words)?;
    let mut report = Report::new(teller.alloc);
    let loaded = load_folder(teller, folder, &mut report)?;
    let told = tell(teller, how, &loaded, &names, &mut report.text)?;
    report.failed = failed_by(!told.absent);
    Ok(PathsReport {
        report,
        undecided: told.undecided,
    })
}

/// Under which profiles, children and hats of a folder, read by a language, programs may run that are started by those whom words name, and those that these start in
/// turn, of all paths there are (`aa_explain_reach::reachable_profiles`). Reads the folder as `aatry_folder::policy_below` does. First come the files that are
/// left out, where they are told, and it is noted how many they are (`aatry_policy::load_folder`). Then come those who were named, in the order of the words,
/// each with the places that are reached (`push_all`), or as a graph, where that is asked for in lines (`push_graph`). The word `unconfined` names a task that
/// nothing confines. One failed where nobody has a name; and it is undecided where the paths of somebody are too many.
///
/// # Errors
///
/// - `Unreadable` with the first folder or file that can't be read.
/// - `TooMany` where there are more than 65,536 files and folders.
/// - `NoMemory` where memory ran out.
pub fn reach_folder<F: Folders, D: FileSystem>(
    teller: Teller,
    language: Language,
    folders: &F,
    disk: &D,
    asked: Reach,
) -> Result<PathsReport, Fault>
    ensures told { IfOk result (λ told. IsReachTold teller.form teller.verbose language (F.told folders.now) (D.known disk.now) (meant_reach asked) (seen_paths_report told)) }
    ensures fault { IfErr result (IsEndOfReach (F.told folders.now) (meant_reach asked)) }
{
    let Reach { asking, dot, limit } = asked;
    let Asking { base, words } = asking;
    let folder = policy_below(teller.alloc, language, folders, disk, base.as_str())?;
    Ok(told_of(teller, How { dot, limit }, &folder, &words)?)
}
