//! The check of the rules of a folder of policy on disk.

ghost use Rattle.std.specs.Prelude.{◌≡◌, ◌++◌, IfErr, IfOk, OnOk, map, string_bytes};
ghost use Rattle.aatry_arguments.specs.Given.{meant_check};
ghost use Rattle.aatry_check_rules.specs.Below.{AreAllFound, AreFolderRulesTold, AreRulesChecked, AreRulesIn, AreRulesTold, IsEndOfRules, checked_text, has_fault, is_undecided, seen_loaded, unattached_in};
ghost use Rattle.aatry_check_rules.specs.SeenChecked.{seen_all, seen_checked};
ghost use Rattle.aatry_claims.specs.Never.{seen_paths_report};
ghost use Rattle.aatry_policy.specs.Folders.{seen_folder};

use crate::finding::{Found, Question, find, has_absent, some_many, some_told};
use crate::summary::push_summary;
use crate::telling::{push_absents, push_all};
use crate::trying::Which;
use crate::unattached::{find_unattached, is_too_many, unattached_count};
use crate::unattached_told::push_unattached;
use aa_decide_ready::IndexedSlots;
use aa_profile_parsing::Language;
use aa_start::FileSystem;
use aatry_arguments::Check;
use aatry_claims::{PathsReport, slices_of};
use aatry_folder::{Fault, Folders, PolicyFolder, Report, failed_by, policy_below};
use aatry_policy::{FolderParts, LoadedFolder, Origin, by_parts, load_folder, parts_of};
use aatry_report::Teller;
use std::alloc::{AllocError, Global};

/// Which written rules are tried, and how far.
#[derive(Clone, Copy)]
pub struct RulesHow {
    /// Whether rules of included files are tried, too.
    pub included: bool,
    /// How many sets of states are looked at, at most, for each profile, child or hat.
    pub limit: usize,
}

/// The outcome of a check.
#[derive(Clone, Copy)]
pub struct Outcome {
    /// Whether some written rule decides nothing, no path is attached to some profile, or a named file doesn't exist.
    pub faulty: bool,
    /// Whether some part has too many paths, or the attachments have.
    pub undecided: bool,
}

/// A folder by its parts, with the slots of its policy set, and where each profile of that was read.
#[derive(Clone, Copy)]
pub struct Checked<'a> {
    /// The folder by its parts.
    pub folder: FolderParts<'a>,
    /// The slots of its policy set.
    pub slots: &'a IndexedSlots<'a>,
    /// Where each profile was read.
    pub origins: &'a [Origin],
}

/// What is found of a folder.
#[derive(Drop)]
pub struct AllFound<'a> {
    /// What is found of the parts that are asked about.
    pub found: Vec<Found<'a>>,
    /// The slots of profiles that no path is attached to; `None`, where there are too many paths.
    pub unattached: Option<Vec<usize>>,
}

// What is found of a folder.
fn find_all<'a>(
    alloc: Global,
    how: RulesHow,
    checked: Checked<'a>,
    names: &[&[u8]],
) -> Result<AllFound<'a>, AllocError>
    ensures { IfOk result (λ all. AreAllFound how (seen_checked checked.entry) (map (λ name. name.now) names.now) (seen_all all)) }
{
    let question = Question {
        which: Which {
            included: how.included,
            files: checked.folder.below.files,
        },
        limit: how.limit,
    };
    let found = find(alloc, question, names, checked.folder.parts)?;
    let unattached = find_unattached(alloc, checked.slots, checked.origins, names, how.limit)?;
    Ok(AllFound { found, unattached })
}

// How many of the profiles that no path is attached to are asked about.
fn unattached_in(checked: Checked<'_>, names: &[&[u8]], all: &AllFound<'_>) -> usize
    ensures { result ≡ unattached_in (seen_checked checked.entry) (map (λ name. name.now) names.now) (seen_all all.now) }
{
    unattached_count(
        checked.slots.as_slice(),
        checked.origins,
        names,
        &all.unattached,
    )
}

// Appends the report on all that is found to a text, and the summary.
fn push_found(
    teller: Teller,
    checked: Checked<'_>,
    names: &[&[u8]],
    all: &AllFound<'_>,
    out: &mut Vec<u8>,
) -> Result<(), AllocError>
    ensures { OnOk result (out.new.items ≡ out.old.items
        ++ checked_text teller.form (seen_checked checked.entry) (map (λ name. name.now) names.now) (seen_all all.now)) }
{
    let Checked {
        folder,
        slots,
        origins,
    } = checked;
    push_all(teller, folder.below, &all.found, out)?;
    push_unattached(
        teller,
        folder.below,
        slots.as_slice(),
        origins,
        names,
        &all.unattached,
        out,
    )?;
    push_absents(teller, folder.parts, names, out)?;
    let unattached = unattached_in(checked, names, all);
    push_summary(teller, folder.parts, names, &all.found, unattached, out)
}

// Whether something is at fault.
fn has_fault(checked: Checked<'_>, names: &[&[u8]], all: &AllFound<'_>) -> bool
    ensures { result ≡ has_fault (seen_checked checked.entry) (map (λ name. name.now) names.now) (seen_all all.now) }
{
    some_told(&all.found)
        || unattached_in(checked, names, all) != 0
        || has_absent(checked.folder.parts, names)
}

// Whether something isn't known.
fn is_undecided(all: &AllFound<'_>) -> bool
    ensures { result ≡ is_undecided (seen_all all.now) }
{
    some_many(&all.found) || is_too_many(&all.unattached)
}

// Checks the rules of a folder by its parts, and appends the report to a text.
fn tell_parts(
    teller: Teller,
    how: RulesHow,
    checked: Checked<'_>,
    names: &[&[u8]],
    out: &mut Vec<u8>,
) -> Result<Outcome, AllocError>
    ensures { IfOk result (λ told. AreRulesTold teller.form how (seen_checked checked.entry) (map (λ name. name.now) names.now)
        out.old.items out.new.items told.faulty told.undecided) }
{
    let all = find_all(teller.alloc, how, checked, names)?;
    push_found(teller, checked, names, &all, out)?;
    Ok(Outcome {
        faulty: has_fault(checked, names, &all),
        undecided: is_undecided(&all),
    })
}

// Checks the rules of a loaded folder, and appends the report to a text.
fn tell_loaded(
    teller: Teller,
    how: RulesHow,
    loaded: &LoadedFolder<'_>,
    names: &[&[u8]],
    out: &mut Vec<u8>,
) -> Result<Outcome, AllocError>
    ensures { IfOk result (λ told. AreFolderRulesTold teller.form how (seen_loaded loaded.now) loaded.now.policy.manager.machine.now loaded.now.policy.origins.items
        (map (λ name. name.now) names.now) out.old.items out.new.items told.faulty told.undecided) }
{
    let set = loaded.policy.manager.policy_set();
    let slots = set.slots();
    let parts = parts_of(teller.alloc, &set, &loaded.policy.origins)?;
    let checked = Checked {
        folder: by_parts(loaded.folder, &parts),
        slots: &slots,
        origins: &loaded.policy.origins,
    };
    let told = tell_parts(teller, how, checked, names, out)?;
    Ok(told)
}

// Checks the rules of a folder that was read.
fn check_read(
    teller: Teller,
    how: RulesHow,
    folder: &PolicyFolder<'_>,
    names: &[String],
) -> Result<PathsReport, AllocError>
    ensures { IfOk result (λ told. AreRulesIn teller.form teller.verbose how (map string_bytes names.now) (seen_folder folder.now) (seen_paths_report told)) }
{
    let slices = slices_of(teller.alloc, names)?;
    let mut report = Report::new(teller.alloc);
    let loaded = load_folder(teller, folder, &mut report)?;
    let told = tell_loaded(teller, how, &loaded, &slices, &mut report.text)?;
    report.failed = failed_by(!told.faulty);
    Ok(PathsReport {
        report,
        undecided: told.undecided,
    })
}

/// Checks the rules of a folder of policy, by a language: reports the written rules on files that decide nothing, by the profiles, children and hats
/// that have them. The folder is read as by `aatry_folder::policy_below`. The report has the files that are left out, where these are reported,
/// with a note on how many they are; then the parts with such rules; and a summary. Where files are named, only the parts of these are looked at; a
/// name of which no part is, since there is no such file at the top of the folder, or it is left out, or has no profile, is reported as `absent`.
///
/// A written rule decides nothing where without it, and without those that are reported beside it, all answers on each path that the kernel may ask
/// about stay the same (`aa_explain_redundant::redundant_rules`): so all that are reported of a part can be taken away together. The rules of the
/// part's own file are tried, and, if `how` says so, those of included files, too; of two equal ones the later is reported. Of each a shortest path
/// is reported that it matches, and the rules that stay and cover something there that it covers. In parts in mode unconfined, or disabled, no rule
/// decides, and none is tried.
///
/// One failed where some rule decides nothing, or a named file doesn't exist; and it is undecided where some part has too many paths.
///
/// # Errors
///
/// - `Unreadable` with the first folder or file below the folder that can't be read.
/// - `TooMany` where there are more than 65,536 files and folders below it.
/// - `NoMemory` where memory ran out.
pub fn check_rules_folder<F: Folders, D: FileSystem>(
    teller: Teller,
    language: Language,
    folders: &F,
    disk: &D,
    check: Check,
    how: RulesHow,
) -> Result<PathsReport, Fault>
    ensures told { IfOk result (λ told. AreRulesChecked teller.form teller.verbose language (F.told folders.now) (D.known disk.now)
        (meant_check check) how (seen_paths_report told)) }
    ensures fault { IfErr result (IsEndOfRules (F.told folders.now) (meant_check check)) }
{
    let Check { base, names } = check;
    let folder = policy_below(teller.alloc, language, folders, disk, base.as_str())?;
    Ok(check_read(teller, how, &folder, &names)?)
}
