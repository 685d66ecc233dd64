//! Two folders of policy on a disk, compared for all paths.

ghost use Rattle.std.specs.Prelude.{◌≡◌, ◌++◌, IfErr, IfOk, OnOk, map, string_bytes};
ghost use Rattle.aa_decide_ready.specs.Slots.{filled};
ghost use Rattle.aatry_arguments.specs.Given.{meant_path_comparison};
ghost use Rattle.aatry_diff_paths.specs.Below.{ArePathsCompared, IsCompared, IsEndOfPathComparison, IsFoundTold, compared_text, seen_how, seen_loaded};
ghost use Rattle.aatry_path_changes.specs.Finding.{seen_found};
ghost use Rattle.aatry_claims.specs.Never.{seen_paths_report};
ghost use Rattle.aatry_policy.specs.FolderParts.{seen_folder as seen_parts};
ghost use Rattle.aatry_policy.specs.Folders.{seen_folder};
ghost use Rattle.aatry_uncertain.specs.LeftOutHeads.{heads_loaded};
ghost use Rattle.aatry_uncertain.specs.SeenHeads.{all_left_out};

use crate::summary::push_summary;
use crate::telling::{How, push_all};
use aa_profile_parsing::Language;
use aa_start::FileSystem;
use aatry_arguments::PathComparison;
use aatry_changes::Compared;
use aatry_claims::{PathsReport, slices_of};
use aatry_folder::{Fault, Folders, PolicyFolder, Report, failed_by, policy_below};
use aatry_path_changes::{
    Found, Policies, Question, find_asked, has_otherwise, has_undecided, kinds_of,
};
use aatry_policy::{FolderParts, LoadedFolder, by_parts, load_folder, parts_of};
use aatry_report::Teller;
use aatry_uncertain::{LeftOutHeads, heads_left_out};
use std::alloc::AllocError;

/// How two folders are compared.
#[derive(Clone, Copy)]
pub struct Asked {
    /// How what is found is told.
    pub how: How,
    /// How many sets of states are looked at, at most, for each profile, child or hat.
    pub limit: usize,
}

/// Two folders of policy, by their profiles, children and hats.
#[derive(Clone, Copy)]
pub struct BothFolders<'a> {
    /// The old one.
    pub old: FolderParts<'a>,
    /// The new one.
    pub new: FolderParts<'a>,
}

/// What a comparison came to.
#[derive(Clone, Copy)]
pub struct Outcome {
    /// Whether it is known that something differs of somebody.
    pub otherwise: bool,
    /// Whether nothing is known of the paths of somebody.
    pub undecided: bool,
}

// Appends what is told of all that is found to a text, and what sums up.
#[tactic(auto, unfolding(crate::specs::Below::compared_text))]
fn push_found(
    teller: Teller,
    asked: Asked,
    compared: &Compared<'_>,
    found: &[Found<'_>],
    out: &mut Vec<u8>,
) -> Result<(), AllocError>
    ensures { OnOk result (out.new.items ≡ out.old.items ++ compared_text teller.form (seen_how asked) (all_left_out compared.now.left_out.now.heads.items)
        (seen_parts compared.now.old.now) (seen_parts compared.now.new.now) (map seen_found found.now)) }
{
    let kinds = kinds_of(teller.alloc, found)?;
    push_all(teller, asked.how, compared, found, out)?;
    push_summary(teller, &kinds, out)
}

// Compares two folders for those whom words name, or for all, and appends what is told of that to a text.
fn tell_parts(
    teller: Teller,
    asked: Asked,
    policies: Policies<'_>,
    compared: &Compared<'_>,
    who: &[&[u8]],
    out: &mut Vec<u8>,
) -> Result<Outcome, AllocError>
    ensures { IfOk result (λ told. IsFoundTold teller.form (seen_how asked) (all_left_out compared.now.left_out.now.heads.items)
        (seen_parts compared.now.old.now) (seen_parts compared.now.new.now) (filled policies.entry.old.now) (filled policies.entry.new.now)
        (map (λ name. name.now) who.now) out.old.items out.new.items told.otherwise told.undecided) }
{
    let question = Question {
        old: compared.old,
        new: compared.new,
        policies,
        quiet: asked.how.quiet,
        limit: asked.limit,
    };
    let found = find_asked(teller.alloc, question, who)?;
    push_found(teller, asked, compared, &found, out)?;
    Ok(Outcome {
        otherwise: has_otherwise(&found),
        undecided: has_undecided(&found),
    })
}

// The same by the parts of both, and what can be read of the files that are left out of the new one.
fn tell_both(
    teller: Teller,
    asked: Asked,
    policies: Policies<'_>,
    left_out: &LeftOutHeads<'_>,
    folders: &BothFolders<'_>,
    who: &[&[u8]],
    out: &mut Vec<u8>,
) -> Result<Outcome, AllocError>
    ensures { IfOk result (λ told. IsFoundTold teller.form (seen_how asked) (all_left_out left_out.now.heads.items)
        (seen_parts folders.now.old) (seen_parts folders.now.new) (filled policies.entry.old.now) (filled policies.entry.new.now)
        (map (λ name. name.now) who.now) out.old.items out.new.items told.otherwise told.undecided) }
{
    let compared = Compared {
        old: &folders.old,
        new: &folders.new,
        left_out,
    };
    tell_parts(teller, asked, policies, &compared, who, out)
}

// The same by the parts of both, and the new one as it is loaded.
fn tell_with_left_out(
    teller: Teller,
    asked: Asked,
    policies: Policies<'_>,
    new: &LoadedFolder<'_>,
    folders: &BothFolders<'_>,
    who: &[&[u8]],
    out: &mut Vec<u8>,
) -> Result<Outcome, AllocError>
    ensures { IfOk result (λ told. IsFoundTold teller.form (seen_how asked) (heads_loaded new.now)
        (seen_parts folders.now.old) (seen_parts folders.now.new) (filled policies.entry.old.now) (filled policies.entry.new.now)
        (map (λ name. name.now) who.now) out.old.items out.new.items told.otherwise told.undecided) }
{
    let left_out = heads_left_out(teller.alloc, new)?;
    tell_both(teller, asked, policies, &left_out, folders, who, out)
}

// The same of folders that are loaded.
fn tell_loaded(
    teller: Teller,
    asked: Asked,
    old: &LoadedFolder<'_>,
    new: &LoadedFolder<'_>,
    who: &[&[u8]],
    out: &mut Vec<u8>,
) -> Result<Outcome, AllocError>
    ensures { IfOk result (λ told. IsFoundTold teller.form (seen_how asked) (heads_loaded new.now)
        (seen_loaded old.now) (seen_loaded new.now) old.now.policy.manager.machine.now new.now.policy.manager.machine.now
        (map (λ name. name.now) who.now) out.old.items out.new.items told.otherwise told.undecided) }
{
    let old_set = old.policy.manager.policy_set();
    let new_set = new.policy.manager.policy_set();
    let old_parts = parts_of(teller.alloc, &old_set, &old.policy.origins)?;
    let new_parts = parts_of(teller.alloc, &new_set, &new.policy.origins)?;
    let folders = BothFolders {
        old: by_parts(old.folder, &old_parts),
        new: by_parts(new.folder, &new_parts),
    };
    let policies = Policies {
        old: &old_set.slots(),
        new: &new_set.slots(),
    };
    tell_with_left_out(teller, asked, policies, new, &folders, who, out)
}

// The same of folders that were read.
fn compare(
    teller: Teller,
    asked: Asked,
    old: &PolicyFolder<'_>,
    new: &PolicyFolder<'_>,
    who: &[String],
) -> Result<PathsReport, AllocError>
    ensures { IfOk result (λ told. IsCompared teller.form teller.verbose (seen_how asked) (map string_bytes who.now) (seen_folder old.now) (seen_folder new.now)
        (seen_paths_report told)) }
{
    let slices = slices_of(teller.alloc, who)?;
    let mut report = Report::new(teller.alloc);
    let before = load_folder(teller, old, &mut report)?;
    let after = load_folder(teller, new, &mut report)?;
    let told = tell_loaded(teller, asked, &before, &after, &slices, &mut report.text)?;
    report.failed = failed_by(!told.otherwise);
    Ok(PathsReport {
        report,
        undecided: told.undecided,
    })
}

/// Compares two folders of policy, both by one language, for all paths, capabilities, sockets and starts of programs: reads each folder as `aatry_folder::policy_below` does. Told
/// are the files of either that are left out, where they are told, with a note on how many they are; then the profiles, children and hats of which
/// something is answered otherwise, and those that one folder alone has; and what sums up. Where words name some, these alone are compared.
///
/// Of somebody whom both folders have it is told in a word whether something is allowed now that wasn't, and something isn't any more (`wider`, `narrower`,
/// `both`), or whether answers change otherwise alone (`otherwise`), and below that by what: the mode, rules on files that one side alone has, each with a
/// shortest path on which answers change that it takes part in (`aa_explain_changes::changes_of_files`), capabilities, sockets, and starts of programs that lead elsewhere, each side in its own mode
/// (`aa_explain_start_changes::start_changes`). Rules are asked as in enforce mode, and a mode that lets more through is wider. One failed where something differs of somebody, or nobody has a name; and it is undecided where paths are too
/// many of somebody.
///
/// # Errors
///
/// - `Unreadable` with the first folder or file below the old folder that can't be read, or else below the new one.
/// - `TooMany` where there are more than 65,536 files and folders below one of them.
/// - `NoMemory` where memory ran out.
pub fn diff_paths_folders<F: Folders, D: FileSystem>(
    teller: Teller,
    language: Language,
    folders: &F,
    disk: &D,
    asked: PathComparison,
) -> Result<PathsReport, Fault>
    ensures told { IfOk result (λ told. ArePathsCompared teller.form teller.verbose language (F.told folders.now) (D.known disk.now)
        (meant_path_comparison asked) (seen_paths_report told)) }
    ensures fault { IfErr result (IsEndOfPathComparison (F.told folders.now) (meant_path_comparison asked)) }
{
    let PathComparison {
        old,
        new,
        who,
        stat,
        quiet_audit,
        limit,
    } = asked;
    let asked = Asked {
        how: How {
            stat,
            quiet: quiet_audit,
        },
        limit,
    };
    let before = policy_below(teller.alloc, language, folders, disk, old.as_str())?;
    let after = policy_below(teller.alloc, language, folders, disk, new.as_str())?;
    Ok(compare(teller, asked, &before, &after, &who)?)
}
