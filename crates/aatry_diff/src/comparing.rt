//! Two folders of policy, compared by their profiles and by their answers.

ghost use Rattle.std.specs.Prelude.{◌≡◌, ◌++◌, ◌&&◌, IfOk, OnOk, option_map};
ghost use Rattle.aa_bytes.specs.Texts.{is_empty};
ghost use Rattle.aatry_changes.specs.PartChanges.{changed_count};
ghost use Rattle.aatry_diff.specs.Comparing.{diff_notes, diff_text, is_unchanged, parts_text};
ghost use Rattle.aatry_diff.specs.Folders.{both_loaded, newly_loaded, seen_folders};
ghost use Rattle.aatry_diff.specs.NewlyLeftOut.{newly_lines};
ghost use Rattle.aatry_diff.specs.SeenDifferences.{seen_differences};
ghost use Rattle.aatry_diff.specs.Sources.{differences_of, seen_source};
ghost use Rattle.aatry_diff.specs.code.Steps.{compared_text, nothing_differs};
ghost use Rattle.aatry_folder.specs.Reports.{failed_by};
ghost use Rattle.aatry_policy.specs.FolderParts.{seen_folder as seen_parts};
ghost use Rattle.aatry_policy.specs.Folders.{seen_folder};
ghost use Rattle.aatry_requests.specs.Gathering.{seen_requests};
ghost use Rattle.aatry_uncertain.specs.LeftOutHeads.{heads_loaded};
ghost use Rattle.aatry_uncertain.specs.SeenHeads.{all_left_out};

use crate::asked::{Asked, differences_of, push_asked, requests_of};
use crate::folders::BothFolders;
use crate::newly::push_newly;
use aatry_changes::{Compared, push_changes, push_stat};
use aatry_folder::{PolicyFolder, Report, failed_by};
use aatry_policy::{LoadedFolder, by_parts, load_folder, parts_of};
use aatry_report::Teller;
use aatry_requests::{Requests, Source};
use aatry_uncertain::{LeftOutHeads, heads_left_out};
use std::alloc::{AllocError, Global};

// Appends how much of each profile, child and hat differs to a text, if only counts are reported, and else what differs; returns in how many
// something does.
fn push_parts(
    teller: Teller,
    stat: bool,
    compared: &Compared<'_>,
    out: &mut Vec<u8>,
) -> Result<usize, AllocError>
    ensures told { OnOk result (out.new.items ≡ out.old.items ++ parts_text teller.form stat (all_left_out compared.now.left_out.now.heads.items)
        (seen_parts compared.now.old.now) (seen_parts compared.now.new.now)) }
    ensures count { IfOk result (λ count. count ≡ changed_count (seen_parts compared.now.old.now) (seen_parts compared.now.new.now)) }
{
    if stat {
        push_stat(teller, compared, out)
    } else {
        push_changes(teller, compared, out)
    }
}

// Appends the report on how two folders differ to a text, by what they are asked and which answers differ, and returns whether nothing does.
#[tactic(auto, unfolding(crate::specs::code::Steps::compared_text))]
fn push_compared(
    teller: Teller,
    stat: bool,
    left_out: &LeftOutHeads<'_>,
    folders: &BothFolders<'_>,
    asked: &Asked<'_>,
    out: &mut Vec<u8>,
) -> Result<bool, AllocError>
    ensures alike { IfOk result (λ alike. alike ≡ nothing_differs (seen_folders folders.now) (seen_differences asked.now.differences.now)) }
    ensures told { OnOk result (out.new.items ≡ out.old.items
        ++ compared_text teller.form stat (all_left_out left_out.now.heads.items) (seen_folders folders.now) (option_map seen_requests asked.now.requests.now)
        (seen_differences asked.now.differences.now)) }
{
    let compared = Compared {
        old: &folders.old,
        new: &folders.new,
        left_out,
    };
    let changed = push_parts(teller, stat, &compared, out)?;
    push_asked(teller, stat, folders, asked, out)?;
    Ok(changed == 0 && asked.differences.is_empty())
}

// Appends the report on how two folders differ to a text, with what can be read of the files that are left out of the new folder.
fn push_with_left_out(
    teller: Teller,
    stat: bool,
    new: &LoadedFolder<'_>,
    folders: &BothFolders<'_>,
    asked: &Asked<'_>,
    out: &mut Vec<u8>,
) -> Result<bool, AllocError>
    ensures alike { IfOk result (λ alike. alike ≡ nothing_differs (seen_folders folders.now) (seen_differences asked.now.differences.now)) }
    ensures told { OnOk result (out.new.items ≡ out.old.items
        ++ compared_text teller.form stat (heads_loaded new.now) (seen_folders folders.now) (option_map seen_requests asked.now.requests.now)
        (seen_differences asked.now.differences.now)) }
{
    let left_out = heads_left_out(teller.alloc, new)?;
    push_compared(teller, stat, &left_out, folders, asked, out)
}

// Appends the report on how two loaded folders differ to a text.
fn push_loaded(
    teller: Teller,
    stat: bool,
    old: &LoadedFolder<'_>,
    new: &LoadedFolder<'_>,
    asked: &Asked<'_>,
    out: &mut Vec<u8>,
) -> Result<bool, AllocError>
    ensures alike { IfOk result (λ alike. alike ≡ nothing_differs (both_loaded old.now new.now) (seen_differences asked.now.differences.now)) }
    ensures told { OnOk result (out.new.items ≡ out.old.items
        ++ compared_text teller.form stat (heads_loaded new.now) (both_loaded old.now new.now) (option_map seen_requests asked.now.requests.now)
        (seen_differences asked.now.differences.now)) }
{
    let old_set = old.policy.manager.policy_set();
    let new_set = new.policy.manager.policy_set();
    let old_parts = parts_of(teller.alloc, &old_set, &old.policy.origins)?;
    let new_parts = parts_of(teller.alloc, &new_set, &new.policy.origins)?;
    let folders = BothFolders {
        old: by_parts(old.folder, &old_parts),
        new: by_parts(new.folder, &new_parts),
    };
    push_with_left_out(teller, stat, new, &folders, asked, out)
}

// Appends the report on how two loaded folders differ to a text, by requests: these are asked first, and then the differences are appended.
fn push_both(
    teller: Teller,
    stat: bool,
    old: &mut LoadedFolder<'_>,
    new: &mut LoadedFolder<'_>,
    requests: &Option<Requests<'_>>,
    out: &mut Vec<u8>,
) -> Result<bool, AllocError>
    ensures alike { IfOk result (λ alike. alike ≡ nothing_differs (both_loaded old.old new.old)
        (differences_of old.old.policy.manager.machine.now new.old.policy.manager.machine.now (option_map seen_requests requests.now))) }
    ensures told { OnOk result (out.new.items ≡ out.old.items
        ++ compared_text teller.form stat (heads_loaded new.old) (both_loaded old.old new.old) (option_map seen_requests requests.now)
        (differences_of old.old.policy.manager.machine.now new.old.policy.manager.machine.now (option_map seen_requests requests.now))) }
{
    let differences = differences_of(
        teller.alloc,
        &mut old.policy.manager,
        &mut new.policy.manager,
        requests,
    )?;
    let asked = Asked {
        requests,
        differences: &differences,
    };
    push_loaded(teller, stat, old, new, &asked, out)
}

// Appends the report on how two loaded folders differ to a text, after the newly left-out files; returns whether there are none, and nothing
// differs.
fn push_all(
    teller: Teller,
    stat: bool,
    old: &mut LoadedFolder<'_>,
    new: &mut LoadedFolder<'_>,
    requests: &Option<Requests<'_>>,
    out: &mut Vec<u8>,
) -> Result<bool, AllocError>
    ensures unchanged { IfOk result (λ unchanged. unchanged ≡ (is_empty (newly_loaded old.old new.old)
        && nothing_differs (both_loaded old.old new.old)
        (differences_of old.old.policy.manager.machine.now new.old.policy.manager.machine.now (option_map seen_requests requests.now)))) }
    ensures told { OnOk result (out.new.items ≡ out.old.items
        ++ (newly_lines teller.form (seen_folder new.old.folder.now) (newly_loaded old.old new.old)
        ++ compared_text teller.form stat (heads_loaded new.old) (both_loaded old.old new.old) (option_map seen_requests requests.now)
        (differences_of old.old.policy.manager.machine.now new.old.policy.manager.machine.now (option_map seen_requests requests.now)))) }
{
    let none = push_newly(teller, old, new, out)?;
    let alike = push_both(teller, stat, old, new, requests, out)?;
    Ok(none && alike)
}

// The report on how two folders of policy differ, by requests, if there are some.
fn compare(
    teller: Teller,
    stat: bool,
    old: &PolicyFolder<'_>,
    new: &PolicyFolder<'_>,
    requests: &Option<Requests<'_>>,
) -> Result<Report, AllocError>
    ensures told { IfOk result (λ report.
        report.text.items ≡ diff_text teller.form teller.verbose stat (seen_folder old.now) (seen_folder new.now) (option_map seen_requests requests.now)) }
    ensures noted { IfOk result (λ report. report.notes.items ≡ diff_notes (seen_folder old.now) (seen_folder new.now)) }
    ensures failed { IfOk result (λ report.
        report.failed ≡ failed_by (is_unchanged (seen_folder old.now) (seen_folder new.now) (option_map seen_requests requests.now))) }
{
    let mut report = Report::new(teller.alloc);
    let mut before = load_folder(teller, old, &mut report)?;
    let mut after = load_folder(teller, new, &mut report)?;
    let unchanged = push_all(
        teller,
        stat,
        &mut before,
        &mut after,
        requests,
        &mut report.text,
    )?;
    report.failed = failed_by(unchanged);
    Ok(report)
}

/// The report on how two folders of policy that were read differ, in a form. First come the files of either that are left out, where these are
/// reported, and it is noted how many they are (`aatry_policy::load_folder`). Then come those that are left out of the new one and not of the old
/// one, by their names (`push_newly`); the profiles, children and hats that are gone, unread, changed or new, with their differences
/// (`aatry_changes::push_changes`), or with how much differs, if only counts are reported (`stat`; `aatry_changes::push_stat`); and where a log or a
/// file of questions is given, by its kind and its bytes, the answers that differ (`push_differences`), unless `stat` is set, and the summary
/// (`push_summary`). One failed where something differs, a profile, child or hat, or an answer; or where a file is newly left out, of which nothing
/// is known. Each file of the folders is read once.
///
/// # Errors
///
/// Where memory runs out.
pub fn diff(
    teller: Teller,
    stat: bool,
    old: &PolicyFolder<'_>,
    new: &PolicyFolder<'_>,
    source: Option<(Source, &[u8])>,
) -> Result<Report, AllocError>
    ensures told { IfOk result (λ report.
        report.text.items ≡ diff_text teller.form teller.verbose stat (seen_folder old.now) (seen_folder new.now) (seen_source source.entry)) }
    ensures noted { IfOk result (λ report. report.notes.items ≡ diff_notes (seen_folder old.now) (seen_folder new.now)) }
    ensures failed { IfOk result (λ report.
        report.failed ≡ failed_by (is_unchanged (seen_folder old.now) (seen_folder new.now) (seen_source source.entry))) }
{
    let requests = requests_of(teller.alloc, source)?;
    compare(teller, stat, old, new, &requests)
}
