//! What holds of the report on two folders, as laws over the definitions that the calls are proved to follow.

ghost use Rattle.std.specs.Prelude.{◌≡◌, ◌==◌, ◌&&◌, List, Option, length, true};
ghost use Rattle.std.specs.List.{Contains};
ghost use Rattle.aa_bytes.specs.Texts.{is_empty};
ghost use Rattle.aa_decide_ready.specs.Entries.{Loaded};
ghost use Rattle.aatry_changes.specs.Changes.{change_lines};
ghost use Rattle.aatry_changes.specs.Laws.{HasAnsweringAlike};
ghost use Rattle.aatry_diff.specs.Comparing.{are_alike, both};
ghost use Rattle.aatry_diff.specs.Differences.{difference_lines};
ghost use Rattle.aatry_diff.specs.Differing.{differing};
ghost use Rattle.aatry_diff.specs.Folders.{BothFolders};
ghost use Rattle.aatry_diff.specs.Sources.{differences_text};
ghost use Rattle.aatry_policy.specs.Folders.{Folder, policy_in};
ghost use Rattle.aatry_policy.specs.FolderParts.{by_parts, parts_in};
ghost use Rattle.aatry_policy.specs.Parts.{Part};
ghost use Rattle.aatry_report.specs.declared.form.Form.{Form};
ghost use Rattle.aatry_requests.specs.Gathering.{Gathered};
ghost use Rattle.aatry_requests.specs.Tallies.{Tally};
ghost use Rattle.aatry_uncertain.specs.LeftOutHeads.{heads_left_out};

use aatry_changes::{what_is_counted_is_told, what_is_not_told_answers_alike};

/// A question is reported, in either form, exactly where two policy sets answer it differently.
pub fn what_differs_is_told()
    ensures { (form : Form) (folders : BothFolders) (old new : List Loaded) (tallies : List Tally)
        → is_empty (difference_lines form folders old new tallies) ≡ (length (differing old new tallies) == 0) }
{}

/// Two folders are alike, by which `aatry diff` has its exit status unless a file is newly left out, exactly where the report on them has nothing
/// but the files that are left out and the summary: no profile, child or hat, and no question.
pub fn what_is_alike_is_not_told()
    ensures { (form : Form) (old new : Folder) (requests : Option Gathered)
        → are_alike old new requests
        ≡ (is_empty (change_lines form (heads_left_out new) (by_parts old) (by_parts new))
        && is_empty (differences_text form (both old new) (policy_in old) (policy_in new) requests)) }
{
    what_is_counted_is_told();
    what_differs_is_told();
}

/// So where two folders are alike, each profile, child and hat of the old one has one of its full name in the new one that decides as it does,
/// whatever is asked: it is in the same mode, no verdict differs, and no line that logs one; and their rules say the same together of the start of a
/// program.
pub fn what_alike_folders_answer()
    ensures { (old new : Folder) (requests : Option Gathered) (part : Part)
        → are_alike old new requests ≡ true
        → Contains (parts_in old) part
        → HasAnsweringAlike (parts_in new) part }
{
    what_is_alike_is_not_told();
    what_is_not_told_answers_alike();
}
