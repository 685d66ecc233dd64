//! What holds of the report on two folders, as laws over the definitions that the calls are proved to follow.

ghost use Rattle.std.specs.Prelude.{◌≡◌, ◌==◌, ℕ, List, [], not, true};
ghost use Rattle.std.specs.List.{Contains};
ghost use Rattle.aa_bytes.specs.Texts.{is_empty};
ghost use Rattle.aa_explain_diff.specs.Features.{Feature};
ghost use Rattle.aatry_changes.specs.Changes.{change_lines};
ghost use Rattle.aatry_changes.specs.Folded.{all_havings, groups_of, is_own, own_features};
ghost use Rattle.aatry_changes.specs.Laws.{HasAlike, HasAnsweringAlike, HaveAlike, IsTold};
ghost use Rattle.aatry_changes.specs.PartChanges.{OfChanged, PartChange, changed_count, is_gone_or_changed, is_new, new_change, old_change};
ghost use Rattle.aatry_changes.specs.Stat.{stat_lines};
ghost use Rattle.aatry_policy.specs.FolderParts.{FolderParts};
ghost use Rattle.aatry_policy.specs.Parts.{Part};
ghost use Rattle.aatry_report.specs.declared.form.Form.{Form};
ghost use Rattle.aatry_shared.specs.Sharing.{Group, are_several, shared};
ghost use Rattle.aatry_shared.specs.declared.side.Side.{Side};
ghost use Rattle.aatry_shared.specs.declared.side.Side.TheVariants.{New, Old};
ghost use Rattle.aatry_uncertain.specs.LeftOutHeads.{LeftOutHead};

use aa_explain_diff::sections_alike_answer_alike;
use aatry_shared::what_is_shared_is_told_once;

/// Nothing is reported on two folders, in either form, where each part of either has one of its full name in the other, and neither of the two has
/// something that the other lacks, wherever their rules are written. And where nothing changes of a part of the old folder, the new one has such a
/// part.
pub fn when_nothing_is_told()
    ensures of_alike { (form : Form) (heads : List LeftOutHead) (old new : FolderParts)
        → HaveAlike old.parts new.parts
        → HaveAlike new.parts old.parts
        → change_lines form heads old new ≡ [] }
    ensures only_of_alike { (new : FolderParts) (part : Part) → old_change new part ≡ [] → HasAlike new.parts part }
{}

/// Where nothing changes of a part of the old folder, the new one has a part of its full name that decides as it does, whatever is asked: it is in
/// the same mode or disabled too, no verdict differs, and no line that logs one. This holds of each part where nothing is reported on the folders.
pub fn what_is_not_told_answers_alike()
    ensures of_a_part { (new : FolderParts) (part : Part) → old_change new part ≡ [] → HasAnsweringAlike new.parts part }
    ensures of_all { (form : Form) (heads : List LeftOutHead) (old new : FolderParts) (part : Part)
        → change_lines form heads old new ≡ []
        → Contains old.parts part
        → HasAnsweringAlike new.parts part }
{
    when_nothing_is_told();
    sections_alike_answer_alike();
}

/// What is counted changes, and is reported, in either form: something changes of a part of the old folder exactly where it is gone or changed, of a
/// part of the new one exactly where it is new, and something is reported on the folders, what differs or how much, exactly where there is such a
/// part.
pub fn what_is_counted_is_told()
    ensures of_the_old { (new : FolderParts) (part : Part) → is_empty (old_change new part) ≡ not (is_gone_or_changed new part) }
    ensures of_the_new { (old : FolderParts) (part : Part) → is_empty (new_change old part) ≡ not (is_new old part) }
    ensures of_both { (form : Form) (heads : List LeftOutHead) (old new : FolderParts) → is_empty (change_lines form heads old new) ≡ (changed_count old new == 0) }
    ensures of_stat { (form : Form) (heads : List LeftOutHead) (old new : FolderParts) → is_empty (stat_lines form heads old new) ≡ (changed_count old new == 0) }
{}

/// Each thing that only one side of a part has is reported once: below the part, or in exactly one shared change, which names the part. And nothing
/// else is reported: what is below a part only one side of it has, and it isn't shared; and a shared change names two parts or more, each of which
/// has it.
pub fn what_is_folded_is_told()
    ensures of_the_old { (changes : List PartChange) (part other : Part) (less more : List Feature) (feature : Feature)
        → Contains changes (OfChanged part other less more)
        → Contains less feature
        → IsTold (groups_of changes) part Old less feature }
    ensures of_the_new { (changes : List PartChange) (part other : Part) (less more : List Feature) (feature : Feature)
        → Contains changes (OfChanged part other less more)
        → Contains more feature
        → IsTold (groups_of changes) other New more feature }
    ensures no_other_below { (groups : List Group) (part : Part) (side : Side) (features : List Feature) (feature : Feature)
        → Contains (own_features groups part side features) feature
        → Contains features feature × (is_own groups part side feature ≡ true) }
    ensures no_other_shared { (changes : List PartChange) (group : Group) (name : List ℕ)
        → Contains (shared (groups_of changes)) group
        → Contains group.names name
        → Contains (all_havings changes) (record { name = name; change = group.change }) }
    ensures of_several { (changes : List PartChange) (group : Group)
        → Contains (shared (groups_of changes)) group
        → are_several group.names ≡ true }
{
    what_is_shared_is_told_once();
}
