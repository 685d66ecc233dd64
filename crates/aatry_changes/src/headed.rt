//! The heading of the report on a profile, child or hat.

ghost use Rattle.std.specs.Prelude.{◌≡◌, ◌++◌, OnOk};
ghost use Rattle.aatry_changes.specs.Changes.{gone_text, gone_word, headed};
ghost use Rattle.aatry_policy.specs.SeenProfiles.{seen_part};
ghost use Rattle.aatry_uncertain.specs.SeenHeads.{all_left_out};

use aatry_policy::Part as PolicyPart;
use aatry_report::{Field, Teller, tell};
use aatry_uncertain::LeftOutHeads;
use std::alloc::AllocError;

/// Appends the heading of a profile, child or hat to a text: a line with a word and its full name, or the record of that.
///
/// # Errors
///
/// Where memory runs out. A beginning may have been appended then.
pub fn push_headed<'x>(
    teller: Teller,
    word: &'x str,
    name: &'x [u8],
    out: &mut Vec<u8>,
) -> Result<(), AllocError>
    ensures { OnOk result (out.new.items ≡ out.old.items ++ headed teller.form word.now name.now) }
{
    tell(
        teller,
        word,
        &[
            Field::Words(word),
            Field::Words(": "),
            Field::Text("name", name),
        ],
        out,
    )
}

// The word for a part that the new folder lacks, by the heads of profiles in those of its files that are left out.
fn gone_word(left_out: &LeftOutHeads<'_>, name: &[u8]) -> &'static str
    ensures { result.now ≡ gone_word (all_left_out left_out.now.heads.items) name.now }
{
    if left_out.has_name(name) {
        "unread"
    } else {
        "gone"
    }
}

/// Appends the report on a part that only the old folder has to a text: that it is gone, or unread, where a file of the new folder is left out that
/// has the name of its profile, as far as that can be read.
///
/// # Errors
///
/// Where memory runs out. A beginning may have been appended then.
pub fn push_gone(
    teller: Teller,
    left_out: &LeftOutHeads<'_>,
    part: &PolicyPart<'_>,
    out: &mut Vec<u8>,
) -> Result<(), AllocError>
    ensures { OnOk result (out.new.items ≡ out.old.items ++ gone_text teller.form (all_left_out left_out.now.heads.items) (seen_part part.now)) }
{
    let name = part.name.as_slice();
    push_headed(teller, gone_word(left_out, name), name, out)
}
