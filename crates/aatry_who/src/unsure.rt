//! Profiles of files that are left out, of which it isn't known whether they would let a request through.

ghost use Rattle.std.specs.Prelude.{◌≡◌, ◌++◌, OnOk};
ghost use Rattle.aa_decide_ready.specs.Slots.{filled};
ghost use Rattle.aatry_policy.specs.Folders.{loaded_in, outcomes_in, seen_folder};
ghost use Rattle.aatry_uncertain.specs.SeenHeads.{all_left_out, seen_left_out};
ghost use Rattle.aatry_who.specs.Unsure.{unsure_in, unsure_lines, unsure_text};

use aa_decide::{IndexedSlots, find_loaded};
use aatry_policy::LoadedFolder;
use aatry_report::Teller;
use aatry_uncertain::{LeftOutHead, LeftOutHeads, heads_left_out, push_unsure_profile};
use std::alloc::AllocError;

// Appends a profile of a file that is left out to a text, where nothing of its name is loaded.
fn push_unsure(
    teller: Teller,
    slots: &IndexedSlots<'_>,
    base: &[u8],
    left_out: LeftOutHead<'_>,
    out: &mut Vec<u8>,
) -> Result<(), AllocError>
    ensures { OnOk result (out.new.items ≡ out.old.items ++ unsure_text teller.form base.now (filled slots.now) (seen_left_out left_out.entry)) }
{
    match find_loaded(slots, left_out.head.name) {
        None => push_unsure_profile(teller, base, left_out, out),
        Some(_) => Ok(()),
    }
}

// Appends each profile of files that are left out to a text, where nothing of its name is loaded.
fn push_each_unsure(
    teller: Teller,
    slots: &IndexedSlots<'_>,
    base: &[u8],
    heads: &[LeftOutHead<'_>],
    out: &mut Vec<u8>,
) -> Result<(), AllocError>
    ensures { OnOk result (out.new.items ≡ out.old.items ++ unsure_lines teller.form base.now (filled slots.now) (all_left_out heads.now)) }
{
    let mut rest = heads;
    while let [head, behind @ ..] = rest {
        push_unsure(teller, slots, base, *head, out)?;
        rest = behind;
    }
    Ok(())
}

/// Appends the profiles of the files of a loaded folder that are left out to a text, as far as their heads can be read, where nothing of their name
/// is loaded: it isn't known whether they would let a request through.
///
/// # Errors
///
/// Where memory runs out. A beginning may have been appended then.
pub fn push_unsure_in(
    teller: Teller,
    loaded: &LoadedFolder<'_>,
    out: &mut Vec<u8>,
) -> Result<(), AllocError>
    requires set { loaded.now.policy.manager ≡ loaded_in (seen_folder loaded.now.folder.now) }
    requires outcomes { loaded.now.policy.outcomes.items ≡ outcomes_in (seen_folder loaded.now.folder.now) }
    ensures { OnOk result (out.new.items ≡ out.old.items ++ unsure_in teller.form (seen_folder loaded.now.folder.now)) }
{
    let LeftOutHeads { base, heads } = heads_left_out(teller.alloc, loaded)?;
    let slots = loaded.policy.manager.policy_set().slots();
    push_each_unsure(teller, &slots, base.as_bytes(), &heads, out)
}
