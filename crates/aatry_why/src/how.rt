//! The report on how the answer to the start of a program came about, after the rules that decide.

ghost use Rattle.std.specs.Prelude.{◌≡◌, ◌++◌, IfOk, IfSome, OnOk};
ghost use Rattle.std.specs.Option.{option_map};
ghost use Rattle.aa_decide.specs.SeenExec.{IsIn, seen_asker};
ghost use Rattle.aa_decide_ready.specs.Slots.{filled};
ghost use Rattle.aa_explain.specs.Candidates.{seen_candidates};
ghost use Rattle.aatry_why.specs.How.{asked_candidates, asked_lines, confined_lines, confinement_of, how_lines, led_lines};
ghost use Rattle.aatry_why.specs.How.{lines_or_none, none_attached, none_told, own_children, profile_lines};
ghost use Rattle.aa_explain.specs.Leads.{seen_lead};

use crate::attachment::push_attachment;
use crate::transition::push_transition;
use aa_bytes::{SharedBytes, begins_with};
use aa_decide::{Asker, Confinement, IndexedSlots};
use aa_explain::{Candidate, Lead, child_candidates, lead_of, profile_candidates};
use aa_profile_data::Destination;
use aa_set_answers::find_asker;
use aatry_report::{Field, Teller, push_heading, tell};
use std::alloc::{AllocError, Global};

// The children and hats of the asker.
fn own_children<'a>(alloc: Global, asker: Asker<'a>) -> Result<Vec<Candidate<'a>>, AllocError>
    ensures { IfOk result (λ candidates. seen_candidates candidates.items ≡ own_children (seen_asker asker.entry)) }
{
    match asker.child {
        None => child_candidates(alloc, asker.entry),
        Some(_) => Ok(Vec::new(alloc)),
    }
}

// The candidates among which attachment to the path decides where a destination leads.
fn asked_candidates<'a>(
    alloc: Global,
    slots: &IndexedSlots<'a>,
    asker: Asker<'a>,
    target: &Option<SharedBytes>,
    destination: Destination,
) -> Result<Vec<Candidate<'a>>, AllocError>
    ensures { IfOk result (λ candidates.
        seen_candidates candidates.items ≡ asked_candidates target.now (filled slots.now) (seen_asker asker.entry) destination) }
{
    match (target, destination) {
        (None, Destination::Profile) => profile_candidates(alloc, slots.as_slice()),
        (None, Destination::Child) => own_children(alloc, asker),
        (Some(name), Destination::Profile) if begins_with(b"&", name.as_slice()) => {
            profile_candidates(alloc, slots.as_slice())
        }
        _ => Ok(Vec::new(alloc)),
    }
}

// Appends that no profile in force has a pattern that matches the path.
#[tactic(auto, unfolding(crate::specs::How::none_told))]
fn push_none(teller: Teller, out: &mut Vec<u8>) -> Result<(), AllocError>
    ensures { OnOk result (out.new.items ≡ out.old.items ++ none_told teller.form) }
{
    tell(
        teller,
        "attachment",
        &[
            Field::Words("  "),
            Field::Word("standing", "none"),
            Field::Words(": no profile in force has a pattern that matches the path"),
        ],
        out,
    )
}

// Appends the same below a heading.
fn push_none_attached(teller: Teller, out: &mut Vec<u8>) -> Result<(), AllocError>
    ensures { OnOk result (out.new.items ≡ out.old.items ++ none_attached teller.form) }
{
    push_heading(teller.form, "attachment", out)?;
    push_none(teller, out)
}

// Appends lines, or that nothing attaches where there are none.
fn push_lines_or_none(teller: Teller, lines: &[u8], out: &mut Vec<u8>) -> Result<(), AllocError>
    ensures { OnOk result (out.new.items ≡ out.old.items ++ lines_or_none teller.form lines.now) }
{
    if lines.is_empty() {
        return push_none_attached(teller, out);
    }
    out.extend_from_slice(lines)
}

// Appends the lines of the profiles that may attach to the path.
fn push_profiles(
    teller: Teller,
    slots: &IndexedSlots<'_>,
    path: &[u8],
    out: &mut Vec<u8>,
) -> Result<(), AllocError>
    ensures { OnOk result (out.new.items ≡ out.old.items ++ profile_lines teller.form path.now (filled slots.now)) }
{
    let candidates = profile_candidates(teller.alloc, slots.as_slice())?;
    let mut lines = Vec::new(teller.alloc);
    push_attachment(teller, path, &candidates, &mut lines)?;
    push_lines_or_none(teller, &lines, out)
}

// Appends the lines of where the rules lead, if they lead somewhere, and of the attachment, where that decides.
fn push_led(
    teller: Teller,
    slots: &IndexedSlots<'_>,
    asker: Asker<'_>,
    path: &[u8],
    lead: Option<Lead<'_>>,
    out: &mut Vec<u8>,
) -> Result<(), AllocError>
    ensures { OnOk result (out.new.items ≡ out.old.items
        ++ led_lines teller.form path.now (filled slots.now) (seen_asker asker.entry) (option_map (seen_lead slots.now) lead.entry)) }
{
    let Some(lead) = lead else {
        return Ok(());
    };
    let transition = lead.transition;
    let destination = transition.word.destination();
    let candidates = asked_candidates(teller.alloc, slots, asker, &transition.target, destination)?;
    push_transition(teller, slots, lead, out)?;
    push_attachment(teller, path, &candidates, out)
}

// Appends the lines for the asker of a loaded profile.
fn push_asked_by(
    teller: Teller,
    slots: &IndexedSlots<'_>,
    asker: Asker<'_>,
    owned: bool,
    path: &[u8],
    out: &mut Vec<u8>,
) -> Result<(), AllocError>
    requires { IsIn slots.now asker }
    ensures { OnOk result (out.new.items ≡ out.old.items
        ++ confined_lines teller.form owned path.now (filled slots.now) (seen_asker asker.entry) (confinement_of (seen_asker asker.entry))) }
{
    match asker.entry.confinement(asker.child) {
        Confinement::Unconfined | Confinement::ByName => push_profiles(teller, slots, path, out),
        Confinement::By { .. } => {
            let lead = lead_of(teller.alloc, slots, asker, owned, path)?;
            push_led(teller, slots, asker, path, lead, out)
        }
    }
}

// Appends the lines for the asker, or for no one in particular.
fn push_asked(
    teller: Teller,
    slots: &IndexedSlots<'_>,
    asker: Option<Asker<'_>>,
    owned: bool,
    path: &[u8],
    out: &mut Vec<u8>,
) -> Result<(), AllocError>
    requires { IfSome asker (IsIn slots.now) }
    ensures { OnOk result (out.new.items ≡ out.old.items
        ++ asked_lines teller.form (filled slots.now) (option_map seen_asker asker.entry) owned path.now) }
{
    match asker {
        None => push_profiles(teller, slots, path, out),
        Some(asker) => push_asked_by(teller, slots, asker, owned, path, out),
    }
}

/// Appends how the answer came about to the asker, by a full name or as the word `unconfined`, that starts the program of a path: below `transition`
/// where the rules lead, and below `attachment` which profiles or children may attach to the path, where that decides; or, in records, a record of
/// each, of the kinds `transition` and `attachment`. Where nothing confines the asker, or a name alone, and no profile in force has a pattern that
/// matches, `attachment` says so: the standing is `none` then. Where no rule leads, or one denies, and where nothing of the name is loaded, nothing
/// is appended. `owned` says whether the task's user owns the file. The filled slots count in their order.
///
/// # Errors
///
/// Where memory runs out. A beginning may have been appended then.
pub fn push_how(
    teller: Teller,
    slots: &IndexedSlots<'_>,
    who: &[u8],
    owned: bool,
    path: &[u8],
    out: &mut Vec<u8>,
) -> Result<(), AllocError>
    ensures { OnOk result (out.new.items ≡ out.old.items ++ how_lines teller.form (filled slots.now) who.now owned path.now) }
{
    match find_asker(slots, who) {
        None => Ok(()),
        Some(asker) => push_asked(teller, slots, asker, owned, path, out),
    }
}
