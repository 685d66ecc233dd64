//! The files that are left out on which an answer could depend.

ghost use Rattle.std.specs.Prelude.{◌≡◌, ◌++◌, IfSome, OnOk};
ghost use Rattle.std.specs.Option.{option_map};
ghost use Rattle.aa_decide.specs.SeenExec.{IsIn, seen_asker};
ghost use Rattle.aa_decide_ready.specs.Slots.{filled};
ghost use Rattle.aa_explain.specs.Leads.{seen_lead};
ghost use Rattle.aa_set_commands.specs.Question.{seen_question};
ghost use Rattle.aatry_uncertain.specs.SeenHeads.{all_left_out};
ghost use Rattle.aatry_why.specs.How.{confinement_of};
ghost use Rattle.aatry_why.specs.Uncertain.{asks_profiles, attached_lines, is_open_target, uncertain_confined, uncertain_exec, uncertain_lead};
ghost use Rattle.aatry_why.specs.Uncertain.{uncertain_of, uncertain_start};

use crate::targets::push_targets;
use aa_bytes::{SharedBytes, begins_with_byte};
use aa_decide::{Asker, Confinement, IndexedSlots};
use aa_explain::{Lead, lead_of};
use aa_profile_data::Destination;
use aa_set_answers::find_asker;
use aa_set_commands::Question;
use aatry_report::Teller;
use aatry_requests::who_asks;
use aatry_uncertain::{LeftOutHeads, push_unsure_names, push_unsure_starts};
use std::alloc::AllocError;

// Whether a target leaves it to attachment to the path which profile a program runs under.
fn is_open_target(target: &Option<SharedBytes>) -> bool
    ensures { result ≡ is_open_target target.now }
{
    match target {
        None => true,
        Some(name) => begins_with_byte(b'&', name.as_slice()),
    }
}

// Whether a profile is looked for that attaches to the path.
fn asks_profiles(target: &Option<SharedBytes>, destination: Destination) -> bool
    ensures { result ≡ asks_profiles target.now destination }
{
    match destination {
        Destination::Profile => is_open_target(target),
        Destination::Child | Destination::Inherit | Destination::Unconfined => false,
    }
}

// Appends the profiles that are left out and may attach to a path to a text, where such a profile is looked for.
fn push_attached(
    teller: Teller,
    left_out: &LeftOutHeads<'_>,
    path: &[u8],
    asked: bool,
    out: &mut Vec<u8>,
) -> Result<(), AllocError>
    ensures { OnOk result (out.new.items
        ≡ out.old.items ++ attached_lines teller.form left_out.now.base.now (all_left_out left_out.now.heads.items) path.now asked) }
{
    if !asked {
        return Ok(());
    }
    push_unsure_starts(teller, left_out, path, out)
}

// Appends the profiles that are left out on which it depends where the rules lead to a text, if they lead somewhere.
fn push_lead(
    teller: Teller,
    slots: &IndexedSlots<'_>,
    left_out: &LeftOutHeads<'_>,
    path: &[u8],
    lead: Option<Lead<'_>>,
    out: &mut Vec<u8>,
) -> Result<(), AllocError>
    ensures { OnOk result (out.new.items ≡ out.old.items ++ uncertain_lead teller.form left_out.now.base.now (filled slots.now)
        (all_left_out left_out.now.heads.items) path.now (option_map (seen_lead slots.now) lead.entry)) }
{
    let Some(lead) = lead else {
        return Ok(());
    };
    let target = &lead.transition.target;
    let destination = lead.transition.word.destination();
    push_attached(
        teller,
        left_out,
        path,
        asks_profiles(target, destination),
        out,
    )?;
    push_targets(teller, slots, left_out, target, destination, out)
}

// Appends the profiles that are left out on which the start of a program depends to a text, by what confines the asker.
fn push_confined(
    teller: Teller,
    slots: &IndexedSlots<'_>,
    left_out: &LeftOutHeads<'_>,
    asker: Asker<'_>,
    owned: bool,
    path: &[u8],
    out: &mut Vec<u8>,
) -> Result<(), AllocError>
    requires { IsIn slots.now asker }
    ensures { OnOk result (out.new.items ≡ out.old.items ++ uncertain_confined teller.form left_out.now.base.now (filled slots.now)
        (all_left_out left_out.now.heads.items) owned path.now (seen_asker asker.entry) (confinement_of (seen_asker asker.entry))) }
{
    match asker.entry.confinement(asker.child) {
        Confinement::Unconfined | Confinement::ByName => {
            push_unsure_starts(teller, left_out, path, out)
        }
        Confinement::By { .. } => {
            let lead = lead_of(teller.alloc, slots, asker, owned, path)?;
            push_lead(teller, slots, left_out, path, lead, out)
        }
    }
}

// Appends the profiles that are left out on which the start of a program depends to a text, by the asker.
fn push_exec(
    teller: Teller,
    slots: &IndexedSlots<'_>,
    left_out: &LeftOutHeads<'_>,
    asker: Option<Asker<'_>>,
    owned: bool,
    path: &[u8],
    out: &mut Vec<u8>,
) -> Result<(), AllocError>
    requires { IfSome asker (IsIn slots.now) }
    ensures { OnOk result (out.new.items ≡ out.old.items ++ uncertain_exec teller.form left_out.now.base.now (filled slots.now)
        (all_left_out left_out.now.heads.items) owned path.now (option_map seen_asker asker.entry)) }
{
    match asker {
        None => push_unsure_starts(teller, left_out, path, out),
        Some(asker) => push_confined(teller, slots, left_out, asker, owned, path, out),
    }
}

// Appends the profiles that are left out on which the answer to a question depends to a text, by its asker; for any question other than for the
// start of a program, nothing.
fn push_start(
    teller: Teller,
    slots: &IndexedSlots<'_>,
    left_out: &LeftOutHeads<'_>,
    asker: Option<Asker<'_>>,
    question: &Question<'_>,
    out: &mut Vec<u8>,
) -> Result<(), AllocError>
    requires { IfSome asker (IsIn slots.now) }
    ensures { OnOk result (out.new.items ≡ out.old.items ++ uncertain_start teller.form left_out.now.base.now (filled slots.now)
        (all_left_out left_out.now.heads.items) (option_map seen_asker asker.entry) (seen_question question.entry.now)) }
{
    match question {
        Question::Exec { owned, path, .. } => {
            push_exec(teller, slots, left_out, asker, *owned, path, out)
        }
        _ => Ok(()),
    }
}

/// Appends the profiles of files that are left out on which the answer of a policy set to a question could depend to a text, as far as their heads
/// can be read. Where it is a question for the start of a program: those that may attach to the path, where the profile that the program runs under
/// depends on it, and those that have a name in the target, where nothing of it is loaded. And where nothing of the asker's name is loaded, those of
/// the name.
///
/// # Errors
///
/// Where memory runs out. A beginning may have been appended then.
pub fn push_uncertain(
    teller: Teller,
    slots: &IndexedSlots<'_>,
    left_out: &LeftOutHeads<'_>,
    question: &Question<'_>,
    out: &mut Vec<u8>,
) -> Result<(), AllocError>
    ensures { OnOk result (out.new.items ≡ out.old.items ++ uncertain_of teller.form left_out.now.base.now (filled slots.now)
        (all_left_out left_out.now.heads.items) (seen_question question.entry.now)) }
{
    match find_asker(slots, who_asks(question)) {
        None => push_unsure_names(teller, left_out, who_asks(question), out),
        Some(asker) => push_start(teller, slots, left_out, asker, question, out),
    }
}
