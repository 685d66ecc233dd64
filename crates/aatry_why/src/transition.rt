//! The report on where a transition leads.

ghost use Rattle.std.specs.Prelude.{◌≡◌, ◌++◌, OnOk};
ghost use Rattle.std.specs.Option.{option_copied};
ghost use Rattle.aa_explain.specs.Leads.{seen_lead};
ghost use Rattle.aa_bytes.specs.Quoting.{written_text};
ghost use Rattle.aatry_report.specs.SeenFields.{seen_field};
ghost use Rattle.aatry_why.specs.Transitions.{attachment_lack, lack_text, lacking_text, led_text, line_of, name_lack, transition_lines, transition_told};

use crate::destinations::{destination_base, destination_text};
use aa_bytes::{SharedBytes, push_text};
use aa_decide::IndexedSlots;
use aa_explain::Lead;
use aa_profile_data::{Destination, Transition, stack_of};
use aa_set_answers::push_exec_transition;
use aatry_report::{Field, Teller, push_heading, tell};
use std::alloc::AllocError;

// Appends that something of this name doesn't exist, in these words.
fn push_missing(name: &[u8], words: &[u8], out: &mut Vec<u8>) -> Result<(), AllocError>
    ensures { OnOk result (out.new.items ≡ out.old.items ++ written_text name.now ++ words.now) }
{
    push_text(out, name)?;
    out.extend_from_slice(words)
}

// Appends that a name doesn't exist.
fn push_name_lack(
    name: &[u8],
    destination: Destination,
    out: &mut Vec<u8>,
) -> Result<(), AllocError>
    ensures { OnOk result (out.new.items ≡ out.old.items ++ name_lack name.now destination) }
{
    match destination {
        Destination::Profile => push_missing(name, b" isn't in force", out),
        Destination::Child => push_missing(name, b" is no child or hat of who asks", out),
        Destination::Inherit => Ok(()),
        Destination::Unconfined => Ok(()),
    }
}

// Appends that nothing attaches.
fn push_attachment_lack(destination: Destination, out: &mut Vec<u8>) -> Result<(), AllocError>
    ensures { OnOk result (out.new.items ≡ out.old.items ++ attachment_lack destination) }
{
    match destination {
        Destination::Profile => out.extend_from_slice(b"no profile in force is attached"),
        Destination::Child => out.extend_from_slice(b"no child is attached"),
        Destination::Inherit => Ok(()),
        Destination::Unconfined => Ok(()),
    }
}

// Appends what doesn't exist, where a destination leads nowhere.
fn push_lack(
    target: &Option<SharedBytes>,
    destination: Destination,
    out: &mut Vec<u8>,
) -> Result<(), AllocError>
    ensures { OnOk result (out.new.items ≡ out.old.items ++ lack_text target.now destination) }
{
    let Some(name) = target else {
        return push_attachment_lack(destination, out);
    };
    if stack_of(name.as_slice()).is_some() {
        return push_missing(name.as_slice(), b" isn't in force as a whole", out);
    }
    push_name_lack(name.as_slice(), destination, out)
}

// Appends a transition, by the text of its rule, and two fields, each after its words.
#[tactic(auto, unfolding(crate::specs::Transitions::transition_told))]
fn push_told<'x>(
    teller: Teller,
    rule: &'x [u8],
    words: &'x str,
    field: Field<'x>,
    further: &'x str,
    other: Field<'x>,
    out: &mut Vec<u8>,
) -> Result<(), AllocError>
    ensures { OnOk result (out.new.items
        ≡ out.old.items ++ transition_told teller.form rule.now words.now (seen_field field.entry) further.now (seen_field other.entry)) }
{
    tell(
        teller,
        "transition",
        &[
            Field::Words("  "),
            Field::Plain("rule", rule),
            Field::Words(words),
            field,
            Field::Words(further),
            other,
        ],
        out,
    )
}

// Appends where a transition leads, by the text of its rule, and the base of the stack to which this leads, if it has one.
fn push_led(
    teller: Teller,
    rule: &[u8],
    to: &[u8],
    base: Option<&[u8]>,
    out: &mut Vec<u8>,
) -> Result<(), AllocError>
    ensures { OnOk result (out.new.items ≡ out.old.items ++ led_text teller.form rule.now to.now (option_copied base.entry)) }
{
    let led = Field::Plain("leads_to", to);
    match base {
        None => push_told(teller, rule, ": leads to ", led, "", Field::Words(""), out),
        Some(base) => {
            let on = Field::Quoted("on", base);
            push_told(teller, rule, ": leads to ", led, ", on ", on, out)
        }
    }
}

// Appends what doesn't exist to which a transition would lead, by the text of its rule, and where its fallback leads, if it leads somewhere.
fn push_lacking(
    teller: Teller,
    rule: &[u8],
    lack: &[u8],
    fallback: Option<&[u8]>,
    out: &mut Vec<u8>,
) -> Result<(), AllocError>
    ensures { OnOk result (out.new.items ≡ out.old.items ++ lacking_text teller.form rule.now lack.now (option_copied fallback.entry)) }
{
    let lacks = Field::Plain("lacks", lack);
    match fallback {
        None => {
            let nowhere = Field::Words("");
            push_told(
                teller,
                rule,
                ": ",
                lacks,
                ", so it leads nowhere",
                nowhere,
                out,
            )
        }
        Some(to) => {
            let back = Field::Plain("falls_back_to", to);
            push_told(
                teller,
                rule,
                ": ",
                lacks,
                ", so it falls back to ",
                back,
                out,
            )
        }
    }
}

// Appends a transition, by where its word leads, the base of that, and where its fallback leads.
fn push_line(
    teller: Teller,
    transition: &Transition,
    to: Option<&[u8]>,
    base: Option<&[u8]>,
    fallback: Option<&[u8]>,
    out: &mut Vec<u8>,
) -> Result<(), AllocError>
    ensures { OnOk result (out.new.items
        ≡ out.old.items ++ line_of teller.form transition.now (option_copied to.entry) (option_copied base.entry) (option_copied fallback.entry)) }
{
    let mut rule = Vec::new(teller.alloc);
    push_exec_transition(&mut rule, transition)?;
    match to {
        Some(to) => push_led(teller, &rule, to, base, out),
        None => {
            let mut lack = Vec::new(teller.alloc);
            push_lack(&transition.target, transition.word.destination(), &mut lack)?;
            push_lacking(teller, &rule, &lack, fallback, out)
        }
    }
}

/// Appends where the rules lead the asker that starts the program of a path, below the word `transition`: by its word, and the base of the stack to
/// which this leads, if it has one; or what doesn't exist to which this would lead, and where its fallback leads. As a record, of the kind
/// `transition`, this is the transition as a rule writes it, `rule`, and the full name `leads_to`, with the name of a stack's base, `on`; or
/// `lacks`, and the full name `falls_back_to`, if the fallback leads somewhere.
///
/// # Errors
///
/// Where memory runs out. A beginning may have been appended then.
pub fn push_transition(
    teller: Teller,
    slots: &IndexedSlots<'_>,
    lead: Lead<'_>,
    out: &mut Vec<u8>,
) -> Result<(), AllocError>
    ensures { OnOk result (out.new.items ≡ out.old.items ++ transition_lines teller.form (seen_lead slots.now lead.entry)) }
{
    let to = destination_text(teller, slots, lead.to)?;
    let base = destination_base(teller.alloc, slots, lead.to)?;
    let fallback = destination_text(teller, slots, lead.fallback)?;
    push_heading(teller.form, "transition", out)?;
    push_line(
        teller,
        lead.transition,
        to.as_deref(),
        base.as_deref(),
        fallback.as_deref(),
        out,
    )
}
