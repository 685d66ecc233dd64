//! Places where programs run, in words.

ghost use Rattle.std.specs.Prelude.{◌≡◌, [], IfOk, unwrap_or};
ghost use Rattle.std.specs.Option.{option_copied, option_map};
ghost use Rattle.aa_decide.specs.SeenExec.{seen_to};
ghost use Rattle.aatry_reach.specs.Telling.{from_text, node_text, place_text};
ghost use Rattle.aatry_report.specs.declared.form.Form.TheVariants as form;
ghost use Rattle.aatry_why.specs.Transitions.{started_text};

use aa_decide::{ExecTo, IndexedSlots};
use aa_explain_reach::Reached;
use aatry_report::{Form, Teller};
use aatry_why::destination_text;
use std::alloc::{AllocError, Global};

// A text, if there is one, and else none.
fn text_or_none(alloc: Global, text: Option<Vec<u8>>) -> Vec<u8>
    ensures { result.items ≡ unwrap_or (option_map (λ text. text.items) text) [] }
{
    match text {
        Some(text) => text,
        None => Vec::new(alloc),
    }
}

// Under what a program runs, in words, that isn't let through in complain mode alone.
fn started_text(
    alloc: Global,
    slots: &IndexedSlots<'_>,
    to: ExecTo<'_>,
) -> Result<Vec<u8>, AllocError>
    ensures { IfOk result (λ text. text.items ≡ unwrap_or (option_map (started_text form.Records) (seen_to slots.now to.entry)) []) }
{
    let teller = Teller {
        alloc,
        form: Form::Records,
        verbose: false,
    };
    let text = destination_text(teller, slots, Some(to))?;
    Ok(text_or_none(alloc, text))
}

/// Under what a program runs, in words: the full name of a profile, child or hat, a stack, `unconfined`, or `complain null`.
///
/// # Errors
///
/// Where memory runs out.
pub fn place_text(
    alloc: Global,
    slots: &IndexedSlots<'_>,
    to: ExecTo<'_>,
) -> Result<Vec<u8>, AllocError>
    ensures { IfOk result (λ text. text.items ≡ place_text slots.now to.entry) }
{
    match to {
        ExecTo::Null => Vec::from_slice(alloc, b"complain null"),
        ExecTo::Profile { .. } => started_text(alloc, slots, to),
        ExecTo::Unconfined => started_text(alloc, slots, to),
        ExecTo::Stack { .. } => started_text(alloc, slots, to),
        ExecTo::Nowhere => started_text(alloc, slots, to),
    }
}

// The same of a node, if there is one.
fn node_text(
    alloc: Global,
    slots: &IndexedSlots<'_>,
    node: Option<&Reached<'_>>,
) -> Result<Vec<u8>, AllocError>
    ensures { IfOk result (λ text. text.items ≡ node_text slots.now (option_copied node.entry)) }
{
    match node {
        Some(node) => place_text(alloc, slots, node.start.to),
        None => Ok(Vec::new(alloc)),
    }
}

/// Who starts programs from a node of a number, in words, or who starts the first of all, who has this name.
///
/// # Errors
///
/// Where memory runs out.
pub fn from_text(
    alloc: Global,
    slots: &IndexedSlots<'_>,
    name: &[u8],
    nodes: &[Reached<'_>],
    from: Option<usize>,
) -> Result<Vec<u8>, AllocError>
    ensures { IfOk result (λ text. text.items ≡ from_text slots.now name.now nodes.now from) }
{
    match from {
        None => Vec::from_slice(alloc, name),
        Some(number) => node_text(alloc, slots, nodes.get(number)),
    }
}
