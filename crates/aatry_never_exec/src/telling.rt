//! What is told whether a program that somebody starts ever runs unconfined, in lines and in records.

ghost use Rattle.std.specs.Prelude.{◌≡◌, ◌++◌, OnOk, map};
ghost use Rattle.std.specs.Option.{option_copied};
ghost use Rattle.aatry_never_exec.specs.Chain.{answer_of};
ghost use Rattle.aatry_never_exec.specs.Telling.{all_told, answer_told, chain_by, chain_of, chain_told, found_told, has_many, is_many, is_refuted, is_refuting, link_told, number_told};
ghost use Rattle.aatry_reach.specs.Finding.{seen_found};

use crate::chain::{Answer, answer_of, chain_to};
use aa_decide::IndexedSlots;
use aa_explain_reach::Reached;
use aatry_reach::{Finding, Found, push_node};
use aatry_report::{Field, Teller, tell};
use std::alloc::AllocError;

// Appends the answer for who is asked about to a text, in a word and a sentence.
fn push_answer(
    teller: Teller,
    name: &[u8],
    answer: Answer,
    out: &mut Vec<u8>,
) -> Result<(), AllocError>
    ensures { OnOk result (out.new.items ≡ out.old.items ++ answer_told teller.form name.now answer) }
{
    match answer {
        Answer::Absent => tell(
            teller,
            "exec",
            &[
                Field::Word("answer", "absent"),
                Field::Words(": nobody has the name "),
                Field::Text("name", name),
            ],
            out,
        ),
        Answer::Never(count) => tell(
            teller,
            "exec",
            &[
                Field::Word("answer", "never"),
                Field::Words(": no program that "),
                Field::Text("name", name),
                Field::Words(" starts ever runs unconfined (places: "),
                Field::Number("places", count),
                Field::Words(")"),
            ],
            out,
        ),
        Answer::Runs(_) => tell(
            teller,
            "exec",
            &[
                Field::Word("answer", "no"),
                Field::Words(": a program that "),
                Field::Text("name", name),
                Field::Words(" starts may run unconfined"),
            ],
            out,
        ),
        Answer::Many => tell(
            teller,
            "exec",
            &[
                Field::Word("answer", "many"),
                Field::Words(": it isn't known whether a program that "),
                Field::Text("name", name),
                Field::Words(" starts ever runs unconfined"),
            ],
            out,
        ),
    }
}

// Appends what is told of a node, if there is one.
fn push_link(
    teller: Teller,
    slots: &IndexedSlots<'_>,
    name: &[u8],
    nodes: &[Reached<'_>],
    node: Option<&Reached<'_>>,
    out: &mut Vec<u8>,
) -> Result<(), AllocError>
    ensures { OnOk result (out.new.items ≡ out.old.items ++ link_told teller.form slots.now name.now nodes.now (option_copied node.entry)) }
{
    match node {
        None => Ok(()),
        Some(node) => push_node(teller, slots, "chain", name, nodes, node, out),
    }
}

// The same of the node of a number.
fn push_numbered(
    teller: Teller,
    slots: &IndexedSlots<'_>,
    name: &[u8],
    nodes: &[Reached<'_>],
    number: usize,
    out: &mut Vec<u8>,
) -> Result<(), AllocError>
    ensures { OnOk result (out.new.items ≡ out.old.items ++ number_told teller.form slots.now name.now nodes.now number) }
{
    push_link(teller, slots, name, nodes, nodes.get(number), out)
}

// The same of the node of each of some numbers.
fn push_chain(
    teller: Teller,
    slots: &IndexedSlots<'_>,
    name: &[u8],
    nodes: &[Reached<'_>],
    numbers: &[usize],
    out: &mut Vec<u8>,
) -> Result<(), AllocError>
    ensures { OnOk result (out.new.items ≡ out.old.items ++ chain_told teller.form slots.now name.now nodes.now numbers.now) }
{
    let mut rest = numbers;
    while let [number, behind @ ..] = rest {
        push_numbered(teller, slots, name, nodes, *number, out)?;
        rest = behind;
    }
    Ok(())
}

// Appends the chain of starts by which a program runs unconfined, where one does.
fn push_chain_by(
    teller: Teller,
    slots: &IndexedSlots<'_>,
    name: &[u8],
    nodes: &[Reached<'_>],
    answer: Answer,
    out: &mut Vec<u8>,
) -> Result<(), AllocError>
    ensures { OnOk result (out.new.items ≡ out.old.items ++ chain_by teller.form slots.now name.now nodes.now answer) }
{
    match answer {
        Answer::Runs(number) => {
            let numbers = chain_to(teller.alloc, nodes, number)?;
            push_chain(teller, slots, name, nodes, &numbers, out)
        }
        Answer::Absent | Answer::Never(_) | Answer::Many => Ok(()),
    }
}

// The same by what is found of a name.
fn push_chain_of(
    teller: Teller,
    slots: &IndexedSlots<'_>,
    name: &[u8],
    finding: &Finding<'_>,
    out: &mut Vec<u8>,
) -> Result<(), AllocError>
    ensures { OnOk result (out.new.items ≡ out.old.items ++ chain_of teller.form slots.now name.now finding.now) }
{
    match finding {
        Finding::Absent => Ok(()),
        Finding::Reached(reach) => {
            push_chain_by(teller, slots, name, &reach.nodes, answer_of(finding), out)
        }
    }
}

// Appends what is told of a name to a text.
fn push_told(
    teller: Teller,
    names: bool,
    slots: &IndexedSlots<'_>,
    found: &Found<'_, '_>,
    out: &mut Vec<u8>,
) -> Result<(), AllocError>
    ensures { OnOk result (out.new.items ≡ out.old.items ++ found_told teller.form names slots.now (seen_found found.now)) }
{
    push_answer(teller, found.name, answer_of(&found.finding), out)?;
    if names {
        return Ok(());
    }
    push_chain_of(teller, slots, found.name, &found.finding, out)
}

/// Appends what is told of all names to a text, of each in its turn: whether a program that who has it starts ever runs unconfined; and where one does, unless
/// names alone are to be told, the chain of starts by which it does, each place as `push_node` tells it.
///
/// As records these are of the kinds `exec` and `chain`, each with the name that was asked about.
///
/// # Errors
///
/// Where memory runs out. A beginning may have been appended then.
pub fn push_all(
    teller: Teller,
    names: bool,
    slots: &IndexedSlots<'_>,
    found: &[Found<'_, '_>],
    out: &mut Vec<u8>,
) -> Result<(), AllocError>
    ensures { OnOk result (out.new.items ≡ out.old.items ++ all_told teller.form names slots.now (map seen_found found.now)) }
{
    let mut rest = found;
    while let [one, behind @ ..] = rest {
        push_told(teller, names, slots, one, out)?;
        rest = behind;
    }
    Ok(())
}

// Whether a program runs unconfined, or nobody has the name.
fn is_refuting(answer: Answer) -> bool
    ensures { result ≡ is_refuting answer }
{
    match answer {
        Answer::Absent | Answer::Runs(_) => true,
        Answer::Never(_) | Answer::Many => false,
    }
}

// Whether it isn't known whether one does.
fn is_many(answer: Answer) -> bool
    ensures { result ≡ is_many answer }
{
    match answer {
        Answer::Many => true,
        Answer::Absent | Answer::Never(_) | Answer::Runs(_) => false,
    }
}

/// Whether a program of somebody runs unconfined, or nobody has a name.
pub fn is_refuted(found: &[Found<'_, '_>]) -> bool
    ensures { result ≡ is_refuted (map seen_found found.now) }
{
    let mut rest = found;
    while let [one, behind @ ..] = rest {
        if is_refuting(answer_of(&one.finding)) {
            return true;
        }
        rest = behind;
    }
    false
}

/// Whether it isn't known of somebody whether one does.
pub fn has_many(found: &[Found<'_, '_>]) -> bool
    ensures { result ≡ has_many (map seen_found found.now) }
{
    let mut rest = found;
    while let [one, behind @ ..] = rest {
        if is_many(answer_of(&one.finding)) {
            return true;
        }
        rest = behind;
    }
    false
}
