//! Whether a program that somebody starts ever runs unconfined, and by which chain of starts it does.

ghost use Rattle.std.specs.Prelude.{◌≡◌, IfOk};
ghost use Rattle.aatry_never_exec.specs.Chain.{answer_by, answer_of, before, chain_to, is_unconfined, is_whole, reach_answer, unconfined_from};

use aa_decide::ExecTo;
use aa_explain_reach::{Reach, Reached};
use aatry_reach::Finding;
use std::alloc::{AllocError, Global};

/// Whether a program that somebody starts, or that such a one starts in turn, ever runs unconfined.
#[derive(Clone, Copy)]
pub enum Answer {
    /// Nobody has the name.
    Absent,
    /// None ever does; so many places are reached.
    Never(usize),
    /// One may: at the place of the node of this number.
    Runs(usize),
    /// It isn't known: there are too many paths, and of what is known none does.
    Many,
}

// Whether what runs at a place runs unconfined.
fn is_unconfined(to: ExecTo<'_>) -> bool
    ensures { result ≡ is_unconfined to.entry }
{
    match to {
        ExecTo::Unconfined => true,
        ExecTo::Profile { .. } | ExecTo::Stack { .. } | ExecTo::Null | ExecTo::Nowhere => false,
    }
}

// The number of the first of some nodes where it does, if there is one.
fn unconfined_node(nodes: &[Reached<'_>]) -> Option<usize>
    ensures { result ≡ unconfined_from 0 nodes.now }
{
    let mut number = 0;
    let mut rest = nodes;
    while let [node, behind @ ..] = rest {
        if is_unconfined(node.start.to) {
            return Some(number);
        }
        number += 1;
        rest = behind;
    }
    None
}

// Whether all that are reached are known.
fn is_whole(reach: &Reach<'_>) -> bool
    ensures { result ≡ is_whole reach.now }
{
    reach.unknown.is_empty() && reach.nodes.len() <= reach.left
}

// The answer, by a place that is unconfined, if one is reached, whether all are known, and how many are reached.
fn answer_by(unconfined: Option<usize>, whole: bool, count: usize) -> Answer
    ensures { result ≡ answer_by unconfined whole count }
{
    match (unconfined, whole) {
        (Some(number), _) => Answer::Runs(number),
        (None, true) => Answer::Never(count),
        (None, false) => Answer::Many,
    }
}

/// The answer by what is found of a name: `Never` where no chain of starts, however long, ends unconfined (`what_never_exec_says`), and `Runs` where one does.
pub fn answer_of(finding: &Finding<'_>) -> Answer
    ensures { result ≡ answer_of finding.now }
{
    match finding {
        Finding::Absent => Answer::Absent,
        Finding::Reached(reach) => answer_by(
            unconfined_node(&reach.nodes),
            is_whole(reach),
            reach.nodes.len(),
        ),
    }
}

// The number of the node that a node of a number is come to from, if it is one.
fn before(nodes: &[Reached<'_>], number: usize) -> Option<usize>
    ensures { result ≡ before nodes.now number }
{
    match nodes.get(number) {
        None => None,
        Some(node) => node.from,
    }
}

/// The numbers of the nodes by which the node of a number is come to, in their order, and this one.
///
/// # Errors
///
/// Where memory runs out.
pub fn chain_to(alloc: Global, nodes: &[Reached<'_>], last: usize) -> Result<Vec<usize>, AllocError>
    ensures { IfOk result (λ numbers. numbers.items ≡ chain_to nodes.now last) }
{
    let mut numbers = Vec::new(alloc);
    let mut from = Some(last);
    let mut more = nodes;
    while let [_, fewer @ ..] = more {
        let Some(number) = from else {
            break;
        };
        numbers.push(number)?;
        from = before(nodes, number);
        more = fewer;
    }
    numbers.reverse();
    Ok(numbers)
}
