//! Under what programs may run that are started from each other.

ghost use Rattle.std.specs.Prelude.{◌≡◌, ◌<◌, IfOk, IfSome, List, Option, length};
ghost use Rattle.std.specs.Option.{option_map};
ghost use Rattle.aa_decide.specs.Exec.{Asker as SeenAsker};
ghost use Rattle.aa_decide.specs.SeenExec.{IsIn, seen_asker};
ghost use Rattle.aa_explain_reach.specs.Reach.{AreReached};

use crate::going::{go_on, go_on_from};
use crate::reached::Reached;
use aa_decide::{Asker, IndexedSlots};
use std::alloc::{AllocError, Global};

/// Under what programs may run that are started from each other.
#[derive(Drop)]
pub struct Reach<'a> {
    /// The places, none twice, in the order in which they are come to, breadth first.
    pub nodes: Vec<Reached<'a>>,
    /// The numbers of the nodes of which it isn't known where all programs run that are started from there, as their
    /// paths are too many; none stands for who starts the first of all.
    pub unknown: Vec<Option<usize>>,
    /// How many nodes were gone on from: the first of them. All, or as many as were to be.
    pub left: usize,
}

// Goes on from one node after the other, until there is no other, or so many were gone on from; tells how many were.
fn go_on_all<'a>(
    alloc: Global,
    slots: &IndexedSlots<'a>,
    limit: usize,
    most: usize,
    nodes: &mut Vec<Reached<'a>>,
    unknown: &mut Vec<Option<usize>>,
) -> Result<usize, AllocError>
    ensures reached { IfOk result (λ left. (who : Option SeenAsker)
        → AreReached slots.now who limit nodes.old.items unknown.old.items 0
        → AreReached slots.now who limit nodes.new.items unknown.new.items left) }
    ensures left { IfOk result (λ left. left < length nodes.new.items → left ≡ most) }
{
    let mut left: usize = 0;
    while left < most {
        let to = match nodes.get(left) {
            None => return Ok(left),
            Some(node) => node.start.to,
        };
        go_on_from(alloc, slots, to, Some(left), limit, nodes, unknown)?;
        left += 1;
    }
    Ok(left)
}

/// Under what programs may run that someone starts, and those that are started from there, and so on: each such place
/// once, as a node, with the node that it is come to from and a path that leads there from that
/// (`aa_explain_reach::starts_of`), found breadth first. So a chain of starts leads to each node. No other place is
/// come to by such a chain, where all nodes were gone on from and `unknown` is empty (`what_is_not_reached`).
///
/// Under a stack each in it starts programs by itself, so more may be told than a kernel lets, which asks all in it
/// together; from what runs under no profile it is gone on by attachment; from what is let through in complain mode
/// alone it isn't. No more than `most` nodes are gone on from, and of each no more than `limit` sets of states are
/// looked at.
///
/// It takes the time of `starts_of` for each node.
///
/// # Errors
///
/// Where memory runs out, and where there are more than 4,294,967,295 patterns or states.
pub fn reachable_profiles<'a>(
    alloc: Global,
    slots: &IndexedSlots<'a>,
    who: Option<Asker<'a>>,
    limit: usize,
    most: usize,
) -> Result<Reach<'a>, AllocError>
    requires { IfSome who (IsIn slots.now) }
    ensures reached { IfOk result (λ reach. AreReached slots.now (option_map seen_asker who.entry) limit reach.nodes.items reach.unknown.items reach.left) }
    ensures left { IfOk result (λ reach. reach.left < length reach.nodes.items → reach.left ≡ most) }
{
    let mut nodes = Vec::new(alloc);
    let mut unknown = Vec::new(alloc);
    go_on(alloc, slots, who, None, limit, &mut nodes, &mut unknown)?;
    let left = go_on_all(alloc, slots, limit, most, &mut nodes, &mut unknown)?;
    Ok(Reach {
        nodes,
        unknown,
        left,
    })
}
