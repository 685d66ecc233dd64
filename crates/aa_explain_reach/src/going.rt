//! Nodes that are added to others.

ghost use Rattle.std.specs.Prelude.{◌≡◌, ◌∷◌, [], IfSome, OnOk};
ghost use Rattle.std.specs.Option.{option_map};
ghost use Rattle.aa_decide.specs.SeenExec.{IsIn, seen_asker};
ghost use Rattle.aa_explain_reach.specs.Starters.{starters_at};
ghost use Rattle.aa_explain_reach.specs.code.Going.{AddsNodes, AreIn, GoesOn, has_node, seen_starters};

use crate::places::same_to;
use crate::reached::Reached;
use crate::start::Start;
use crate::starters::starters_at;
use crate::starts::starts_of;
use aa_decide::{Asker, ExecTo, IndexedSlots};
use std::alloc::{AllocError, Global};

// Whether one of some nodes is a place.
fn has_node(nodes: &[Reached<'_>], to: ExecTo<'_>) -> bool
    ensures { result ≡ has_node to.entry nodes.now }
{
    let mut rest = nodes;
    while let [node, behind @ ..] = rest {
        if same_to(node.start.to, to) {
            return true;
        }
        rest = behind;
    }
    false
}

// Appends the place of a start to others, if it isn't there.
fn add_start<'a>(
    from: Option<usize>,
    start: Start<'a>,
    nodes: &mut Vec<Reached<'a>>,
) -> Result<(), AllocError>
    ensures { OnOk result (AddsNodes from (start.entry ∷ []) nodes.old.items nodes.new.items) }
{
    if has_node(nodes, start.to) {
        return Ok(());
    }
    nodes.push(Reached { from, start })?;
    Ok(())
}

// The same of each of some.
fn add_starts<'a>(
    from: Option<usize>,
    starts: Vec<Start<'a>>,
    nodes: &mut Vec<Reached<'a>>,
) -> Result<(), AllocError>
    ensures { OnOk result (AddsNodes from starts.entry.items nodes.old.items nodes.new.items) }
{
    for start in starts {
        add_start(from, start, nodes)?;
    }
    Ok(())
}

/// Goes on to where the starts by someone lead: appends these places to others, as far as they aren't there, or tells
/// that they are too many.
///
/// # Errors
///
/// Where memory runs out, and where there are more than 4,294,967,295 patterns or states.
pub fn go_on<'a>(
    alloc: Global,
    slots: &IndexedSlots<'_>,
    starter: Option<Asker<'a>>,
    from: Option<usize>,
    limit: usize,
    nodes: &mut Vec<Reached<'a>>,
    unknown: &mut Vec<Option<usize>>,
) -> Result<(), AllocError>
    requires { IfSome starter (IsIn slots.now) }
    ensures { OnOk result (GoesOn slots.now limit from (option_map seen_asker starter.entry ∷ [])
        nodes.old.items nodes.new.items unknown.old.items unknown.new.items) }
{
    match starts_of(alloc, slots, starter, limit)? {
        None => {
            unknown.push(from)?;
            Ok(())
        }
        Some(starts) => add_starts(from, starts, nodes),
    }
}

// The same of each of some.
fn go_on_each<'a>(
    alloc: Global,
    slots: &IndexedSlots<'_>,
    starters: &[Option<Asker<'a>>],
    from: Option<usize>,
    limit: usize,
    nodes: &mut Vec<Reached<'a>>,
    unknown: &mut Vec<Option<usize>>,
) -> Result<(), AllocError>
    requires { AreIn slots.now starters.now }
    ensures { OnOk result (GoesOn slots.now limit from (seen_starters starters.now)
        nodes.old.items nodes.new.items unknown.old.items unknown.new.items) }
{
    let mut rest = starters;
    while let [starter, behind @ ..] = rest {
        go_on(alloc, slots, *starter, from, limit, nodes, unknown)?;
        rest = behind;
    }
    Ok(())
}

/// The same of all who start programs where one runs.
///
/// # Errors
///
/// As `go_on`.
pub fn go_on_from<'a>(
    alloc: Global,
    slots: &IndexedSlots<'a>,
    to: ExecTo<'_>,
    from: Option<usize>,
    limit: usize,
    nodes: &mut Vec<Reached<'a>>,
    unknown: &mut Vec<Option<usize>>,
) -> Result<(), AllocError>
    ensures { OnOk result (GoesOn slots.now limit from (starters_at slots.now to.entry)
        nodes.old.items nodes.new.items unknown.old.items unknown.new.items) }
{
    let starters = starters_at(alloc, slots, to)?;
    go_on_each(alloc, slots, &starters, from, limit, nodes, unknown)
}
