//! The least pattern that clashes with an earlier one, by the pairs of states that one text reaches together.

ghost use Rattle.std.specs.Prelude.{◌≡◌, ◌<◌, ◌+◌, ◌^◌, length, slice_get, Some, IfOk, OnOk};
ghost use Rattle.aa_glob_nfa.specs.OfTables.{graph_of};
ghost use Rattle.aa_glob_pairs.specs.Clashes.{IsLeast};
ghost use Rattle.aa_glob_pairs.specs.Graphs.{IsNodeOf};
ghost use Rattle.aa_glob_pairs.specs.Pairs.{AreReady, MeetsAt, classed};
ghost use Rattle.aa_glob_pairs.specs.Waiting.{IsFrontOf, row_at};
ghost use Rattle.aa_glob_pairs.specs.code.Progress.{IsMeeting, no_marks};

use crate::belows::Belows;
use crate::ends::lower_both;
use crate::nodes::{Node, put_node};
use crate::place::Place;
use crate::visit::visit;
use crate::waiting::Waiting;
use aa_glob_nfa::Tables;
use std::alloc::{AllocError, Global};

/// How far the search for clashing patterns has come.
#[derive(Drop)]
pub struct Meeting {
    // The pairs that wait: those of the first state that is looked at now, and of later ones.
    pub waiting: Waiting,
    // For each state the first state, plus one, beside which it was looked at last; zero before.
    pub seen: Vec<u32>,
    // The least pattern found so far that clashes with an earlier one.
    pub found: Option<u32>,
}

/// Buffers for the states of a pair, kept from one pair to the next.
#[derive(Drop)]
struct Pair {
    first: Node,
    second: Node,
}

/// The least pattern that clashes with an earlier one: each pair of states that one text reaches together is looked at once, and no pair leads to an
/// earlier one.
///
/// # Errors
///
/// Where memory runs out.
pub fn least_clash(
    alloc: Global,
    tables: &Tables,
    classes: &[u32],
    belows: &Belows,
) -> Result<Option<u32>, AllocError>
    requires { AreReady tables.now classes.now belows.now }
    ensures { IfOk result (λ found. IsLeast found (MeetsAt (classed tables.now classes.now belows.now))) }
{
    let mut meeting = begin(alloc, tables, classes, belows)?;
    let mut pair = Pair {
        first: Node::new(alloc),
        second: Node::new(alloc),
    };
    for row in 0..tables.states.len() {
        meet_row(tables, classes, belows, row as u32, &mut pair, &mut meeting)?;
    }
    Ok(meeting.found)
}

// The search at its beginning, where only the pair of starts waits.
fn begin(
    alloc: Global,
    tables: &Tables,
    classes: &[u32],
    belows: &Belows,
) -> Result<Meeting, AllocError>
    requires { AreReady tables.now classes.now belows.now }
    ensures { IfOk result (IsMeeting (classed tables.now classes.now belows.now) 0 0) }
{
    let states = tables.states.len();
    let mut waiting = Waiting::new(alloc);
    waiting.insert(0, 0)?;
    let seen = no_marks(alloc, states)?;
    Ok(Meeting {
        waiting,
        seen,
        found: None,
    })
}

// A zero for each state.
fn no_marks(alloc: Global, states: usize) -> Result<Vec<u32>, AllocError>
    ensures { IfOk result (λ marks. marks.items ≡ no_marks states) }
{
    vec![in alloc; 0u32; states]
}

// Looks at the pairs of a first state, if there are any.
fn meet_row(
    tables: &Tables,
    classes: &[u32],
    belows: &Belows,
    row: u32,
    pair: &mut Pair,
    meeting: &mut Meeting,
) -> Result<(), AllocError>
    requires ready { AreReady tables.now classes.now belows.now }
    requires row { row < length tables.now.states }
    requires met { IsMeeting (classed tables.now classes.now belows.now) row 0 meeting.old }
    ensures { OnOk result (IsMeeting (classed tables.now classes.now belows.now) (row + 1) 0 meeting.new) }
{
    match meeting.waiting.next_place(row, Place::start()) {
        None => {
            meeting.waiting.pass(row);
            Ok(())
        }
        Some(_) => {
            put_node(tables, classes, row, &mut pair.first)?;
            meet_all(
                tables,
                classes,
                belows,
                row,
                &pair.first,
                &mut pair.second,
                meeting,
            )
        }
    }
}

// Looks at the pairs of a first state, which is at hand as a node; `second` is a buffer for second states.
fn meet_all(
    tables: &Tables,
    classes: &[u32],
    belows: &Belows,
    row: u32,
    first: &Node,
    second: &mut Node,
    meeting: &mut Meeting,
) -> Result<(), AllocError>
    requires ready { AreReady tables.now classes.now belows.now }
    requires row { row < length tables.now.states }
    requires first { IsNodeOf (graph_of tables.now) classes.now row first.now }
    requires met { IsMeeting (classed tables.now classes.now belows.now) row 0 meeting.old }
    ensures { OnOk result (IsMeeting (classed tables.now classes.now belows.now) (row + 1) 0 meeting.new) }
{
    let mut place = Place::start();
    while let Some(next) = meeting.waiting.next_place(row, place) {
        meet(
            tables,
            classes,
            belows,
            row,
            place.index,
            next.state,
            first,
            second,
            meeting,
        )?;
        place = next;
    }
    meeting.waiting.pass(row);
    Ok(())
}

// Looks at a pair that wasn't looked at yet; `second` is a buffer for its second state. Nothing follows from a pair after whose states no patterns
// clash.
fn meet(
    tables: &Tables,
    classes: &[u32],
    belows: &Belows,
    row: u32,
    at: usize,
    column: u32,
    first: &Node,
    second: &mut Node,
    meeting: &mut Meeting,
) -> Result<(), AllocError>
    requires ready { AreReady tables.now classes.now belows.now }
    requires row { row < length tables.now.states }
    requires column { slice_get (row_at meeting.old.waiting row) at ≡ Some column }
    requires first { IsNodeOf (graph_of tables.now) classes.now row first.now }
    requires met { IsMeeting (classed tables.now classes.now belows.now) row at meeting.old }
    ensures met { OnOk result (IsMeeting (classed tables.now classes.now belows.now) row (at + 1) meeting.new) }
    ensures front { OnOk result (IsFrontOf (row_at meeting.old.waiting row) (row_at meeting.new.waiting row)) }
{
    if meeting.seen[column as usize] == row + 1 {
        return Ok(());
    }
    meeting.seen[column as usize] = row + 1;
    if !belows.at(row).can_clash(belows.at(column)) {
        return Ok(());
    }
    put_node(tables, classes, column, second)?;
    visit(
        &first.moves,
        &second.moves,
        row,
        column,
        &mut meeting.waiting,
    )?;
    lower_both(&first.ends, &second.ends, &mut meeting.found);
    Ok(())
}
