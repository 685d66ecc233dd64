//! Where a live state leads, without a byte and by one.

ghost use Rattle.std.specs.Prelude.{◌≡◌, ◌<◌, length, All, OnOk};
ghost use Rattle.aa_glob_nfa.specs.Entries.{is_free};
ghost use Rattle.aa_glob_nfa.specs.OfTables.{graph_of};
ghost use Rattle.aa_glob_nfa.specs.Tables.{IsWay, LeadsAway, LeadsOn};
ghost use Rattle.aa_glob_nfa.specs.Runs.{IsEntered, StaysAt};
ghost use Rattle.aa_glob_nfa.specs.code.Passes.{Adds, Enters, FollowsIf, IsReady};

use crate::front::Front;
use crate::state::Way;
use crate::tables::Tables;
use std::alloc::AllocError;

// Visits a state: inserts what it leads to without a byte into its own front, and what it leads to by the byte, if there is one, into the next
// front.
#[inline(always)]
pub fn visit(
    tables: &Tables,
    from: u32,
    byte: Option<u8>,
    here: &mut Front,
    next: &mut Front,
) -> Result<(), AllocError>
    requires ready { IsReady tables.now here.old next.old }
    requires is_state { from < length tables.now.states }
    ensures here { OnOk result (Adds here.old here.new (IsEntered (graph_of tables.now) is_free from)) }
    ensures next { OnOk result (Adds next.old next.new (FollowsIf (graph_of tables.now) byte from)) }
{
    lead_on(tables, from, byte, here, next)?;
    lead_away(tables, from, byte, here, next)?;
    match byte {
        Some(own) => stay(tables, from, own, next),
        None => Ok(()),
    }
}

// Enters the next state, if the state has a way to it.
fn lead_on(
    tables: &Tables,
    from: u32,
    byte: Option<u8>,
    here: &mut Front,
    next: &mut Front,
) -> Result<(), AllocError>
    requires ready { IsReady tables.now here.old next.old }
    requires is_state { from < length tables.now.states }
    ensures { OnOk result (Enters (graph_of tables.now) byte (LeadsOn tables.now.states from) here.old here.new next.old next.new) }
{
    if tables.states.leads_on(from) {
        enter(tables, from + 1, byte, here, next)
    } else {
        Ok(())
    }
}

// Enters states along the ways of the table, if the state has any there.
fn lead_away(
    tables: &Tables,
    from: u32,
    byte: Option<u8>,
    here: &mut Front,
    next: &mut Front,
) -> Result<(), AllocError>
    requires ready { IsReady tables.now here.old next.old }
    requires is_state { from < length tables.now.states }
    ensures { OnOk result (Enters (graph_of tables.now) byte (LeadsAway tables.now.ways.items from) here.old here.new next.old next.new) }
{
    if tables.states.leads_away(from) {
        lead_by_table(tables, from, byte, here, next)
    } else {
        Ok(())
    }
}

// Enters states along the ways of the table. A function of its own, since most states have none.
#[inline(never)]
fn lead_by_table(
    tables: &Tables,
    from: u32,
    byte: Option<u8>,
    here: &mut Front,
    next: &mut Front,
) -> Result<(), AllocError>
    requires { IsReady tables.now here.old next.old }
    ensures { OnOk result (Enters (graph_of tables.now) byte (LeadsAway tables.now.ways.items from) here.old here.new next.old next.new) }
{
    let leaving = tables.leaving(from, byte);
    lead_by(tables, leaving.any, from, byte, here, next)?;
    lead_by(tables, leaving.own, from, byte, here, next)
}

// Enters states along those of these ways that lead from the state.
fn lead_by(
    tables: &Tables,
    ways: &[Way],
    from: u32,
    byte: Option<u8>,
    here: &mut Front,
    next: &mut Front,
) -> Result<(), AllocError>
    requires ready { IsReady tables.now here.old next.old }
    requires each { All (IsWay tables.now.states) ways.now }
    ensures { OnOk result (Enters (graph_of tables.now) byte (LeadsAway ways.now from) here.old here.new next.old next.new) }
{
    for way in ways {
        if way.may_lead(from, byte) {
            enter(tables, way.to, byte, here, next)?;
        }
    }
    Ok(())
}

// Inserts a state into the first front if it is entered without a byte, and into the next if it is entered by the byte.
#[inline(always)]
fn enter(
    tables: &Tables,
    number: u32,
    byte: Option<u8>,
    here: &mut Front,
    next: &mut Front,
) -> Result<(), AllocError>
    requires ready { IsReady tables.now here.old next.old }
    requires is_state { number < length tables.now.states }
    ensures { OnOk result (Enters (graph_of tables.now) byte (λ r. r ≡ number) here.old here.new next.old next.new) }
{
    if tables.is_free(number) {
        here.insert(number)
    } else if tables.takes_if(number, byte) {
        next.insert(number)
    } else {
        Ok(())
    }
}

// Inserts a state into a front, if the byte stays in it.
fn stay(tables: &Tables, number: u32, byte: u8, front: &mut Front) -> Result<(), AllocError>
    requires is_state { number < length tables.now.states }
    requires room { front.old.room ≡ length tables.now.states }
    ensures { OnOk result (Adds front.old front.new (StaysAt (graph_of tables.now) byte number)) }
{
    if tables.stays(number, byte) {
        front.insert(number)
    } else {
        Ok(())
    }
}
