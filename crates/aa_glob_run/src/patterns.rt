//! The patterns whose ends were reached.

ghost use Rattle.std.specs.Prelude.{◌<◌, length, All, IfOk, OnOk};
ghost use Rattle.std.specs.List.Sorted.{IsStrictlyIncreasing};
ghost use Rattle.aa_glob_nfa.specs.Graphs.{EndsAt};
ghost use Rattle.aa_glob_run.specs.Ends.{AreEndsOf};
ghost use Rattle.aa_glob_run.specs.code.Ends.{Gets};
ghost use Rattle.aa_glob_nfa.specs.OfTables.{AreSound, AreSorted, graph_of};

use aa_glob_nfa::Tables;
use std::alloc::{AllocError, Global};

/// The patterns that end at these states, each once, in rising order.
///
/// # Errors
///
/// Where memory runs out.
pub fn patterns_of(alloc: Global, tables: &Tables, live: &[u32]) -> Result<Vec<usize>, AllocError>
    requires sound { AreSound tables.now }
    requires sorted { AreSorted tables.now }
    requires are_states { All (λ r. r < length tables.now.states) live.now }
    ensures found { IfOk result (λ patterns. AreEndsOf (graph_of tables.now) live.now patterns.items) }
    ensures rise { IfOk result (λ patterns. IsStrictlyIncreasing patterns.items) }
{
    let mut found = found_by(alloc, tables, live)?;
    found.sort_unstable();
    found.dedup();
    Ok(found)
}

// The patterns that end at these states, state by state; a pattern may be there more than once.
fn found_by(alloc: Global, tables: &Tables, live: &[u32]) -> Result<Vec<usize>, AllocError>
    requires sound { AreSound tables.now }
    requires sorted { AreSorted tables.now }
    requires are_states { All (λ r. r < length tables.now.states) live.now }
    ensures { IfOk result (λ found. AreEndsOf (graph_of tables.now) live.now found.items) }
{
    let mut found = Vec::with_capacity(alloc, live.len())?;
    for at in 0..live.len() {
        push_found(tables, live[at], &mut found)?;
    }
    Ok(found)
}

// Appends the patterns that end at a state.
fn push_found(tables: &Tables, state: u32, found: &mut Vec<usize>) -> Result<(), AllocError>
    requires sound { AreSound tables.now }
    requires sorted { AreSorted tables.now }
    requires is_state { state < length tables.now.states }
    ensures { OnOk result (Gets found.old.items found.new.items (EndsAt (graph_of tables.now) state)) }
{
    for end in tables.ends_of(state) {
        found.push(end.pattern as usize)?;
    }
    Ok(())
}
