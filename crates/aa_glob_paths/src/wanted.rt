//! Which states matter.

ghost use Rattle.std.specs.Prelude.{◌≡◌, ◌<◌, length, map, IfOk};
ghost use Rattle.aa_glob_nfa.specs.OfTables.{graph_of};
ghost use Rattle.aa_glob_pairs.specs.Graphs.{IsLaid};
ghost use Rattle.aa_glob_pairs.specs.Pairs.{AreClassed};
ghost use Rattle.aa_glob_paths.specs.Reachable.{IsKeptBack};
ghost use Rattle.aa_glob_paths.specs.Wanted.{MarksWanted, has_wanted, wanted_or_other};

use aa_glob_nfa::Tables;
use aa_glob_pairs::{Below, Belows, belows_of};
use std::alloc::{AllocError, Global};

/// The class of the patterns that are wanted.
pub const WANTED: u32 = 1;

// Whether a pattern that is wanted may end at or after a state.
fn has_wanted(below: Below) -> bool
    ensures { result ≡ has_wanted below }
{
    match below {
        Below::Nothing => false,
        Below::One(class) => class == WANTED,
        Below::Several => true,
    }
}

// The class of a pattern, where all that aren't wanted have one class.
fn wanted_or_other(class: u32) -> u32
    ensures { result ≡ wanted_or_other class }
{
    if class == WANTED { WANTED } else { 0 }
}

// The classes of patterns, where all that aren't wanted have one class, so that these tell no states apart.
fn wanted_or_others(alloc: Global, classes: &[u32]) -> Result<Vec<u32>, AllocError>
    ensures { IfOk result (λ others. others.items ≡ map wanted_or_other classes.now) }
{
    let mut others = Vec::with_capacity(alloc, classes.len())?;
    for class in classes {
        others.push(wanted_or_other(*class))?;
    }
    Ok(others)
}

// Whether a pattern that is wanted may end at or after each state.
fn marked(alloc: Global, belows: &Belows, count: usize) -> Result<Vec<bool>, AllocError>
    requires count { count ≡ length belows.now }
    requires few { count < 4294967296 }
    ensures { IfOk result (λ wanted. wanted.items ≡ map has_wanted belows.now) }
{
    let mut wanted = Vec::with_capacity(alloc, count)?;
    for state in 0..count {
        wanted.push(has_wanted(belows.at(state as u32)))?;
    }
    Ok(wanted)
}

/// Whether each state matters: a pattern of the class `WANTED` may end at it or after it. `classes` has the class of each pattern.
///
/// # Errors
///
/// Where memory runs out.
pub fn wanted_states(
    alloc: Global,
    tables: &Tables,
    classes: &[u32],
) -> Result<Vec<bool>, AllocError>
    requires classed { AreClassed tables.now classes.now }
    requires later { IsLaid (graph_of tables.now) }
    ensures count { IfOk result (λ wanted. length wanted.items ≡ length tables.now.states) }
    ensures back { IfOk result (λ wanted. IsKeptBack (graph_of tables.now) wanted.items) }
    ensures ends { IfOk result (λ wanted. MarksWanted (graph_of tables.now) classes.now wanted.items) }
{
    let others = wanted_or_others(alloc, classes)?;
    let belows = belows_of(alloc, tables, &others)?;
    marked(alloc, &belows, tables.states.len())
}
