//! The least pattern of a graph that clashes with an earlier one.

ghost use Rattle.std.specs.Prelude.{◌≡◌, ◌<◌, ℕ, length, IfOk};
ghost use Rattle.aa_glob_nfa.specs.Graphs.{EndsAt};
ghost use Rattle.aa_glob_nfa.specs.OfTables.{AreSorted, AreSound, graph_of};
ghost use Rattle.aa_glob_pairs.specs.Clashes.{IsLeast};
ghost use Rattle.aa_glob_pairs.specs.Graphs.{ClashesAt, IsLaid};

use crate::belows::belows_of;
use crate::meeting::least_clash;
use aa_glob_nfa::Tables;
use std::alloc::{AllocError, Global};

/// The least place (index) of a pattern that clashes with one at an earlier place, or `None`: some text leads to ends of both, and their classes
/// differ. `classes` has the class of each pattern, by its place.
///
/// # Errors
///
/// Where memory runs out.
pub fn first_clash(
    alloc: Global,
    tables: &Tables,
    classes: &[u32],
) -> Result<Option<u32>, AllocError>
    requires sound { AreSound tables.now }
    requires sorted { AreSorted tables.now }
    requires later { IsLaid (graph_of tables.now) }
    requires classes { (q p : ℕ) → EndsAt (graph_of tables.now) q p → p < length classes.now }
    ensures { IfOk result (λ found. IsLeast found (ClashesAt (graph_of tables.now) classes.now)) }
{
    let belows = belows_of(alloc, tables, classes)?;
    least_clash(alloc, tables, classes, &belows)
}
