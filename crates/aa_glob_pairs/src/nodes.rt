//! A state of a graph with what leads away from it and the patterns that end there, as lists.

ghost use Rattle.std.specs.Prelude.{◌<◌, length, OnOk};
ghost use Rattle.aa_glob_nfa.specs.OfTables.{graph_of};
ghost use Rattle.aa_glob_pairs.specs.Graphs.{IsNodeOf};
ghost use Rattle.aa_glob_pairs.specs.Pairs.{AreClassed};

use crate::ends::{Ending, put_endings};
use crate::moves::{Moves, put_moves};
use aa_glob_nfa::Tables;
use std::alloc::{AllocError, Global};

/// What leads away from a state, and the patterns that end there.
#[derive(Drop)]
pub struct Node {
    pub moves: Moves,
    pub ends: Vec<Ending>,
}

impl Node {
    /// An empty node. It takes no memory.
    pub fn new(alloc: Global) -> Node {
        Node {
            moves: Moves::new(alloc),
            ends: Vec::new(alloc),
        }
    }
}

/// Fills a node with what leads away from a state and with the patterns that end there, in place of what it had.
///
/// # Errors
///
/// Where memory runs out.
pub fn put_node(
    tables: &Tables,
    classes: &[u32],
    state: u32,
    node: &mut Node,
) -> Result<(), AllocError>
    requires classed { AreClassed tables.now classes.now }
    requires is_state { state < length tables.now.states }
    ensures { OnOk result (IsNodeOf (graph_of tables.now) classes.now state node.new) }
{
    put_moves(tables, state, &mut node.moves)?;
    put_endings(tables, classes, state, &mut node.ends)
}
