//! Buffers for a step from a set to the next.

ghost use Rattle.std.specs.Prelude.{◌≡◌, length, IfOk, OnOk};
ghost use Rattle.aa_glob_nfa.specs.OfTables.{AreSound, AreSorted, graph_of};
ghost use Rattle.aa_glob_nfa.specs.Fronts.{AreDistinct, IsLive};
ghost use Rattle.aa_glob_nfa.specs.Runs.{LeadsTo};
ghost use Rattle.aa_glob_paths.specs.code.Rooms.{HasRoom};

use aa_glob_nfa::{Front, Steps, Tables, pass};
use std::alloc::{AllocError, Global};

// Two fronts, and the set to which the last step led. They are kept from step to step, so that a step allocates only where their capacity is too
// small.
#[derive(Drop)]
pub struct Fronts {
    pub here: Front,
    pub next: Front,
    pub set: Vec<u32>,
}

impl Fronts {
    // Fronts with room for so many states.
    pub fn new(alloc: Global, room: usize) -> Result<Fronts, AllocError>
        ensures { IfOk result (HasRoom room) }
    {
        Ok(Fronts {
            here: Front::new(alloc, room)?,
            next: Front::new(alloc, room)?,
            set: Vec::new(alloc),
        })
    }
}

// Fills the second front with the states that are live after a byte, given those that are live before it, in the order in which they are found.
pub fn follow(
    tables: &Tables,
    from: &[u32],
    byte: u8,
    here: &mut Front,
    next: &mut Front,
) -> Result<(), AllocError>
    requires sound { AreSound tables.now }
    requires sorted { AreSorted tables.now }
    requires live { IsLive (length tables.now.states) from.now }
    requires here { here.old.room ≡ length tables.now.states }
    requires next { next.old.room ≡ length tables.now.states }
    ensures leads { OnOk result (LeadsTo (graph_of tables.now) from.now byte next.new.states) }
    ensures distinct { OnOk result (AreDistinct next.new.states) }
    ensures here { OnOk result (here.new.room ≡ length tables.now.states) }
    ensures next { OnOk result (next.new.room ≡ length tables.now.states) }
{
    here.fill(from)?;
    next.clear();
    pass(tables, Some(byte), here, next, &mut Steps::new())?;
    here.clear();
    pass(tables, None, next, here, &mut Steps::new())
}
