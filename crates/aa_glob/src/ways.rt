//! Ways to one state.

ghost use Rattle.std.specs.Prelude.{◌≡◌, ◌<◌, ◌∷◌, [], length, reverse, OnOk};
ghost use Rattle.std.specs.List.{All};
ghost use Rattle.aa_glob.specs.Ways.{AddsWays};

use aa_glob_run::Drawing;
use std::alloc::AllocError;

/// Adds a way from a state to a state.
///
/// # Errors
///
/// Where memory runs out.
pub fn draw_way(drawing: &mut Drawing, from: u32, to: u32) -> Result<(), AllocError>
    requires from { from < length drawing.old.entries }
    requires to { to < length drawing.old.entries }
    ensures { OnOk result (AddsWays drawing.old drawing.new (from ∷ []) to) }
{
    drawing.link(from, to)?;
    Ok(())
}

/// Adds ways from each of some states to one.
///
/// # Errors
///
/// Where memory runs out. Some of them may be added then.
pub fn draw_ways(drawing: &mut Drawing, from: &[u32], to: u32) -> Result<(), AllocError>
    requires from { All (λ q. q < length drawing.old.entries) from.now }
    requires to { to < length drawing.old.entries }
    ensures { OnOk result (AddsWays drawing.old drawing.new from.now to) }
{
    for state in from {
        draw_way(drawing, *state, to)?;
    }
    Ok(())
}
