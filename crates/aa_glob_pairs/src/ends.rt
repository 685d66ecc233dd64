//! The patterns that end at a state, with their classes, and the least that clashes with an earlier one.

ghost use Rattle.std.specs.Prelude.{◌≡◌, ◌⊎◌, ◌<◌, ◌∷◌, [], length, OnOk};
ghost use Rattle.aa_glob_nfa.specs.OfTables.{graph_of};
ghost use Rattle.aa_glob_pairs.specs.Graphs.{AreEndingsOf};
ghost use Rattle.aa_glob_pairs.specs.Clashes.{Clash, Lowers};
ghost use Rattle.aa_glob_pairs.specs.Pairs.{AreClassed};

use aa_glob_nfa::Tables;
use std::alloc::{AllocError, Global};

/// A pattern that ends at a state.
#[derive(Clone, Copy)]
pub struct Ending {
    /// Its place among the patterns.
    pub pattern: u32,
    /// Its class.
    pub class: u32,
}

/// Fills the vector with the patterns that end at a state, in place of its items.
///
/// # Errors
///
/// Where memory runs out.
pub fn put_endings(
    tables: &Tables,
    classes: &[u32],
    state: u32,
    endings: &mut Vec<Ending>,
) -> Result<(), AllocError>
    requires classed { AreClassed tables.now classes.now }
    requires is_state { state < length tables.now.states }
    ensures { OnOk result (AreEndingsOf (graph_of tables.now) classes.now state endings.new.items) }
{
    endings.clear();
    for end in tables.ends_of(state) {
        endings.push(Ending {
            pattern: end.pattern,
            class: classes[end.pattern as usize],
        })?;
    }
    Ok(())
}

/// Lowers what was found to the least pattern of either state that clashes with an earlier one of the other.
pub fn lower_both(first: &[Ending], second: &[Ending], found: &mut Option<u32>)
    ensures { Lowers found.old found.new (λ k. Clash first.now second.now k ⊎ Clash second.now first.now k) }
{
    lower(first, second, found);
    lower(second, first, found);
}

// Lowers what was found to the least pattern of the second state that clashes with an earlier one of the first.
fn lower(first: &[Ending], second: &[Ending], found: &mut Option<u32>)
    ensures { Lowers found.old found.new (Clash first.now second.now) }
{
    for ending in first {
        lower_beside(ending, second, found);
    }
}

// Lowers what was found to the least pattern of the second state that clashes with this earlier one of the first.
fn lower_beside(ending: &Ending, second: &[Ending], found: &mut Option<u32>)
    ensures { Lowers found.old found.new (Clash (ending.now ∷ []) second.now) }
{
    for other in second {
        lower_if_clash(ending, other, found);
    }
}

// Lowers what was found to this pattern of the second state, if it clashes with this earlier one of the first.
fn lower_if_clash(ending: &Ending, other: &Ending, found: &mut Option<u32>)
    ensures { Lowers found.old found.new (Clash (ending.now ∷ []) (other.now ∷ [])) }
{
    if ending.class != other.class && ending.pattern < other.pattern {
        lower_to(other.pattern, found);
    }
}

// Lowers what was found to a number.
fn lower_to(number: u32, found: &mut Option<u32>)
    ensures { Lowers found.old found.new (λ k. k ≡ number) }
{
    match *found {
        Some(least) if least <= number => {}
        _ => *found = Some(number),
    }
}
