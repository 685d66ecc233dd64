//! Whether two patterns overlap.

ghost use Rattle.std.specs.Prelude.{◌∷◌, [], Decides, IfOk};
ghost use Rattle.aa_glob.specs.Automata.{IsAutomatonOf};
ghost use Rattle.aa_glob_syntax.specs.Overlap.{Overlap};

use crate::automaton::Automaton;
use crate::builder::AutomatonBuilder;
use aa_glob_pattern::Pattern;
use std::alloc::{AllocError, Global};

/// Whether some text, of any bytes, matches both patterns.
///
/// # Errors
///
/// Where memory runs out.
pub fn overlap(alloc: Global, one: &Pattern, other: &Pattern) -> Result<bool, AllocError>
    ensures { IfOk result (λ overlap. Decides overlap (Overlap one.now other.now)) }
{
    let automaton = automaton_of_both(alloc, one, other)?;
    let found = automaton.first_clash(alloc, &[0, 1])?;
    Ok(found.is_some())
}

// The automaton of two patterns.
fn automaton_of_both(alloc: Global, one: &Pattern, other: &Pattern) -> Result<Automaton, AllocError>
    ensures { IfOk result (λ automaton. IsAutomatonOf automaton (one.now ∷ other.now ∷ [])) }
{
    let builder = AutomatonBuilder::new(alloc)?;
    let builder = builder.add(alloc, one)?;
    let builder = builder.add(alloc, other)?;
    Ok(builder.finish())
}
