//! The outcomes of all paths.

ghost use Rattle.std.specs.Prelude.{◌≡◌, ℕ, List, IfOk, IfSome, None};
ghost use Rattle.aa_glob.specs.Automata.{AreClassesOf, IsAutomatonOf};
ghost use Rattle.aa_glob_paths.specs.AllPaths.{TellAllPaths};
ghost use Rattle.aa_glob_paths.specs.TooMany.{AreMoreTextsThan};

use crate::of_sets::outcomes_in;
use crate::outcome::Outcome;
use aa_glob::{Automaton, what_reaches_a_state};
use std::alloc::{AllocError, Global};

/// Which patterns of an automaton match some path together, where a pattern of the class `WANTED` is among them, and none of the class
/// `PASSED_OVER`. For each path of any bytes that a wanted pattern matches and none that is passed over, the places of the patterns that match it
/// are those of one of the outcomes, whose own path is no longer. Each outcome has such a path. No two outcomes have the same places, and they are
/// in the order of the lengths of their paths. `classes` has the class of each pattern, by its place.
///
/// It returns `None` where more sets of states have to be looked at than `limit`: then there are more texts than that, no two of which are read
/// alike by the patterns.
///
/// # Errors
///
/// Where memory runs out.
pub fn outcomes(
    alloc: Global,
    automaton: &Automaton,
    classes: &[u32],
    limit: usize,
) -> Result<Option<Vec<Outcome>>, AllocError>
    requires { AreClassesOf automaton.now classes.now }
    ensures told { IfOk result (λ found. IfSome found (λ outcomes. (patterns : List (List ℕ))
        → IsAutomatonOf automaton.now patterns
        → TellAllPaths patterns classes.now outcomes.items)) }
    ensures full { IfOk result (λ found. (patterns : List (List ℕ))
        → IsAutomatonOf automaton.now patterns
        → found ≡ None
        → AreMoreTextsThan patterns limit) }
{
    what_reaches_a_state();
    match automaton.nfa() {
        None => Ok(Some(Vec::new(alloc))),
        Some(nfa) => outcomes_in(alloc, nfa.tables(), classes, limit),
    }
}
