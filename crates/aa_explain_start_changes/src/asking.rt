//! What a change of policy changes of the start of programs, over all paths.

ghost use Rattle.std.specs.Prelude.{◌≡◌, ◌≤◌, AllPairs, IfOk, IfSome, None, length};
ghost use Rattle.aa_explain_start_changes.specs.Patterns.{change_patterns};
ghost use Rattle.aa_explain_start_changes.specs.StartChanges.{AreStartChanges};
ghost use Rattle.aa_explain_start_changes.specs.Starters.{AreThere, seen_starters};
ghost use Rattle.aa_explain_start_changes.specs.code.Telling.{AreChangesBy};
ghost use Rattle.aa_glob_paths.specs.Laws.{paths_of};
ghost use Rattle.aa_glob_paths.specs.TooMany.{AreMoreTextsThan};

use crate::changes::{StartChange, put_changes};
use crate::patterns::changing_outcomes;
use crate::starter::{ReadyStarters, Starters};
use aa_explain_reach::{every_pattern, how_starts_depend_on_paths};
use aa_glob_paths::{Outcome, outcomes_stand_for_all};
use std::alloc::{AllocError, Global};

// The starts of the programs of the paths of outcomes that lead elsewhere.
fn changes_by<'a>(
    alloc: Global,
    ready: &ReadyStarters<'_, 'a>,
    outcomes: &[Outcome],
) -> Result<Vec<StartChange<'a>>, AllocError>
    requires there { AreThere ready.now }
    requires by_length { AllPairs (λ one later. length one.path.items ≤ length later.path.items) outcomes.now }
    ensures { IfOk result (λ changes. AreChangesBy (seen_starters ready.now) (paths_of outcomes.now) changes.items) }
{
    let every = every_pattern(alloc)?;
    let mut changes = Vec::new(alloc);
    let mut rest = outcomes;
    while let [outcome, behind @ ..] = rest {
        put_changes(alloc, ready, &every, &outcome.path, &mut changes)?;
        rest = behind;
    }
    Ok(changes)
}

/// The starts of programs that lead elsewhere behind a change of policy, of all absolute paths of any bytes, as far as
/// the kernel may ask about them (`aa_explain_paths::ask_all_paths`): under another name, or scrubbed otherwise, or
/// somewhere instead of nowhere, or the other way round. What a start leads to is what `aa_decide::exec_by` answers,
/// before by the one who starts it in the old policy set, and behind it by the one who does in the new one, each in its
/// own mode. Each pair of what it leads to before and behind it is told once, with one of the shortest paths, and
/// whether its file is the task's user's.
///
/// No path is left out: each whose program either starts is matched by the same patterns as one of those that are looked
/// at, which is no longer (`aa_explain_reach::how_starts_depend_on_paths`), of those that the starts of either depend on;
/// and one that neither starts leads nowhere in both. None where more than `limit` sets of states of these patterns'
/// automaton were to be looked at for that.
///
/// It takes time and memory for each of these sets and each of its states, for an automaton of the rules of either, and
/// four times the time of a start by one of these for each of the paths that stand for all.
///
/// # Errors
///
/// Where memory runs out, and where there are more than 4,294,967,295 patterns or states.
pub fn start_changes<'a>(
    alloc: Global,
    starters: Starters<'_, 'a>,
    limit: usize,
) -> Result<Option<Vec<StartChange<'a>>>, AllocError>
    requires { AreThere starters }
    ensures told { IfOk result (λ found. IfSome found (λ changes. AreStartChanges (seen_starters starters.entry) changes.items)) }
    ensures full { IfOk result (λ found. found ≡ None → AreMoreTextsThan (change_patterns (seen_starters starters.entry)) limit) }
{
    outcomes_stand_for_all();
    how_starts_depend_on_paths();
    match changing_outcomes(alloc, starters, limit)? {
        None => Ok(None),
        Some(outcomes) => {
            let ready = ReadyStarters::of(alloc, starters)?;
            Ok(Some(changes_by(alloc, &ready, &outcomes)?))
        }
    }
}
