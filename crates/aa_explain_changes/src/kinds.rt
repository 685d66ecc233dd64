//! Kinds of paths: paths that the same rules match are of one kind.

ghost use Rattle.std.specs.Prelude.{◌≡◌, ℕ, IfOk, List};
ghost use Rattle.std.specs.List.{All, list_any};
ghost use Rattle.aa_glob_paths.specs.AllPaths.{IsOutcome};
ghost use Rattle.aa_glob_paths.specs.Laws.{paths_of};
ghost use Rattle.aa_explain_changes.specs.Changes.{changes_of};
ghost use Rattle.aa_explain_changes.specs.FileChanges.{changes_so, changing_patterns};
ghost use Rattle.aa_explain_changes.specs.Sides.{Sides as SeenSides, seen_sides};
ghost use Rattle.aa_explain_changes.specs.code.Kinds.{AreSidePlaces, IsKind, letter_list, paths_of_kinds, places_behind};
ghost use Rattle.aa_profile_data.specs.FileRules.{places_from};

use crate::change::Change;
use crate::letters::{LetterChanges, Places, letter_changes};
use crate::sides::Sides;
use aa_decide_ready::{file_places, picked};
use aa_glob_paths::Outcome;
use aa_profile_data::which_rules_match;
use std::alloc::{AllocError, Global};

/// A kind of paths, by one of the shortest.
#[derive(Drop)]
pub struct Kind {
    /// One of the shortest paths of the kind.
    pub path: Vec<u8>,
    /// The places (indices) of the rules of the old side that match it, in rising order.
    pub old: Vec<usize>,
    /// The places (indices) of the rules of the new side that match it, in rising order.
    pub new: Vec<usize>,
    /// How answers change for a file of another user than the task's.
    pub others: LetterChanges,
    /// How answers change for a file of the task's user.
    pub owned: LetterChanges,
}

impl Kind {
    /// How answers change for a file of the task's user, or of another. It takes no memory.
    pub fn changes_for(&self, owned: bool) -> LetterChanges
        ensures { (sides : SeenSides) → IsKind sides self.now → letter_list result ≡ changes_of sides self.now.path.items owned }
    {
        if owned { self.owned } else { self.others }
    }
}

/// The places of the rules on files of both sides, by the indices of their patterns.
#[derive(Drop)]
struct FilePlaces {
    old: Vec<usize>,
    new: Vec<usize>,
}

// The places that aren't less than `count`, less that number.
fn places_behind(alloc: Global, count: usize, places: &[usize]) -> Result<Vec<usize>, AllocError>
    ensures { IfOk result (λ found. found.items ≡ places_behind count places.now) }
{
    let mut found = Vec::new(alloc);
    let mut rest = places;
    while let [place, behind @ ..] = rest {
        if *place >= count {
            found.push(*place - count)?;
        }
        rest = behind;
    }
    Ok(found)
}

// The kind of a path that these rules match.
fn kind_with(sides: Sides<'_>, path: Vec<u8>, old: Vec<usize>, new: Vec<usize>) -> Kind
    requires old { AreSidePlaces sides.old.rules.now path.items old.items }
    requires new { AreSidePlaces sides.new.rules.now path.items new.items }
    ensures kind { IsKind (seen_sides sides.entry) result }
    ensures path { result.path.items ≡ path.items }
{
    let places = Places {
        path: &path,
        old: &old,
        new: &new,
    };
    let others = letter_changes(sides, places, false);
    let owned = letter_changes(sides, places, true);
    Kind {
        path,
        old,
        new,
        others,
        owned,
    }
}

// The kind of the path of an outcome.
fn kind_of(
    alloc: Global,
    sides: Sides<'_>,
    files: &FilePlaces,
    outcome: Outcome,
) -> Result<Kind, AllocError>
    requires old { files.now.old.items ≡ places_from 0 sides.old.rules.now }
    requires new { files.now.new.items ≡ places_from 0 sides.new.rules.now }
    requires outcome { (classes : List ℕ) × IsOutcome (changing_patterns (seen_sides sides)) classes outcome }
    ensures kind { IfOk result (IsKind (seen_sides sides.entry)) }
    ensures path { IfOk result (λ kind. kind.path.items ≡ outcome.path.items) }
{
    which_rules_match();
    let Outcome {
        places: found,
        path,
    } = outcome;
    let old = picked(alloc, &files.old, &found)?;
    let behind = places_behind(alloc, files.old.len(), &found)?;
    let new = picked(alloc, &files.new, &behind)?;
    Ok(kind_with(sides, path, old, new))
}

/// The kinds of the paths of outcomes, in their order.
///
/// # Errors
///
/// Where memory runs out.
pub fn kinds_of(
    alloc: Global,
    sides: Sides<'_>,
    outcomes: Vec<Outcome>,
) -> Result<Vec<Kind>, AllocError>
    requires { (classes : List ℕ) × All (IsOutcome (changing_patterns (seen_sides sides)) classes) outcomes.items }
    ensures kinds { IfOk result (λ kinds. All (IsKind (seen_sides sides.entry)) kinds.items) }
    ensures paths { IfOk result (λ kinds. paths_of_kinds kinds.items ≡ paths_of outcomes.items) }
{
    let files = FilePlaces {
        old: file_places(alloc, sides.old.rules)?,
        new: file_places(alloc, sides.new.rules)?,
    };
    let mut kinds = Vec::with_capacity(alloc, outcomes.len())?;
    for outcome in outcomes {
        kinds.push(kind_of(alloc, sides, &files, outcome)?)?;
    }
    Ok(kinds)
}

// Whether the answer to a letter changes in this way on the path of a kind.
fn kind_changes_so(kind: &Kind, change: Change) -> bool
    ensures { (sides : SeenSides) → IsKind sides kind.now → result ≡ changes_so sides change kind.now.path.items }
{
    kind.others.has(change) || kind.owned.has(change)
}

/// Whether the answer to a letter changes in this way on some path of these kinds. It takes no memory.
pub fn some_change_so(kinds: &[Kind], change: Change) -> bool
    ensures { (sides : SeenSides) → All (IsKind sides) kinds.now → result ≡ list_any (changes_so sides change) (paths_of_kinds kinds.now) }
{
    let mut rest = kinds;
    while let [kind, behind @ ..] = rest {
        if kind_changes_so(kind, change) {
            return true;
        }
        rest = behind;
    }
    false
}
