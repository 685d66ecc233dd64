//! Kinds of paths: paths that the same rules match are of one kind.

ghost use Rattle.std.specs.Prelude.{◌≡◌, ◌++◌, ◌∷◌, [], IfOk, OnOk, map};
ghost use Rattle.std.specs.List.{All};
ghost use Rattle.aa_glob_paths.specs.Laws.{paths_of};
ghost use Rattle.aa_profile_data.specs.FileRules.{places_from};
ghost use Rattle.aa_explain_redundant.specs.Left.{rules_among};
ghost use Rattle.aa_explain_redundant.specs.Seen.{seen_numbered};
ghost use Rattle.aa_explain_redundant.specs.code.Kinds.{IsKind, IsOutcomeOf, paths_of_kinds, standing_at};

use crate::copies::{Copies, copies_left};
use crate::written::NumberedRule;
use aa_decide_ready::picked;
use aa_glob_paths::Outcome;
use aa_profile_data::which_rules_match;
use std::alloc::{AllocError, Global};

/// A kind of paths, by one of the shortest.
#[derive(Drop)]
pub struct Kind<'a> {
    /// One of the shortest paths of the kind.
    pub path: Vec<u8>,
    /// The rules on files whose pattern matches it, in their order.
    pub rules: Vec<NumberedRule<'a>>,
    /// Copies of them.
    pub all: Copies,
}

// Appends a rule, if its index is among some.
fn push_at<'a>(
    places: &[usize],
    place: usize,
    one: NumberedRule<'a>,
    found: &mut Vec<NumberedRule<'a>>,
) -> Result<(), AllocError>
    ensures { OnOk result (map seen_numbered found.new.items ≡ map seen_numbered found.old.items ++ standing_at places.now place (seen_numbered one.entry ∷ [])) }
{
    if places.contains(&place) {
        found.push(one)?;
    }
    Ok(())
}

// Those of some rules that are at these indices.
fn rules_at<'a>(
    alloc: Global,
    places: &[usize],
    rules: &[NumberedRule<'a>],
) -> Result<Vec<NumberedRule<'a>>, AllocError>
    ensures { IfOk result (λ found. map seen_numbered found.items ≡ standing_at places.now 0 (map seen_numbered rules.now)) }
{
    let mut found = Vec::new(alloc);
    let mut place: usize = 0;
    let mut rest = rules;
    while let [one, behind @ ..] = rest {
        push_at(places, place, *one, &mut found)?;
        place += 1;
        rest = behind;
    }
    Ok(found)
}

// The kind of the path of an outcome, by the indices of the rules on files: no pattern of a rule is tried.
fn kind_of<'a>(
    alloc: Global,
    rules: &[NumberedRule<'a>],
    numbers: &[usize],
    outcome: Outcome,
) -> Result<Kind<'a>, AllocError>
    requires numbers { numbers.now ≡ places_from 0 (rules_among (map seen_numbered rules.now)) }
    requires outcome { IsOutcomeOf (rules_among (map seen_numbered rules.now)) outcome }
    ensures kind { IfOk result (IsKind (map seen_numbered rules.now)) }
    ensures path { IfOk result (λ kind. kind.path.items ≡ outcome.path.items) }
{
    which_rules_match();
    let Outcome {
        places: found,
        path,
    } = outcome;
    let places = picked(alloc, numbers, &found)?;
    let matching = rules_at(alloc, &places, rules)?;
    let all = copies_left(alloc, &[], &matching)?;
    Ok(Kind {
        path,
        rules: matching,
        all,
    })
}

/// The kinds of the paths of outcomes, in their order, by the indices of the rules on files.
///
/// # Errors
///
/// Where memory runs out.
pub fn kinds_of<'a>(
    alloc: Global,
    rules: &[NumberedRule<'a>],
    numbers: &[usize],
    outcomes: Vec<Outcome>,
) -> Result<Vec<Kind<'a>>, AllocError>
    requires numbers { numbers.now ≡ places_from 0 (rules_among (map seen_numbered rules.now)) }
    requires outcomes { All (IsOutcomeOf (rules_among (map seen_numbered rules.now))) outcomes.items }
    ensures kinds { IfOk result (λ kinds. All (IsKind (map seen_numbered rules.now)) kinds.items) }
    ensures paths { IfOk result (λ kinds. paths_of_kinds kinds.items ≡ paths_of outcomes.items) }
{
    let mut kinds = Vec::with_capacity(alloc, outcomes.len())?;
    for outcome in outcomes {
        kinds.push(kind_of(alloc, rules, numbers, outcome)?)?;
    }
    Ok(kinds)
}
