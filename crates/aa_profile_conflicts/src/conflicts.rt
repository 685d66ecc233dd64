//! The first rule that conflicts with one before it.

ghost use Rattle.std.specs.Prelude.{◌≡◌, ◌++◌, ◌∷◌, [], ℕ, List, IfOk};
ghost use Rattle.std.specs.Option.{option_map};
ghost use Rattle.std.specs.Prelude.{slice_get};
ghost use Rattle.aa_glob.specs.Automata.{IsAutomatonOf};
ghost use Rattle.aa_glob.specs.Built.{IsBuilt};
ghost use Rattle.aa_glob_pairs.specs.Clashes.{IsLeast};
ghost use Rattle.aa_profile_conflicts.specs.Conflicting.{ConflictsAt, lesser};
ghost use Rattle.aa_profile_conflicts.specs.Leads.{patterns_by, place_of, placed_from};
ghost use Rattle.aa_profile_data.specs.Conflicts.{first_conflict};

use crate::classes::classes_of;
use crate::lead::lead_by;
use aa_glob::{Automaton, AutomatonBuilder};
use aa_glob_pattern::how_overlaps_are_tested;
use aa_profile_data::{Rank, Rule};
use std::alloc::{AllocError, Global};

// Adds the pattern of a rule, if it has a lead with this rank.
fn with_lead(
    builder: AutomatonBuilder,
    alloc: Global,
    rank: Rank,
    rule: &Rule,
) -> Result<AutomatonBuilder, AllocError>
    ensures { IfOk result (λ added. (patterns : List (List ℕ))
        → IsBuilt builder patterns
        → IsBuilt added (patterns ++ patterns_by rank (rule.now ∷ []))) }
{
    match lead_by(rank, rule) {
        None => Ok(builder),
        Some(lead) => builder.add(alloc, lead.pattern),
    }
}

// The automaton of the patterns of the leads that some rules have with this rank.
fn automaton_of(alloc: Global, rank: Rank, rules: &[Rule]) -> Result<Automaton, AllocError>
    ensures { IfOk result (λ automaton. IsAutomatonOf automaton (patterns_by rank rules.now)) }
{
    let mut builder = AutomatonBuilder::new(alloc)?;
    for rule in rules {
        builder = with_lead(builder, alloc, rank, rule)?;
    }
    Ok(builder.finish())
}

// The index of a rule by its index among those that have a lead with this rank.
fn place_of(rank: Rank, rules: &[Rule], lead: usize) -> Option<usize>
    ensures { result ≡ option_map place_of (slice_get (placed_from rank 0 rules.now) lead) }
{
    let mut left = lead;
    let mut place: usize = 0;
    let mut rest = rules;
    while let [rule, behind @ ..] = rest {
        if lead_by(rank, rule).is_some() {
            if left == 0 {
                return Some(place);
            }
            left -= 1;
        }
        place += 1;
        rest = behind;
    }
    None
}

// The index of the first rule that conflicts with one before it, both with this rank. No automaton is built where the leads have fewer than two
// transitions.
fn first_by(alloc: Global, rank: Rank, rules: &[Rule]) -> Result<Option<usize>, AllocError>
    ensures { IfOk result (λ found. IsLeast found (ConflictsAt rank rules.now)) }
{
    how_overlaps_are_tested();
    let classes = classes_of(alloc, rank, rules)?;
    if classes.transitions.len() < 2 {
        return Ok(None);
    }
    let automaton = automaton_of(alloc, rank, rules)?;
    match automaton.first_clash(alloc, &classes.classes)? {
        None => Ok(None),
        Some(lead) => Ok(place_of(rank, rules, lead as usize)),
    }
}

// The lesser of two indices, where there are any.
fn lesser(one: Option<usize>, other: Option<usize>) -> Option<usize>
    ensures { result ≡ lesser one other }
{
    match (one, other) {
        (None, other) => other,
        (one, None) => one,
        (Some(one), Some(other)) => Some(if one < other { one } else { other }),
    }
}

/// The index of the first of some rules that conflicts with one before it: both are allow rules on files with an exec word, with one rank, they lead
/// to different profiles, and some path matches both. `None` where no two conflict. For each rank one automaton is built of the patterns of such
/// rules, or none where they have fewer than two transitions.
///
/// # Errors
///
/// Where memory runs out.
pub fn first_conflict(alloc: Global, rules: &[Rule]) -> Result<Option<usize>, AllocError>
    ensures { IfOk result (λ found. found ≡ first_conflict [] rules.now) }
{
    let plain = first_by(alloc, Rank::Plain, rules)?;
    let loose = first_by(alloc, Rank::Loose, rules)?;
    let last = first_by(alloc, Rank::Last, rules)?;
    let above = lesser(plain, loose);
    Ok(lesser(above, last))
}
