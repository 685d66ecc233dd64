//! An example of what a written rule matches that decides nothing: a shortest path, and the rules that stay and cover there something of what the
//! rule covers.

ghost use Rattle.std.specs.Prelude.{◌≡◌, ◌++◌, ◌∷◌, [], IfOk, IfSome, None, OnOk, map};
ghost use Rattle.aa_explain_paths.specs.Meant.{unasked_patterns};
ghost use Rattle.aa_explain_paths.specs.Telling.{classes_among, telling_among};
ghost use Rattle.aa_explain_redundant.specs.Examples.{IsExampleWithin, covered_at, covered_by_own, is_beside, is_own, overlap_on, own_place, place_beside, places_beside, seen_overlap, seen_example};
ghost use Rattle.aa_explain_redundant.specs.Seen.{seen_numbered, seen_written};
ghost use Rattle.aa_explain_redundant.specs.code.Examples.{example_by};
ghost use Rattle.aa_glob_paths.specs.AllPaths.{TellAllPaths};
ghost use Rattle.aa_glob_paths.specs.Laws.{paths_of};
ghost use Rattle.aa_glob_paths.specs.TooMany.{AreMoreTextsThan};

use crate::asking::tried_patterns;
use crate::written::{NumberedRule, WrittenRules, is_made_of, numbered};
use aa_decide_rules::{covers, is_matching};
use aa_explain_paths::{standing_paths, unasked_patterns};
use aa_glob::AutomatonBuilder;
use aa_glob_paths::{Outcome, outcomes_stand_for_all};
use aa_glob_pattern::Pattern;
use aa_profile_data::{Perms, Request, Rule};
use bitflags::Flags;
use std::alloc::{AllocError, Global};

/// A path that a written rule matches, and the rules that stay and cover there something of what the rule covers.
#[derive(Drop)]
pub struct Overlap {
    /// One of the shortest paths that one of its rules on files matches, and about which the kernel may ask.
    pub path: Vec<u8>,
    /// The index, among all rules, of the first of its rules on files that matches the path.
    pub rule: usize,
    /// The indices of the rules that stay, match the path and cover a letter that its rules on files cover there, in rising order.
    pub beside: Vec<usize>,
}

/// What a written rule matches, by an example.
#[derive(Drop)]
pub enum Example {
    /// The written rule matches no path about which the kernel may ask.
    MatchesNothing,
    /// The written rule matches such paths, of which this one is among the shortest.
    Overlaps(Overlap),
}

// Paths that stand for all that one of these patterns matches; `None` where they are too many.
fn own_outcomes(
    alloc: Global,
    wanted: &[Pattern],
    limit: usize,
) -> Result<Option<Vec<Outcome>>, AllocError>
    ensures told { IfOk result (λ found. IfSome found (λ outcomes.
        TellAllPaths (telling_among [] wanted.now unasked_patterns) (classes_among [] wanted.now unasked_patterns) outcomes.items)) }
    ensures full { IfOk result (λ found. found ≡ None → AreMoreTextsThan (telling_among [] wanted.now unasked_patterns) limit) }
{
    let unasked = unasked_patterns(alloc)?;
    let none = AutomatonBuilder::new(alloc)?;
    standing_paths(alloc, none, 0, wanted, &unasked, limit)
}

// The letters that a rule covers of the file of a path, where the task's user owns it.
fn covered_at(path: &[u8], rule: &Rule) -> Perms
    ensures { result.0 ≡ covered_at path.now rule.now }
{
    let request = Request::File {
        needs: Perms::from_bits_retain(127),
        owned: true,
        path,
    };
    covers(&request, rule)
}

// The letters that the rules on files of a written rule cover of the file of a path.
fn covered_by_own(path: &[u8], number: usize, rules: &[NumberedRule<'_>]) -> Perms
    ensures { result.0 ≡ covered_by_own path.now number (map seen_numbered rules.now) }
{
    let own = [number];
    let mut letters = Perms::empty();
    let mut rest = rules;
    while let [one, behind @ ..] = rest {
        if is_made_of(&own, *one) {
            letters = letters.union(covered_at(path, one.rule));
        }
        rest = behind;
    }
    letters
}

// Whether a rule stays, and covers some of these letters.
fn is_beside(path: &[u8], gone: &[usize], letters: Perms, one: NumberedRule<'_>) -> bool
    ensures { result ≡ is_beside path.now gone.now letters.0 (seen_numbered one.entry) }
{
    !is_made_of(gone, one) && letters.intersects(covered_at(path, one.rule))
}

// Appends the index of a rule, if it stays and covers some of these letters.
fn push_beside(
    path: &[u8],
    gone: &[usize],
    letters: Perms,
    place: usize,
    one: NumberedRule<'_>,
    beside: &mut Vec<usize>,
) -> Result<(), AllocError>
    ensures { OnOk result (beside.new.items ≡ beside.old.items ++ place_beside path.now gone.now letters.0 place (seen_numbered one.entry)) }
{
    if is_beside(path, gone, letters, one) {
        beside.push(place)?;
    }
    Ok(())
}

// The indices of those of some rules that stay and cover some of these letters.
fn places_beside(
    alloc: Global,
    path: &[u8],
    gone: &[usize],
    letters: Perms,
    rules: &[NumberedRule<'_>],
) -> Result<Vec<usize>, AllocError>
    ensures { IfOk result (λ beside. beside.items ≡ places_beside path.now gone.now letters.0 0 (map seen_numbered rules.now)) }
{
    let mut beside = Vec::new(alloc);
    let mut place = 0;
    let mut rest = rules;
    while let [one, behind @ ..] = rest {
        push_beside(path, gone, letters, place, *one, &mut beside)?;
        place += 1;
        rest = behind;
    }
    Ok(beside)
}

// Whether a rule on files was made of a written rule, and matches a path.
fn is_own(path: &[u8], number: usize, one: NumberedRule<'_>) -> bool
    ensures { result ≡ is_own path.now number (seen_numbered one.entry) }
{
    let own = [number];
    is_made_of(&own, one) && is_matching(path, one.rule)
}

// The index of the first rule on files that was made of a written rule and matches a path; the number of rules where there is none.
fn own_place(path: &[u8], number: usize, rules: &[NumberedRule<'_>]) -> usize
    ensures { result ≡ own_place path.now number 0 (map seen_numbered rules.now) }
{
    let mut place: usize = 0;
    let mut rest = rules;
    while let [one, behind @ ..] = rest {
        if is_own(path, number, *one) {
            return place;
        }
        place += 1;
        rest = behind;
    }
    place
}

// The example on a path.
fn overlap_on(
    alloc: Global,
    gone: &[usize],
    number: usize,
    rules: &[NumberedRule<'_>],
    path: &[u8],
) -> Result<Overlap, AllocError>
    ensures { IfOk result (λ overlap. seen_overlap overlap ≡ overlap_on (map seen_numbered rules.now) gone.now number path.now) }
{
    let letters = covered_by_own(path, number, rules);
    let beside = places_beside(alloc, path, gone, letters, rules)?;
    Ok(Overlap {
        path: Vec::from_slice(alloc, path)?,
        rule: own_place(path, number, rules),
        beside,
    })
}

// The example by the paths of outcomes: the first of them, if there is one.
fn example_by(
    alloc: Global,
    gone: &[usize],
    number: usize,
    rules: &[NumberedRule<'_>],
    outcomes: &[Outcome],
) -> Result<Example, AllocError>
    ensures { IfOk result (λ example. seen_example example ≡ example_by (map seen_numbered rules.now) gone.now number (paths_of outcomes.now)) }
{
    match outcomes {
        [] => Ok(Example::MatchesNothing),
        [first, ..] => {
            let overlap = overlap_on(alloc, gone, number, rules, &first.path)?;
            Ok(Example::Overlaps(overlap))
        }
    }
}

/// An example of what a written rule matches that is among those in `gone`: one of the shortest paths that one of its rules on files matches and
/// about which the kernel may ask, with the rules that stay, match it and cover a letter that its rules on files cover there; or `MatchesNothing`.
///
/// `None` where paths are too many: more than `limit` sets of states of the automaton of its own patterns would have to be looked at.
///
/// # Errors
///
/// Where memory runs out, and where there are more than 4,294,967,295 patterns or states.
pub fn example_of(
    alloc: Global,
    rules: WrittenRules<'_>,
    gone: &[usize],
    number: usize,
    limit: usize,
) -> Result<Option<Example>, AllocError>
    ensures { IfOk result (IsExampleWithin (seen_written rules.entry) gone.now number limit) }
{
    outcomes_stand_for_all();
    let own = [number];
    let each = numbered(alloc, rules)?;
    let wanted = tried_patterns(alloc, &own, &each)?;
    match own_outcomes(alloc, &wanted, limit)? {
        None => Ok(None),
        Some(outcomes) => {
            let example = example_by(alloc, gone, number, &each, &outcomes)?;
            Ok(Some(example))
        }
    }
}
