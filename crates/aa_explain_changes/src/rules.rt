//! What a rule changes that only one side has.

ghost use Rattle.std.specs.Prelude.{◌≡◌, IfOk, Some, map, option_map, slice_get};
ghost use Rattle.std.specs.List.{All};
ghost use Rattle.aa_explain_changes.specs.Changes.{answers_at};
ghost use Rattle.aa_explain_changes.specs.FileChanges.{seen_rule_change};
ghost use Rattle.aa_explain_changes.specs.Lone.{seen_lone};
ghost use Rattle.aa_explain_changes.specs.Rules.{is_matched_by, seen_change, told_for};
ghost use Rattle.aa_explain_changes.specs.Sides.{Sides as SeenSides, seen_sides};
ghost use Rattle.aa_explain_changes.specs.code.Kinds.{AreLoneOf, IsKind, IsLoneOf, first_told, paths_of_kinds, rules_of, told_if, told_of};
ghost use Rattle.aa_profile_data.specs.declared.profile.FileRule.{FileRule as SeenFileRule};
ghost use Rattle.aa_profile_data.specs.declared.profile.Rule.TheVariants.{File};

use crate::change::{Answers, Change};
use crate::kinds::Kind;
use crate::letters::{Places, answers_at};
use crate::lone::LoneRule;
use crate::sides::Sides;
use aa_profile_data::{FileRule, Perms};
use std::alloc::{AllocError, Global};

/// A path on which answers change in which a rule takes part.
#[derive(Drop)]
pub struct FileChange {
    /// The path.
    pub path: Vec<u8>,
    /// Whether the task's user owns its file: not where answers change for another user's.
    pub owned: bool,
    /// How they change: `Lost` where the rule covers a letter that isn't allowed any more, else `Gained` where it covers one that is allowed now,
    /// else `Otherwise`.
    pub change: Change,
    /// The letters that the rule covers and whose answers change in this way.
    pub letters: Perms,
    /// The answers of both sides to these letters together.
    pub answers: Answers,
}

/// A rule that only one side has, and what it changes.
#[derive(Drop)]
pub struct RuleChange<'a> {
    /// The rule.
    pub lone: LoneRule<'a>,
    /// A shortest path on which answers change in which it takes part; `None` where there is no such path.
    pub change: Option<FileChange>,
}

// Whether the pattern of a rule matches the path of a kind.
fn is_matched(is_old: bool, number: usize, kind: &Kind) -> bool
    ensures { (sides : SeenSides) (rule : SeenFileRule)
        → IsKind sides kind.now
        → slice_get (rules_of sides is_old) number ≡ Some (File rule)
        → result ≡ is_matched_by rule kind.now.path.items }
{
    if is_old {
        kind.old.contains(&number)
    } else {
        kind.new.contains(&number)
    }
}

// The answers of both sides to letters of a file with the path of a kind.
fn answers_on(sides: Sides<'_>, kind: &Kind, owned: bool, letters: Perms) -> Answers
    requires { IsKind (seen_sides sides) kind.now }
    ensures { result ≡ answers_at (seen_sides sides.entry) kind.now.path.items owned letters.0 }
{
    let places = Places {
        path: &kind.path,
        old: &kind.old,
        new: &kind.new,
    };
    answers_at(sides, places, owned, letters)
}

// The change that a rule takes part in on the path of a kind, for a file of the task's user or of another.
fn told_for(
    alloc: Global,
    sides: Sides<'_>,
    rule: &FileRule,
    matched: bool,
    kind: &Kind,
    owned: bool,
) -> Result<FileChange, AllocError>
    requires kind { IsKind (seen_sides sides) kind.now }
    requires matched { matched ≡ is_matched_by rule.now kind.now.path.items }
    ensures { IfOk result (λ told. seen_change told ≡ told_for (seen_sides sides.entry) rule.now kind.now.path.items owned) }
{
    let changes = kind.changes_for(owned);
    let change = changes.change_told(rule, matched, owned);
    let letters = changes.changed_by(change, rule, matched, owned);
    let answers = answers_on(sides, kind, owned, letters);
    Ok(FileChange {
        path: Vec::from_slice(alloc, &kind.path)?,
        owned,
        change,
        letters,
        answers,
    })
}

// The change that a rule takes part in on the path of a kind, or `None`; `matched` says whether its pattern matches the path.
fn change_at(
    alloc: Global,
    sides: Sides<'_>,
    rule: &FileRule,
    matched: bool,
    kind: &Kind,
) -> Result<Option<FileChange>, AllocError>
    requires kind { IsKind (seen_sides sides) kind.now }
    requires matched { matched ≡ is_matched_by rule.now kind.now.path.items }
    ensures { IfOk result (λ found. option_map seen_change found ≡ told_if (seen_sides sides.entry) rule.now kind.now.path.items) }
{
    if kind.others.changes_by(rule, matched, false) {
        return Ok(Some(told_for(alloc, sides, rule, matched, kind, false)?));
    }
    if kind.owned.changes_by(rule, matched, true) {
        return Ok(Some(told_for(alloc, sides, rule, matched, kind, true)?));
    }
    Ok(None)
}

// The first change among these kinds that a rule takes part in.
fn first_change(
    alloc: Global,
    sides: Sides<'_>,
    is_old: bool,
    lone: LoneRule<'_>,
    kinds: &[Kind],
) -> Result<Option<FileChange>, AllocError>
    requires kinds { All (IsKind (seen_sides sides)) kinds.now }
    requires lone { IsLoneOf (seen_sides sides) is_old (seen_lone lone) }
    ensures { IfOk result (λ found. option_map seen_change found
        ≡ first_told (seen_sides sides.entry) lone.entry.rule.now (paths_of_kinds kinds.now)) }
{
    let mut rest = kinds;
    while let [kind, behind @ ..] = rest {
        let matched = is_matched(is_old, lone.number, kind);
        match change_at(alloc, sides, lone.rule, matched, kind)? {
            Some(change) => return Ok(Some(change)),
            None => {}
        }
        rest = behind;
    }
    Ok(None)
}

/// What some rules of one side change by these kinds, in their order.
///
/// # Errors
///
/// Where memory runs out.
pub fn rule_changes<'a>(
    alloc: Global,
    sides: Sides<'_>,
    is_old: bool,
    lone: &[LoneRule<'a>],
    kinds: &[Kind],
) -> Result<Vec<RuleChange<'a>>, AllocError>
    requires kinds { All (IsKind (seen_sides sides)) kinds.now }
    requires lone { AreLoneOf (seen_sides sides) is_old (map seen_lone lone.now) }
    ensures { IfOk result (λ told. map seen_rule_change told.items
        ≡ map (told_of (seen_sides sides.entry) (paths_of_kinds kinds.now)) (map seen_lone lone.now)) }
{
    let mut told = Vec::with_capacity(alloc, lone.len())?;
    let mut rest = lone;
    while let [one, behind @ ..] = rest {
        told.push(RuleChange {
            lone: *one,
            change: first_change(alloc, sides, is_old, *one, kinds)?,
        })?;
        rest = behind;
    }
    Ok(told)
}
