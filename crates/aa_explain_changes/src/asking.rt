//! What a change of rules changes, over all paths.

ghost use Rattle.std.specs.Prelude.{◌≡◌, ◌++◌, IfOk, IfSome, None, false, map, true};
ghost use Rattle.std.specs.List.{All};
ghost use Rattle.aa_explain_changes.specs.FileChanges.{AreChangesOf, changing_patterns};
ghost use Rattle.aa_glob_paths.specs.AllPaths.{TellAllPaths};
ghost use Rattle.aa_glob_paths.specs.TooMany.{AreMoreTextsThan};
ghost use Rattle.aa_explain_changes.specs.Lone.{all_count, lone_patterns, new_lone, old_lone, patterns_of, seen_lone};
ghost use Rattle.aa_explain_changes.specs.Sides.{seen_sides};
ghost use Rattle.aa_explain_changes.specs.code.Kinds.{AreLoneOf, AreToldBy, IsKind, changing_classes, paths_of_kinds};

use crate::change::Change;
use crate::kinds::{Kind, kinds_of, some_change_so};
use crate::laws::changed_rules_decide;
use crate::lone::{LoneRule, lone_rules, push_patterns};
use crate::rules::{RuleChange, rule_changes};
use crate::sides::Sides;
use aa_decide_ready::with_files;
use aa_explain_paths::{file_count, standing_paths, unasked_patterns};
use aa_glob::AutomatonBuilder;
use aa_glob_paths::{Outcome, outcomes_stand_for_all};
use aa_glob_pattern::Pattern;
use std::alloc::{AllocError, Global};

/// What a change of rules changes, of all paths.
#[derive(Drop)]
pub struct FileChanges<'a> {
    /// The rules on files that only the old side has, in their order, and what each of them changes.
    pub old: Vec<RuleChange<'a>>,
    /// The rules on files that only the new side has, in their order, and what each of them changes.
    pub new: Vec<RuleChange<'a>>,
    /// Whether some letter of some path is allowed now that wasn't before.
    pub gained: bool,
    /// Whether some letter of some path isn't allowed any more that was before.
    pub lost: bool,
}

// The rules that only one side has, for both sides.
#[derive(Drop)]
struct Lone<'a> {
    old: Vec<LoneRule<'a>>,
    new: Vec<LoneRule<'a>>,
}

// Whether each rule counts: where the rules of only one side are audited.
fn all_count(sides: Sides<'_>) -> bool
    ensures { result ≡ all_count (seen_sides sides.entry) }
{
    sides.old.audit != sides.new.audit
}

// The rules that only one side has, for both sides.
fn lone_of<'a>(alloc: Global, sides: Sides<'a>) -> Result<Lone<'a>, AllocError>
    ensures old { IfOk result (λ lone. map seen_lone lone.old.items ≡ old_lone (seen_sides sides.entry)) }
    ensures new { IfOk result (λ lone. map seen_lone lone.new.items ≡ new_lone (seen_sides sides.entry)) }
{
    let all = all_count(sides);
    let old = lone_rules(alloc, all, sides.new.rules, sides.old.rules)?;
    let new = lone_rules(alloc, all, sides.old.rules, sides.new.rules)?;
    Ok(Lone { old, new })
}

// The patterns of the rules that only one side has.
fn patterns_of(alloc: Global, lone: &Lone<'_>) -> Result<Vec<Pattern>, AllocError>
    ensures { IfOk result (λ patterns. patterns.items ≡ patterns_of (map seen_lone lone.now.old.items) ++ patterns_of (map seen_lone lone.now.new.items)) }
{
    let mut patterns = Vec::new(alloc);
    push_patterns(alloc, &lone.old, &mut patterns)?;
    push_patterns(alloc, &lone.new, &mut patterns)?;
    Ok(patterns)
}

// Paths that stand for all that one of these patterns matches, by the rules of both sides; `None` where they are too many.
fn changing_outcomes(
    alloc: Global,
    sides: Sides<'_>,
    wanted: &[Pattern],
    limit: usize,
) -> Result<Option<Vec<Outcome>>, AllocError>
    requires { wanted.now ≡ lone_patterns (seen_sides sides) }
    ensures told { IfOk result (λ found. IfSome found (λ outcomes.
        TellAllPaths (changing_patterns (seen_sides sides.entry)) (changing_classes (seen_sides sides.entry)) outcomes.items)) }
    ensures full { IfOk result (λ found. found ≡ None → AreMoreTextsThan (changing_patterns (seen_sides sides.entry)) limit) }
{
    let unasked = unasked_patterns(alloc)?;
    let none = AutomatonBuilder::new(alloc)?;
    let before = with_files(none, alloc, sides.old.rules)?;
    let both = with_files(before, alloc, sides.new.rules)?;
    let Some(count) = file_count(sides.old.rules).checked_add(file_count(sides.new.rules)) else {
        return Err(AllocError);
    };
    standing_paths(alloc, both, count, wanted, &unasked, limit)
}

// The changes by these kinds of paths.
fn told_by<'a>(
    alloc: Global,
    sides: Sides<'_>,
    lone: &Lone<'a>,
    kinds: &[Kind],
) -> Result<FileChanges<'a>, AllocError>
    requires kinds { All (IsKind (seen_sides sides)) kinds.now }
    requires old { AreLoneOf (seen_sides sides) true (map seen_lone lone.now.old.items) }
    requires new { AreLoneOf (seen_sides sides) false (map seen_lone lone.now.new.items) }
    ensures { IfOk result (AreToldBy (seen_sides sides.entry) (paths_of_kinds kinds.now) (map seen_lone lone.now.old.items) (map seen_lone lone.now.new.items)) }
{
    Ok(FileChanges {
        old: rule_changes(alloc, sides, true, &lone.old, kinds)?,
        new: rule_changes(alloc, sides, false, &lone.new, kinds)?,
        gained: some_change_so(kinds, Change::Gained),
        lost: some_change_so(kinds, Change::Lost),
    })
}

/// What a change of rules changes, over all paths of any bytes, as far as the kernel may ask about them (`aa_explain_paths::ask_all_paths`): by the
/// answers of each side in enforce mode to each letter, of the files of the task's user and of others. For each rule on files that only one side
/// has, the result has a shortest path on which answers change in which the rule takes part, as it covers a letter whose answer changes; and whether
/// anything is allowed now that wasn't, or isn't any more. No change of an answer is left out: on its path some rule takes part that only one side
/// has (`changed_rules_decide`).
///
/// `None` where paths are too many: more than `limit` sets of states of the patterns' automaton would have to be looked at. Where neither side has a
/// rule on files alone, no automaton is built.
///
/// # Errors
///
/// Where memory runs out, and where there are more than 4,294,967,295 patterns or states.
pub fn changes_of_files<'a>(
    alloc: Global,
    sides: Sides<'a>,
    limit: usize,
) -> Result<Option<FileChanges<'a>>, AllocError>
    ensures { IfOk result (AreChangesOf (seen_sides sides.entry) limit) }
{
    outcomes_stand_for_all();
    changed_rules_decide();
    let lone = lone_of(alloc, sides)?;
    let wanted = patterns_of(alloc, &lone)?;
    if wanted.is_empty() {
        return Ok(Some(told_by(alloc, sides, &lone, &[])?));
    }
    match changing_outcomes(alloc, sides, &wanted, limit)? {
        None => Ok(None),
        Some(outcomes) => {
            let kinds = kinds_of(alloc, sides, outcomes)?;
            Ok(Some(told_by(alloc, sides, &lone, &kinds)?))
        }
    }
}
