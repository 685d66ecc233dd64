//! Which written rules decide nothing, over all paths.

ghost use Rattle.std.specs.Prelude.{◌≡◌, ◌++◌, ◌∷◌, [], IfOk, IfSome, None, OnOk, map};
ghost use Rattle.aa_glob_paths.specs.AllPaths.{TellAllPaths};
ghost use Rattle.aa_glob_paths.specs.TooMany.{AreMoreTextsThan};
ghost use Rattle.aa_explain_redundant.specs.Left.{numbered};
ghost use Rattle.aa_explain_redundant.specs.Seen.{seen_numbered, seen_written};
ghost use Rattle.aa_explain_redundant.specs.Answers.{IsAnswerOf};
ghost use Rattle.aa_explain_redundant.specs.Trying.{tried_patterns, trying_patterns};
ghost use Rattle.aa_explain_redundant.specs.code.Kinds.{trying_classes};

use crate::kinds::kinds_of;
use crate::trying::told_by;
use crate::written::{NumberedRule, WrittenRules, is_made_of, numbered};
use aa_decide_ready::{file_places, with_files};
use aa_explain_paths::{file_count, standing_paths, unasked_patterns};
use aa_glob::AutomatonBuilder;
use aa_glob_paths::{Outcome, outcomes_stand_for_all};
use aa_glob_pattern::Pattern;
use aa_profile_data::Rule;
use std::alloc::{AllocError, Global};

// Appends the pattern of a rule on files, if it was made of one of the written rules in `tried`.
fn push_tried(
    alloc: Global,
    tried: &[usize],
    one: NumberedRule<'_>,
    patterns: &mut Vec<Pattern>,
) -> Result<(), AllocError>
    ensures { OnOk result (patterns.new.items ≡ patterns.old.items ++ tried_patterns tried.now (seen_numbered one.entry ∷ [])) }
{
    if is_made_of(tried, one) {
        if let Rule::File(rule) = one.rule {
            patterns.push(rule.pattern.try_copy(alloc)?)?;
        }
    }
    Ok(())
}

/// The patterns of the rules on files that were made of the written rules in `tried`.
///
/// # Errors
///
/// Where memory runs out.
pub fn tried_patterns(
    alloc: Global,
    tried: &[usize],
    rules: &[NumberedRule<'_>],
) -> Result<Vec<Pattern>, AllocError>
    ensures { IfOk result (λ patterns. patterns.items ≡ tried_patterns tried.now (map seen_numbered rules.now)) }
{
    let mut patterns = Vec::new(alloc);
    let mut rest = rules;
    while let [one, behind @ ..] = rest {
        push_tried(alloc, tried, *one, &mut patterns)?;
        rest = behind;
    }
    Ok(patterns)
}

// Paths that stand for all that one of these patterns matches; `None` where they are too many.
fn trying_outcomes(
    alloc: Global,
    rules: WrittenRules<'_>,
    tried: &[usize],
    wanted: &[Pattern],
    limit: usize,
) -> Result<Option<Vec<Outcome>>, AllocError>
    requires { wanted.now ≡ tried_patterns tried.now (numbered (seen_written rules)) }
    ensures told { IfOk result (λ found. IfSome found (λ outcomes.
        TellAllPaths (trying_patterns (seen_written rules.entry) tried.now) (trying_classes (seen_written rules.entry) tried.now) outcomes.items)) }
    ensures full { IfOk result (λ found. found ≡ None → AreMoreTextsThan (trying_patterns (seen_written rules.entry) tried.now) limit) }
{
    let unasked = unasked_patterns(alloc)?;
    let none = AutomatonBuilder::new(alloc)?;
    let files = with_files(none, alloc, rules.rules)?;
    standing_paths(
        alloc,
        files,
        file_count(rules.rules),
        wanted,
        &unasked,
        limit,
    )
}

/// The numbers of those of some written rules that decide nothing, in the order in which they are tried: without them, all together, each path of
/// any bytes about which the kernel may ask is answered the same. That is: each letter of its file is answered the same in enforce mode, and logged
/// the same, for the task's user and for others; and the start of its program is denied or leads where it did. So any letters together are answered
/// the same, in whatever mode (`without_redundant_rules`). Of a written rule its rules on files are tried, all together: those on capabilities and
/// sockets stay, and a written rule without any on files isn't in the result. Why one decides nothing is answered by `example_of`.
///
/// They are tried one after another, in the order of `tried`, by the numbers of `rules.written`. One that decides nothing is taken away for those
/// after it: of two that are equal the one is in the result that is tried first. Where one isn't, some path is answered differently without it and
/// those in the result before it.
///
/// `None` where paths are too many: more than `limit` sets of states of the patterns' automaton would have to be looked at.
///
/// # Errors
///
/// Where memory runs out, and where there are more than 4,294,967,295 patterns or states.
pub fn redundant_rules(
    alloc: Global,
    rules: WrittenRules<'_>,
    tried: &[usize],
    limit: usize,
) -> Result<Option<Vec<usize>>, AllocError>
    ensures { IfOk result (IsAnswerOf (seen_written rules.entry) tried.now limit) }
{
    outcomes_stand_for_all();
    let each = numbered(alloc, rules)?;
    let wanted = tried_patterns(alloc, tried, &each)?;
    match trying_outcomes(alloc, rules, tried, &wanted, limit)? {
        None => Ok(None),
        Some(outcomes) => {
            let numbers = file_places(alloc, rules.rules)?;
            let kinds = kinds_of(alloc, &each, &numbers, outcomes)?;
            Ok(Some(told_by(alloc, rules.audit, tried, &each, &kinds)?))
        }
    }
}
