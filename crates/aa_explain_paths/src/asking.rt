//! Claims about all paths, decided.

ghost use Rattle.std.specs.Prelude.{◌≡◌, IfOk, length, option_map};
ghost use Rattle.std.specs.List.{All};
ghost use Rattle.aa_glob_paths.specs.AllPaths.{IsOutcome};
ghost use Rattle.aa_profile_data.specs.FileRules.{places_from};
ghost use Rattle.aa_explain_paths.specs.Answers.{IsAnswer, IsAnswerBy, seen_breaking};
ghost use Rattle.aa_explain_paths.specs.Matched.{AreMatched};
ghost use Rattle.aa_explain_paths.specs.Meant.{unasked_patterns};
ghost use Rattle.aa_explain_paths.specs.SeenAsked.{seen_asked};
ghost use Rattle.aa_explain_paths.specs.Telling.{all_classes, telling_patterns};
ghost use Rattle.aa_explain_paths.specs.code.Breaking.{answer_of, breaking_at, breaking_with, first_break, says_otherwise, seen_answer};

use crate::letting::{breaking_letters, breaks_for, first_owner};
use crate::matched::MatchedRules;
use crate::patterns::{file_count, standing_paths, unasked_patterns};
use crate::question::{Breaking, PathAnswer, PathQuestion};
use crate::relevant::relevant_rules;
use aa_decide_ready::{file_places, picked, with_files};
use aa_glob::AutomatonBuilder;
use aa_glob_paths::{Outcome, outcomes_stand_for_all};
use aa_profile_data::{Perms, Rule, which_rules_match};
use std::alloc::{AllocError, Global};

// Whose file of a path breaks a claim, and by which letters, if it does.
fn broken_by(question: PathQuestion<'_>, matched: MatchedRules<'_>) -> Option<(bool, Perms)>
    requires { AreMatched matched }
    ensures { option_map (λ told. breaking_with matched.entry.path.now told.0 told.1.0) result
        ≡ breaking_at matched.entry.rules.now (seen_asked question.entry) matched.entry.path.now }
{
    if !breaks_for(question.claim, matched, question.letters, question.whose) {
        return None;
    }
    let owned = first_owner(question.claim, matched, question.letters, question.whose);
    let letters = breaking_letters(question.claim, matched, question.letters, owned);
    Some((owned, letters))
}

// The path of an outcome, if it breaks a claim, by the rules that match it: no pattern of a rule is tried.
fn breaking_at(
    alloc: Global,
    rules: &[Rule],
    numbers: &[usize],
    question: PathQuestion<'_>,
    outcome: Outcome,
) -> Result<Option<Breaking>, AllocError>
    requires numbers { numbers.now ≡ places_from 0 rules.now }
    requires outcome { IsOutcome (telling_patterns rules.now question.patterns.now unasked_patterns) (all_classes rules.now question.patterns.now unasked_patterns) outcome }
    ensures { IfOk result (λ found. option_map seen_breaking found ≡ breaking_at rules.now (seen_asked question.entry) outcome.path.items) }
{
    which_rules_match();
    let Outcome {
        places: found,
        path,
    } = outcome;
    let places = picked(alloc, numbers, &found)?;
    let matched = MatchedRules {
        rules,
        places: &places,
        path: &path,
    };
    match broken_by(question, matched) {
        None => Ok(None),
        Some((owned, letters)) => Ok(Some(Breaking {
            path,
            owned,
            letters,
        })),
    }
}

// The answer by paths that stand for all: the first of them that breaks the claim, if one does.
fn answer_by(
    alloc: Global,
    rules: &[Rule],
    question: PathQuestion<'_>,
    found: Vec<Outcome>,
) -> Result<PathAnswer, AllocError>
    requires { All (IsOutcome (telling_patterns rules.now question.patterns.now unasked_patterns) (all_classes rules.now question.patterns.now unasked_patterns)) found.items }
    ensures { IfOk result (λ answer. seen_answer answer ≡ answer_of rules.now (seen_asked question.entry) (length found.items)
        (first_break (says_otherwise rules.now (seen_asked question.entry)) found.items)) }
{
    let numbers = file_places(alloc, rules)?;
    let count = found.len();
    for outcome in found {
        match breaking_at(alloc, rules, &numbers, question, outcome)? {
            Some(breaking) => return Ok(PathAnswer::Fails(breaking)),
            None => {}
        }
    }
    Ok(PathAnswer::Holds(count))
}

// The answer by the relevant rules.
fn ask_relevant(
    alloc: Global,
    relevant: &[Rule],
    question: PathQuestion<'_>,
    limit: usize,
) -> Result<PathAnswer, AllocError>
    ensures { IfOk result (IsAnswerBy relevant.now relevant.now (seen_asked question.entry) limit) }
{
    outcomes_stand_for_all();
    let unasked = unasked_patterns(alloc)?;
    let none = AutomatonBuilder::new(alloc)?;
    let files = with_files(none, alloc, relevant)?;
    let found = standing_paths(
        alloc,
        files,
        file_count(relevant),
        question.patterns,
        &unasked,
        limit,
    )?;
    match found {
        None => Ok(PathAnswer::TooMany),
        Some(paths) => answer_by(alloc, relevant, question, paths),
    }
}

/// Whether a claim holds of all paths of any bytes that patterns match, as far as the kernel may ask about them: by what some rules allow of the
/// files of these paths in enforce mode (`aa_decide_rules::rules_verdict`). A directory's path ends with `/`, and is a path. The kernel asks about
/// none with two adjacent slashes, and none with a component `.` or `..`. Where the claim fails, the result has one of the shortest paths for which
/// it does. Where it holds, the result has the number of kinds of those paths about which the kernel may ask.
///
/// No path is left out: each is matched by the same patterns as one of those that are looked at, which is no longer. Only the patterns of relevant
/// rules are used: those that cover one of the letters, of a file that is meant. Where more than `limit` sets of states of the patterns' automaton
/// would have to be looked at, the result is `TooMany`.
///
/// It takes time and memory for each of these sets and each of its states, and time for each of the paths that stand for all and each rule that
/// matches it.
///
/// # Errors
///
/// Where memory runs out.
pub fn ask_all_paths(
    alloc: Global,
    rules: &[Rule],
    question: PathQuestion<'_>,
    limit: usize,
) -> Result<PathAnswer, AllocError>
    ensures { IfOk result (IsAnswer rules.now (seen_asked question.entry) limit) }
{
    let relevant = relevant_rules(alloc, rules, question.letters, question.whose)?;
    ask_relevant(alloc, &relevant, question, limit)
}
