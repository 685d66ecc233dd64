//! Reading of the words after `diff`, with the flag `--all` among them or without it.
ghost use Rattle.std.specs.Prelude.{◌≡◌, IfOk, map, option_map, string_bytes};
ghost use Rattle.aa_start.specs.Given.{IsGivenFor};
ghost use Rattle.aa_start.specs.Texts.{words_of};
ghost use Rattle.aatry_arguments.specs.Arguments.{asked_diffs};
ghost use Rattle.aatry_arguments.specs.DiffAllWords.{asked_all, asked_by, asked_limited, asked_of, compared_for, path_comparison_of, path_comparison_with, without_flags};
ghost use Rattle.aatry_arguments.specs.DiffWords.{given_with};
ghost use Rattle.aatry_arguments.specs.Given.{meant_command, meant_path_comparison};
ghost use Rattle.aatry_arguments.specs.code.PathsLimited.{seen_limited};

use crate::arguments::{Command, PathComparison};
use crate::diff_line::diff_command;
use crate::diff_words::{HELP, STAT, diff_of};
use crate::faults::passed_on;
use crate::flags::{is_given, without_flag};
use crate::paths_words::{PathsLimited, limited_in};
use aa_start::{ArgumentFault, copied, parse};
use std::alloc::{AllocError, Global};

// The flag that asks for all paths.
const ALL: &str = "--all";

// The flag by which differences in what is logged don't count.
const QUIET_AUDIT: &str = "--quiet-audit";

// The comparison of these folders, for the profiles of these names.
fn compared_with(
    alloc: Global,
    old: &str,
    new: &str,
    who: &[&str],
    stat: bool,
    quiet_audit: bool,
    limit: usize,
) -> Result<PathComparison, AllocError>
    ensures { IfOk result (λ comparison. meant_path_comparison comparison
        ≡ path_comparison_with old.now new.now (words_of who.now) stat quiet_audit limit) }
{
    Ok(PathComparison {
        old: String::from_str(alloc, old)?,
        new: String::from_str(alloc, new)?,
        who: copied(alloc, who)?,
        stat,
        quiet_audit,
        limit,
    })
}

// The comparison of the first two words that are no options, for the names after them; `None` where there are fewer than two.
fn compared_for(
    alloc: Global,
    words: &[&str],
    stat: bool,
    quiet_audit: bool,
    limit: usize,
) -> Result<Option<PathComparison>, AllocError>
    ensures { IfOk result (λ comparison. option_map meant_path_comparison comparison ≡ compared_for stat quiet_audit limit (words_of words.now)) }
{
    match words {
        [] => Ok(None),
        [_] => Ok(None),
        [old, new, who @ ..] => Ok(Some(compared_with(
            alloc,
            old,
            new,
            who,
            stat,
            quiet_audit,
            limit,
        )?)),
    }
}

// The comparison of what words give, if they give one.
fn path_comparison_by(
    alloc: Global,
    log: Option<&str>,
    questions: Option<&str>,
    words: &[&str],
    stat: bool,
    quiet_audit: bool,
    limit: usize,
) -> Result<Option<PathComparison>, AllocError>
    ensures { IfOk result (λ comparison. option_map meant_path_comparison comparison ≡ path_comparison_of stat quiet_audit limit (given_with
        (option_map (λ path. path.now) log.entry) (option_map (λ path. path.now) questions.entry) (words_of words.now))) }
{
    match (log, questions) {
        (None, None) => compared_for(alloc, words, stat, quiet_audit, limit),
        (Some(_), _) => Ok(None),
        (None, Some(_)) => Ok(None),
    }
}

// The comparison of what words give; a fault where they give none.
fn path_comparison_or_fault(
    alloc: Global,
    log: Option<&str>,
    questions: Option<&str>,
    words: &[&str],
    stat: bool,
    quiet_audit: bool,
    limit: usize,
) -> Result<PathComparison, ArgumentFault>
    ensures { IsGivenFor meant_path_comparison (asked_of stat quiet_audit limit (given_with
        (option_map (λ path. path.now) log.entry) (option_map (λ path. path.now) questions.entry) (words_of words.now))) result }
{
    match path_comparison_by(alloc, log, questions, words, stat, quiet_audit, limit) {
        Ok(Some(comparison)) => Ok(comparison),
        Ok(None) => Err(ArgumentFault::Bad),
        Err(_) => Err(ArgumentFault::Memory),
    }
}

// The comparison that words without the flags and without the limit ask for.
fn all_by(
    alloc: Global,
    words: &[String],
    stat: bool,
    quiet_audit: bool,
    limit: usize,
) -> Result<PathComparison, ArgumentFault>
    ensures { IsGivenFor meant_path_comparison (asked_by stat quiet_audit limit (map string_bytes words.now)) result }
{
    let command = match diff_command(alloc) {
        Ok(command) => command,
        Err(_) => return Err(ArgumentFault::Memory),
    };
    let matches = match parse(alloc, command, words) {
        Ok(matches) => matches,
        Err(fault) => return Err(passed_on(alloc, fault, HELP)),
    };
    let log = matches.get_str("LOG");
    let questions = matches.get_str("QUESTIONS");
    let others = matches.get_strs("FOLDER").unwrap_or(&[]);
    path_comparison_or_fault(alloc, log, questions, others, stat, quiet_audit, limit)
}

// The words without the two flags.
fn without_flags(alloc: Global, words: &[String]) -> Result<Vec<String>, AllocError>
    ensures { IfOk result (λ others. map string_bytes others.items ≡ without_flags (map string_bytes words.now)) }
{
    let others = without_flag(alloc, STAT, words)?;
    without_flag(alloc, QUIET_AUDIT, &others)
}

// The comparison that words ask for beside the limit that they name.
fn all_limited(alloc: Global, limited: PathsLimited) -> Result<PathComparison, ArgumentFault>
    ensures { IsGivenFor meant_path_comparison (asked_limited (seen_limited limited)) result }
{
    let PathsLimited { limit, words } = limited;
    let stat = is_given(STAT, &words);
    let quiet_audit = is_given(QUIET_AUDIT, &words);
    match without_flags(alloc, &words) {
        Ok(others) => all_by(alloc, &others, stat, quiet_audit, limit),
        Err(_) => Err(ArgumentFault::Memory),
    }
}

// The comparison that words after `diff` ask for beside the flag `--all`.
#[tactic(auto, unfolding(crate::specs::DiffAllWords::asked_all))]
fn all_of(alloc: Global, words: &[String]) -> Result<PathComparison, ArgumentFault>
    ensures { IsGivenFor meant_path_comparison (asked_all (map string_bytes words.now)) result }
{
    match limited_in(alloc, words) {
        Ok(Some(limited)) => all_limited(alloc, limited),
        Ok(None) => Err(ArgumentFault::Bad),
        Err(_) => Err(ArgumentFault::Memory),
    }
}

/// The comparison that words after `diff` ask for: for all paths where the flag `--all` is among them, and else of profiles and requests.
///
/// # Errors
///
/// Those of `diff_of` where no word is the flag. Where one is, of the words without it:
/// - `Bad` where `--limit` has no value, or one that isn't a number of digits below 253,402,300,800.
/// - Of the rest without the flags `--stat` and `--quiet-audit`, those of `diff_of`, except that `Bad` comes wherever a log or a file of questions
///   is given, or there are fewer than two words that are no options.
pub fn diffs_of(alloc: Global, words: &[String]) -> Result<Command, ArgumentFault>
    ensures { IsGivenFor meant_command (asked_diffs (map string_bytes words.now)) result }
{
    if !is_given(ALL, words) {
        return diff_of(alloc, words).map(Command::Diff);
    }
    match without_flag(alloc, ALL, words) {
        Ok(others) => all_of(alloc, &others).map(Command::DiffAll),
        Err(_) => Err(ArgumentFault::Memory),
    }
}
