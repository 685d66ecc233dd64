//! Reading of the words after `diff`, by `clap`.
ghost use Rattle.std.specs.Prelude.{◌≡◌, IfOk, map, option_map, string_bytes};
ghost use Rattle.aa_start.specs.Given.{IsGivenFor};
ghost use Rattle.aa_start.specs.Texts.{words_of};
ghost use Rattle.aatry_arguments.specs.DiffWords.{asked_by, asked_diff, asked_of, comparison_of, comparison_with, given_with, source_of};
ghost use Rattle.aatry_arguments.specs.Given.{meant_comparison, meant_source};

use crate::arguments::{Comparison, RequestSource};
use crate::diff_line::diff_command;
use crate::faults::passed_on;
use crate::flags::{is_given, without_flag};
use aa_start::{ArgumentFault, parse};
use std::alloc::{AllocError, Global};

/// The flag that asks for how much differs.
pub const STAT: &str = "--stat";

/// The help on `diff`.
pub const HELP: &str = "\
Compares two policy directories: which profiles differ, and what they answer differently

Usage: aatry diff OLD NEW
       aatry diff OLD NEW --log FILE
       aatry diff OLD NEW --questions FILE
       aatry diff --all OLD NEW [WHO]..

Arguments:
  OLD      A policy directory
  NEW      The policy directory that is to replace it
  [WHO]..  Full names of profiles, children or hats (default: all)

Options:
  --log <FILE>        A log of requests, such as audit.log or syslog
  --questions <FILE>  A file of questions, one per line, in the words after ask of aaset
  --stat              Prints how many lines of each profile differ, not which; with --all, a word
                      for how the answers of each change, not which
  --all               Compares the answers for all paths, capabilities and sockets
  --quiet-audit       With --all, counts answers that differ only in how they are logged as the same
  --limit <N>         With --all, the most sets of states to look at for each WHO (default: 262144)
  --verbose           First lists each file that is left out, and why
  --json              Prints JSON records, one per line
  -h, --help          Prints help

Only one FILE can be given, and none with --all. If an option is repeated, the last one counts.

All files below OLD and NEW are read as by check. Files at their tops that are refused are left out,
and their number is reported on standard error. For each profile, child and hat that differs one of
these is printed:
  gone: NAME     Only OLD has it
  changed: NAME  Both have it. The lines only in OLD follow, after -, and those only in NEW, after +,
                 each with FILE:LINE:COLUMN: where it is written
  new: NAME      Only NEW has it
Before these comes each file of NEW that is newly left out, with none of its name left out of OLD:
  newly left out: FILE: NUMBER NAME: WORDS
For each question in FILE that they answer differently this is printed, followed by the rules that
only OLD or only NEW answers by:
  QUESTION: ANSWER OF OLD -> ANSWER OF NEW (HOW OFTEN IT OCCURS)
The last line counts the lines, requests and questions of FILE, and the answers that differ.

With --all, not the lines of profiles are compared, but the answers of OLD and NEW to every request:
for each path, each capability, and each pair of a socket domain and type, all as in enforce mode.
For each WHO with an answer that differs one of these is printed:
  wider: NAME      Something is newly allowed, and nothing is no longer allowed
  narrower: NAME   The reverse; and both: NAME for both
  otherwise: NAME  Something is logged or denied differently, or the mode changes
  gone: NAME       Only OLD has it; new: NAME, only NEW has; absent: NAME, neither has
  too many: NAME   There are more sets of states than the limit
What changes follows: the mode; each file rule only in OLD, after -, or only in NEW, after +, with a
shortest path on which it changes an answer, or that it changes nothing; each capability; and each
pair of a socket domain and type. The last line counts them.

Exit status:
  0  Nothing differs, or help was requested; with --all, no profile of both answers any path,
     capability or socket differently, and none is new or gone
  1  Some profile differs, some question is answered differently, or a file is newly left out; with
     --all, whenever the status is none of the others
  2  Bad arguments, or FILE, OLD or NEW, or something below these, can't be read
  3  A write failed, or memory ran out; with --all, also if there are too many sets for some
     profile, which is named
";

// Where requests come from, if they do; `None` where both a log and a file of questions are given.
fn source_by(
    alloc: Global,
    log: Option<&str>,
    questions: Option<&str>,
) -> Result<Option<Option<RequestSource>>, AllocError>
    ensures { IfOk result (λ source. option_map (option_map meant_source) source
        ≡ source_of (option_map (λ path. path.now) log.entry) (option_map (λ path. path.now) questions.entry)) }
{
    match (log, questions) {
        (None, None) => Ok(Some(None)),
        (Some(path), None) => Ok(Some(Some(RequestSource::Log(String::from_str(alloc, path)?)))),
        (None, Some(path)) => Ok(Some(Some(RequestSource::Questions(String::from_str(
            alloc, path,
        )?)))),
        (Some(_), Some(_)) => Ok(None),
    }
}

// The comparison of these folders by requests from this source.
fn compared(
    alloc: Global,
    old: &str,
    new: &str,
    source: Option<RequestSource>,
    stat: bool,
) -> Result<Comparison, AllocError>
    ensures { IfOk result (λ comparison. meant_comparison comparison ≡ comparison_with old.now new.now (option_map meant_source source) stat) }
{
    Ok(Comparison {
        old: String::from_str(alloc, old)?,
        new: String::from_str(alloc, new)?,
        source,
        stat,
    })
}

// The comparison of what words give, if they give one.
fn comparison_by(
    alloc: Global,
    log: Option<&str>,
    questions: Option<&str>,
    folders: &[&str],
    stat: bool,
) -> Result<Option<Comparison>, AllocError>
    ensures { IfOk result (λ comparison. option_map meant_comparison comparison ≡ comparison_of stat (given_with
        (option_map (λ path. path.now) log.entry) (option_map (λ path. path.now) questions.entry) (words_of folders.now))) }
{
    match folders {
        [old, new] => match source_by(alloc, log, questions)? {
            Some(source) => Ok(Some(compared(alloc, old, new, source, stat)?)),
            None => Ok(None),
        },
        _ => Ok(None),
    }
}

// The comparison of what words give; a fault where they give none.
fn comparison_or_fault(
    alloc: Global,
    log: Option<&str>,
    questions: Option<&str>,
    folders: &[&str],
    stat: bool,
) -> Result<Comparison, ArgumentFault>
    ensures { IsGivenFor meant_comparison (asked_of stat (given_with
        (option_map (λ path. path.now) log.entry) (option_map (λ path. path.now) questions.entry) (words_of folders.now))) result }
{
    match comparison_by(alloc, log, questions, folders, stat) {
        Ok(Some(comparison)) => Ok(comparison),
        Ok(None) => Err(ArgumentFault::Bad),
        Err(_) => Err(ArgumentFault::Memory),
    }
}

// The comparison that words without the flag ask for.
fn diff_by(alloc: Global, words: &[String], stat: bool) -> Result<Comparison, ArgumentFault>
    ensures { IsGivenFor meant_comparison (asked_by stat (map string_bytes words.now)) result }
{
    let command = match diff_command(alloc) {
        Ok(command) => command,
        Err(_) => return Err(ArgumentFault::Memory),
    };
    let matches = match parse(alloc, command, words) {
        Ok(matches) => matches,
        Err(fault) => return Err(passed_on(alloc, fault, HELP)),
    };
    let log = matches.get_str("LOG");
    let questions = matches.get_str("QUESTIONS");
    let folders = matches.get_strs("FOLDER").unwrap_or(&[]);
    comparison_or_fault(alloc, log, questions, folders, stat)
}

/// The comparison that words after `diff` ask for.
///
/// # Errors
///
/// Of the words without the flag `--stat`:
/// - `Help` where the first option other than `--log` and `--questions` is `--help` or `-h`, with or without other letters after `-h`.
/// - `Bad` where it is any other, or where `--log` or `--questions` comes before it without a path. Where there is no such option, and `--log` or
///   `--questions` has no path, there aren't exactly two folders, or both a log and a file of questions are given.
/// - `Memory` where memory ran out.
pub fn diff_of(alloc: Global, words: &[String]) -> Result<Comparison, ArgumentFault>
    ensures { IsGivenFor meant_comparison (asked_diff (map string_bytes words.now)) result }
{
    let stat = is_given(STAT, words);
    match without_flag(alloc, STAT, words) {
        Ok(others) => diff_by(alloc, &others, stat),
        Err(_) => Err(ArgumentFault::Memory),
    }
}
