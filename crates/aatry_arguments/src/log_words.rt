//! Reading of the words after `log`: except for what only `log` has, like those after `check`.
ghost use Rattle.std.specs.Prelude.{◌≡◌, IfOk, map, option_map, string_bytes};
ghost use Rattle.aa_start.specs.Given.{IsGivenFor};
ghost use Rattle.aa_start.specs.Options.{ForThis, asked_then};
ghost use Rattle.aatry_arguments.specs.CheckWords.{asked_check};
ghost use Rattle.aatry_arguments.specs.Given.{meant_check, meant_lines, meant_logs, meant_telling};
ghost use Rattle.aatry_arguments.specs.LogWords.{asked_logs, asked_named, logs_of, named_in, named_with, since_of, telling_in, without_flags};
ghost use Rattle.aatry_arguments.specs.SeenValues.{seen_value};
ghost use Rattle.aatry_arguments.specs.code.LogNamed.{seen_named};

use crate::arguments::{Check, LogLines, LogTelling, Logs};
use crate::check_words::check_of;
use crate::faults::passed_on;
use crate::flags::{is_given, without_flag};
use crate::values::{NamedOption, WithValue, value_of};
use aa_start::ArgumentFault;
use aatry_words::time_named;
use std::alloc::{AllocError, Global};

// The flag that asks for a status that shows lines without an answer.
const STRICT: &str = "--strict";

// The flag that asks for rules that can be pasted.
const RULES: &str = "--rules";

// The flag that asks for wider rules beside these.
const GLOBS: &str = "--globs";

// The flag that asks for requests that were denied.
const DENIED: &str = "--denied";

// The help on `log`.
const HELP: &str = "\
Asks the policy what the lines of a log asked, and prints its answers now

Usage: aatry log [OPTIONS] [FILE]..

Arguments:
  [FILE]..  The path of a log, such as audit.log, syslog or the output of journalctl, also with
            -o json; - is standard input, which is the default

Options:
  -b <DIR>          The policy directory (default: /etc/apparmor.d)
  --denied          Skips lines with a request that isn't logged as DENIED
  --profile <NAME>  Skips lines in which the profile that asks is named, and is neither the one with
                    the full name NAME nor one of its children and hats
  --since <WHEN>    Skips lines stamped before WHEN: @SECONDS since 1970, or in UTC
                    \"YYYY-MM-DD\", \"YYYY-MM-DD HH:MM\" or \"YYYY-MM-DD HH:MM:SS\"
  --rules           Prints the rules to add, ready to paste, instead of the answers
  --globs           With --rules, also offers a wider rule, as a comment, where the path has a home
                    directory, the number of a process, another number, or a hash
  --strict          Exits with 1 if a line can't be read, or if the profile that asks doesn't exist
  --verbose         First lists each file that is left out, and why
  --json            Prints JSON records, one per line
  -h, --help        Prints help

If an option is repeated, the last one counts.

All files below DIR are read as by check. Files at its top that are refused are left out, and their
number is reported on standard error. Each request of the logs is printed once, the most frequent
first: how often it occurs, when first and last in UTC, and the question that it asks, followed by
the answer of DIR now and the rules behind it, as by why. Then come the first ten lines that can't
be read, each after its FILE and number. The last line counts the lines, requests and questions, the
profiles that ask and don't exist, requests that no question asks, lines that can't be read, and
lines that are passed over.

With --rules, each profile is followed by the rules that would allow those of its requests that lack
something now, one per path. Before them come, as comments, up to five abstractions of DIR that
would allow some; after them, each request that a rule denies, and each path whose rule can't be
added or written. Review the rules before you paste them.

Exit status:
  0  The logs were read, or help was requested
  1  With --strict: a line couldn't be read, or the profile that asks doesn't exist
  2  Bad arguments, or a FILE, DIR, or a file or directory below it, can't be read
  3  A read or write failed, or memory ran out
";

// The options that take a value: a profile's name, and a time.
const PROFILE: NamedOption = NamedOption {
    word: "--profile",
    opening: "--profile=",
};

const SINCE: NamedOption = NamedOption {
    word: "--since",
    opening: "--since=",
};

// The profile and the time that words name, if they name any, and the other words.
#[derive(Drop)]
pub struct LogNamed {
    pub profile: Option<Vec<u8>>,
    pub since: Option<u64>,
    pub words: Vec<String>,
}

// The time that a word names, where there is one; `None` where it names no time.
fn since_of(word: &Option<Vec<u8>>) -> Option<Option<u64>>
    ensures { result ≡ since_of (option_map (λ word. word.items) word.now) }
{
    match word {
        None => Some(None),
        Some(word) => Some(Some(time_named(word)?)),
    }
}

// The profile that is named, with the time that words name.
fn named_with(profile: Option<Vec<u8>>, read: Option<WithValue>) -> Option<LogNamed>
    ensures { option_map seen_named result ≡ named_with (option_map (λ name. name.items) profile) (option_map seen_value read) }
{
    let WithValue { value, words } = read?;
    let since = since_of(&value)?;
    Some(LogNamed {
        profile,
        since,
        words,
    })
}

// What words name.
fn named_in(alloc: Global, words: &[String]) -> Result<Option<LogNamed>, AllocError>
    ensures { IfOk result (λ named. option_map seen_named named ≡ named_in (map string_bytes words.now)) }
{
    match value_of(alloc, PROFILE, words)? {
        None => Ok(None),
        Some(WithValue { value, words }) => Ok(named_with(value, value_of(alloc, SINCE, &words)?)),
    }
}

// The logs of words that were read as a check.
fn logs_with(check: Check, telling: LogTelling, lines: LogLines) -> Logs
    ensures { ForThis (meant_logs result) ≡ logs_of (meant_telling telling) (meant_lines lines) (meant_check check) }
{
    let Check { base, names: paths } = check;
    Logs {
        base,
        paths,
        telling,
        lines,
    }
}

// The logs of words without what only `log` has.
fn logs_by(
    alloc: Global,
    words: &[String],
    telling: LogTelling,
    lines: LogLines,
) -> Result<Logs, ArgumentFault>
    ensures { IsGivenFor meant_logs (asked_then (logs_of (meant_telling telling) (meant_lines lines)) (asked_check (map string_bytes words.now))) result }
{
    match check_of(alloc, words) {
        Ok(check) => Ok(logs_with(check, telling, lines)),
        Err(fault) => Err(passed_on(alloc, fault, HELP)),
    }
}

// How words ask for the requests to be reported.
fn telling_in(words: &[String]) -> LogTelling
    ensures { meant_telling result ≡ telling_in (map string_bytes words.now) }
{
    LogTelling {
        strict: is_given(STRICT, words),
        rules: is_given(RULES, words),
        globs: is_given(GLOBS, words),
    }
}

// Words without the flags.
fn without_flags(alloc: Global, words: &[String]) -> Result<Vec<String>, AllocError>
    ensures { IfOk result (λ others. map string_bytes others.items ≡ without_flags (map string_bytes words.now)) }
{
    let others = without_flag(alloc, STRICT, words)?;
    let others = without_flag(alloc, RULES, &others)?;
    let others = without_flag(alloc, GLOBS, &others)?;
    without_flag(alloc, DENIED, &others)
}

// The logs that words ask for beside the profile and the time that they name.
fn logs_named(alloc: Global, named: LogNamed) -> Result<Logs, ArgumentFault>
    ensures { IsGivenFor meant_logs (asked_named (seen_named named)) result }
{
    let LogNamed {
        profile,
        since,
        words,
    } = named;
    let telling = telling_in(&words);
    let lines = LogLines {
        denied: is_given(DENIED, &words),
        profile,
        since,
    };
    match without_flags(alloc, &words) {
        Ok(others) => logs_by(alloc, &others, telling, lines),
        Err(_) => Err(ArgumentFault::Memory),
    }
}

/// The logs that words after `log` ask for.
///
/// # Errors
///
/// - `Bad` where `--profile` or `--since` has no value, or that of `--since` names no time (`aatry_words::time_named`).
/// - Those of `check_of`, of the words without the options that only `log` has.
#[tactic(auto, unfolding(crate::specs::LogWords::asked_logs))]
pub fn logs_of(alloc: Global, words: &[String]) -> Result<Logs, ArgumentFault>
    ensures { IsGivenFor meant_logs (asked_logs (map string_bytes words.now)) result }
{
    match named_in(alloc, words) {
        Ok(Some(named)) => logs_named(alloc, named),
        Ok(None) => Err(ArgumentFault::Bad),
        Err(_) => Err(ArgumentFault::Memory),
    }
}
