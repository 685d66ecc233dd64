//! Reading of the arguments: which command is meant, and its words.
ghost use Rattle.std.specs.Prelude.{map, string_bytes};
ghost use Rattle.aatry_arguments.specs.Arguments.{asked, asked_by_first};
ghost use Rattle.aa_start.specs.Given.{IsGivenFor};
ghost use Rattle.aatry_arguments.specs.Given.{IsVersion, meant_command};

use crate::arguments::Command;
use crate::asking_words::{who_of, why_of};
use crate::diff_all_words::diffs_of;
use crate::faults::help_with;
use crate::log_words::logs_of;
use crate::paths_words::paths_of;
use crate::reach_words::reach_of;
use crate::rules_words::checks_of;
use crate::session_words::session_of;
use crate::test_words::test_of;
use aa_start::{ArgumentFault, VERSION};
use std::alloc::Global;

// The help on the program.
const HELP: &str = "\
Checks, queries, tests and compares AppArmor policy at a terminal

Usage: aatry COMMAND [ARGUMENT]..

Commands:
  check    Checks each file of a policy directory, and reports what is wrong with it; with --rules,
           reports the rules that decide nothing
  why      Explains the answer to a question with the rules behind it
  log      Asks the policy what the lines of a log asked, and prints its answers now
  who      Lists the profiles, children and hats that would allow a request
  never    Checks that no file of a pattern is ever allowed some access, or prints a path that is
  always   Checks that each file of a pattern is always allowed it, or prints a path that isn't
  reach    Lists the profiles that programs started by WHO, directly or in turn, may run under
  diff     Compares two policy directories: which profiles differ, and what they answer differently
  session  Runs commands over a policy directory as they come: changes, questions, undo
  test     Runs transcripts of commands over a policy directory, and reports replies that differ

Options:
  --json          Prints JSON records, one per line; not with session and test
  --verbose       First lists each file that is left out, and why; not with check, session and test
  --language <N>  Reads policy in language N, 3 or 4 (default: 4)
  --color <WHEN>  Colours the lines: auto, always or never (default: auto)
  -h, --help      Prints help; after a COMMAND, help on that command
  -V, --version   Prints the version
";

// The line with the version.
fn version(alloc: Global) -> ArgumentFault
    ensures { IsVersion result }
{
    match format!(in alloc; "aatry {VERSION}\n") {
        Ok(line) => ArgumentFault::Version(line),
        Err(_) => ArgumentFault::Memory,
    }
}

// The command that a first word and the words after it ask for.
fn command_by(alloc: Global, first: &str, words: &[String]) -> Result<Command, ArgumentFault>
    ensures { IsGivenFor meant_command (asked_by_first first.now (map string_bytes words.now)) result }
{
    match first {
        "check" => checks_of(alloc, words),
        "test" => test_of(alloc, words).map(Command::Test),
        "who" => who_of(alloc, words).map(Command::Who),
        "why" => why_of(alloc, words).map(Command::Why),
        "never" => paths_of(alloc, words, false).map(Command::Paths),
        "always" => paths_of(alloc, words, true).map(Command::Paths),
        "reach" => reach_of(alloc, words).map(Command::Reach),
        "log" => logs_of(alloc, words).map(Command::Log),
        "diff" => diffs_of(alloc, words),
        "session" => session_of(alloc, words).map(Command::Session),
        "-h" | "--help" => Err(help_with(alloc, HELP)),
        "-V" | "--version" => Err(version(alloc)),
        _ => Err(ArgumentFault::Bad),
    }
}

/// The command that is asked for by the words after the program's own name.
pub fn command_behind(alloc: Global, words: &[String]) -> Result<Command, ArgumentFault>
    ensures { IsGivenFor meant_command (asked (map string_bytes words.now)) result }
{
    match words {
        [first, behind @ ..] => command_by(alloc, first.as_str(), behind),
        [] => Err(help_with(alloc, HELP)),
    }
}
