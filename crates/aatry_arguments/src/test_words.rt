//! Reading of the words after `test`: except for the flag that only `test` has, like those after `check`.
ghost use Rattle.std.specs.Prelude.{map, string_bytes};
ghost use Rattle.aa_start.specs.Given.{IsGivenFor};
ghost use Rattle.aa_start.specs.Options.{asked_then};
ghost use Rattle.aatry_arguments.specs.CheckWords.{asked_check};
ghost use Rattle.aatry_arguments.specs.Given.{meant_check, meant_test};
ghost use Rattle.aatry_arguments.specs.TestWords.{asked_test, test_of};

use crate::arguments::{Check, Test};
use crate::check_words::check_of;
use crate::faults::passed_on;
use crate::flags::{is_given, without_flag};
use aa_start::ArgumentFault;
use std::alloc::Global;

// The flag that asks for the replies to be accepted.
const ACCEPT: &str = "--accept";

// The help on `test`.
const HELP: &str = "\
Runs transcripts of commands over a policy directory, and reports replies that differ

Usage: aatry test [OPTIONS] FILE..

Arguments:
  FILE..  The path of a transcript

Options:
  -b <DIR>    The policy directory (default: /etc/apparmor.d)
  --accept    Updates each FILE that doesn't pass with the actual replies
  -h, --help  Prints help

All files below DIR are read as by check. Each FILE is run on its own, beginning with no profile
loaded. In a FILE
  > COMMAND   is a command of aaset
  # COMMENT   is ignored, and so are blank lines
and each other line is expected as part of the reply to the command above it. One that ends in ' ..'
stands for the line without that end followed by any audit line.

A FILE whose replies are all as expected is reported as
  FILE: passed: commands N
For any other FILE, each command whose reply differs is printed, with the lines that are missing and
those that aren't expected, and at the end how many differ:
  FILE:LINE: > COMMAND
  - LINE THAT IS EXPECTED AND MISSING
  + LINE THAT ISN'T EXPECTED
  FILE: failed: commands N, differing M
With --accept that end is 'FILE: accepted: ..'. The commands and comments of FILE stay as they are,
and so do the replies that don't differ. The new text is first written to FILE.new, which must not
exist, and replaces FILE when it is complete.

Exit status:
  0  Each FILE passed or was accepted, or help was requested
  1  Some FILE failed
  2  Bad arguments, or DIR, a file or directory below it, or a FILE can't be read
  3  A write failed, also that of a FILE, or memory ran out
";

// The test of words that were read as a check.
fn test_with(check: Check, accept: bool) -> Result<Test, ArgumentFault>
    ensures { IsGivenFor meant_test (test_of accept (meant_check check)) result }
{
    let Check { base, names: paths } = check;
    if paths.is_empty() {
        return Err(ArgumentFault::Bad);
    }
    Ok(Test {
        base,
        paths,
        accept,
    })
}

// The test that words without the flag ask for.
fn test_by(alloc: Global, words: &[String], accept: bool) -> Result<Test, ArgumentFault>
    ensures { IsGivenFor meant_test (asked_then (test_of accept) (asked_check (map string_bytes words.now))) result }
{
    match check_of(alloc, words) {
        Ok(check) => test_with(check, accept),
        Err(fault) => Err(passed_on(alloc, fault, HELP)),
    }
}

/// The test that words after `test` ask for.
///
/// # Errors
///
/// Those of `check_of`, of the words without the flag `--accept`, and `Bad` where no FILE is named.
pub fn test_of(alloc: Global, words: &[String]) -> Result<Test, ArgumentFault>
    ensures { IsGivenFor meant_test (asked_test (map string_bytes words.now)) result }
{
    let accept = is_given(ACCEPT, words);
    match without_flag(alloc, ACCEPT, words) {
        Ok(others) => test_by(alloc, &others, accept),
        Err(_) => Err(ArgumentFault::Memory),
    }
}
