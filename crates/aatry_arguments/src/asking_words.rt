//! Reading of the words after `who` and `why`: like those after `check`.
ghost use Rattle.std.specs.Prelude.{map, string_bytes};
ghost use Rattle.aatry_arguments.specs.AskingWords.{asked_words, asking_of};
ghost use Rattle.aa_start.specs.Given.{IsGivenFor};
ghost use Rattle.aatry_arguments.specs.Given.{meant_asking, meant_check};

use crate::arguments::{Asking, Check};
use crate::check_words::check_of;
use crate::faults::passed_on;
use aa_start::ArgumentFault;
use std::alloc::Global;

// The help on `who`.
const WHO_HELP: &str = "\
Lists the profiles, children and hats that would allow a request

Usage: aatry who [OPTIONS] [file] ACCESS OWNED PATH
       aatry who [OPTIONS] exec OWNED PATH
       aatry who [OPTIONS] cap NAME
       aatry who [OPTIONS] net DOMAIN TYPE

Arguments:
  ACCESS  One or more of the letters r w a l k m, none repeated
  OWNED   owner if the task owns the file, other if it doesn't
  PATH    The absolute path of the file, or of the program that is started
  NAME    A capability, such as net_admin or CAP_NET_ADMIN
  DOMAIN  A socket domain, such as inet
  TYPE    A socket type, such as stream

Options:
  -b <DIR>    The policy directory (default: /etc/apparmor.d)
  --verbose   First lists each file that is left out, and why
  --json      Prints JSON records, one per line
  -h, --help  Prints help

All files below DIR are read as by check. Files at its top that are refused are left out, and their
number is reported on standard error. For each profile, child and hat that would allow the request
a line is printed, with its full name:
  WHO: allow           Its rules allow it. They follow, each with its place
  WHO: allow to OTHER  It may start the program, which runs under OTHER; scrub follows if the
                       environment is scrubbed. The rules follow as above
  WHO: complain        Its rules don't, but it is in complain mode; for a start: complain null
  WHO: unconfined      None of its rules is asked: its mode is unconfined or it is disabled

Exit status:
  0  Some profile, child or hat would allow it, or help was requested
  1  None would
  2  Bad arguments or question, or DIR, or a file or directory below it, can't be read
  3  A write failed, or memory ran out
";

// The help on `why`.
const WHY_HELP: &str = "\
Explains the answer to a question with the rules behind it

Usage: aatry why [OPTIONS] WORD..
       aatry why [OPTIONS] LINE

Arguments:
  WORD..  The words of a question, as after ask of aaset:
            file WHO ACCESS OWNED PATH
            exec WHO OWNED PATH
            cap WHO NAME
            net WHO DOMAIN TYPE
  LINE    A line of a kernel log, as one word: asks about the request that it logs

Options:
  -b <DIR>    The policy directory (default: /etc/apparmor.d)
  --verbose   First lists each file that is left out, and why
  --json      Prints JSON records, one per line
  -h, --help  Prints help

All files below DIR are read as by check. Files at its top that are refused are left out, and their
number is reported on standard error. WHO is a profile, child or hat, or unconfined.
The answer is printed, with its audit line if there is one, as by ask of aaset. The rules behind it
follow, each with FILE:LINE:COLUMN: where it is written, under one of these headings:
  denied by      They deny the request, or part of it
  allowed by     They allow it, or part of it
  audited by     They ask for the audit line
  nearest rules  They match the path, but allow other access to it, or allow it only to the owner

Exit status:
  0  The question was answered, or help was requested
  1  WHO doesn't exist
  2  Bad arguments or question, or DIR, or a file or directory below it, can't be read
  3  A write failed, or memory ran out
";

// The question of words that were read as a check.
fn asking_of(check: Check) -> Result<Asking, ArgumentFault>
    ensures { IsGivenFor meant_asking (asking_of (meant_check check)) result }
{
    let Check { base, names: words } = check;
    if words.is_empty() {
        return Err(ArgumentFault::Bad);
    }
    Ok(Asking { base, words })
}

/// The question of words that are read like those after `check`, with the help on their command.
///
/// # Errors
///
/// Those of `check_of`, and `Bad` where the question has no word.
pub fn asked_words(alloc: Global, words: &[String], help: &str) -> Result<Asking, ArgumentFault>
    ensures { IsGivenFor meant_asking (asked_words (map string_bytes words.now)) result }
{
    match check_of(alloc, words) {
        Ok(check) => asking_of(check),
        Err(fault) => Err(passed_on(alloc, fault, help)),
    }
}

/// The question of words after `who`.
///
/// # Errors
///
/// Those of `check_of`, and `Bad` where the question has no word.
pub fn who_of(alloc: Global, words: &[String]) -> Result<Asking, ArgumentFault>
    ensures { IsGivenFor meant_asking (asked_words (map string_bytes words.now)) result }
{
    asked_words(alloc, words, WHO_HELP)
}

/// The question of words after `why`.
///
/// # Errors
///
/// Those of `check_of`, and `Bad` where the question has no word.
pub fn why_of(alloc: Global, words: &[String]) -> Result<Asking, ArgumentFault>
    ensures { IsGivenFor meant_asking (asked_words (map string_bytes words.now)) result }
{
    asked_words(alloc, words, WHY_HELP)
}
