//! Reading of the words after `session`: like those after `check`.
ghost use Rattle.std.specs.Prelude.{map, string_bytes};
ghost use Rattle.aa_start.specs.Given.{IsGivenFor};
ghost use Rattle.aatry_arguments.specs.Given.{meant_check, meant_session};
ghost use Rattle.aatry_arguments.specs.SessionWords.{asked_session, session_of};

use crate::arguments::{Check, Session};
use crate::check_words::check_of;
use crate::faults::passed_on;
use aa_start::ArgumentFault;
use std::alloc::Global;

// The help on `session`.
const HELP: &str = "\
Runs commands over a policy directory as they come: changes, questions, undo

Usage: aatry session [OPTIONS]

Options:
  -b <DIR>    The policy directory (default: /etc/apparmor.d)
  -h, --help  Prints help

All files below DIR are read as by check, and those at its top are added one by one. Files that are
refused are reported, and left out. Then each line of standard input is a command of aaset, or one
of these:
  help       Lists the commands
  history    Lists the changes since the loading that can be undone and redone
  loading    Adds the changes of the loading to the history
  why WORD.. Explains the answer to a question with the rules behind it
  status     Shows what is loaded, and which files differ from those on disk
  reload     Reads the files below DIR again; what is loaded stays
  quit       Ends the session, as the end of the input does
No file is written, and the kernel isn't asked: all changes end with the session.

Exit status:
  0  The session ended, or help was requested
  2  Bad arguments, or DIR, or a file or directory below it, can't be read
  3  A read or write failed, or memory ran out
";

// The session of words that were read as a check.
fn session_by(check: Check) -> Result<Session, ArgumentFault>
    ensures { IsGivenFor meant_session (session_of (meant_check check)) result }
{
    let Check { base, names } = check;
    if !names.is_empty() {
        return Err(ArgumentFault::Bad);
    }
    Ok(Session { base })
}

/// The session that words after `session` ask for.
///
/// # Errors
///
/// Those of `check_of`, and `Bad` where there is a word that is no option.
pub fn session_of(alloc: Global, words: &[String]) -> Result<Session, ArgumentFault>
    ensures { IsGivenFor meant_session (asked_session (map string_bytes words.now)) result }
{
    match check_of(alloc, words) {
        Ok(check) => session_by(check),
        Err(fault) => Err(passed_on(alloc, fault, HELP)),
    }
}
