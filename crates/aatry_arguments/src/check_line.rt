//! The command line after `check`, as it is described to `clap`.
ghost use Rattle.std.specs.Prelude.{◌≡◌, false, IfOk, codes};
ghost use Rattle.aa_start.specs.Lines.{bare_line};
ghost use Rattle.clap.specs.Words.{app_of, rule_of};
ghost use Rattle.aatry_arguments.specs.CheckLine.{base_rule, check_line, name_rule};

use aa_start::with_argument;
use clap::{Arg, Command};
use std::alloc::{AllocError, Global};

// The help after the arguments and options.
const MORE_HELP: &str = "\
Without a NAME, each file at the top of DIR is checked. All files below DIR are read, and includes
are looked up among them. Skipped are hidden files, README, `*~`, leftovers of package managers,
such as `*.dpkg-old`, and the directories disable, force-complain and cache*.

For each file one of these is printed:
  FILE: taken: PROFILE..           The file is taken, with these profiles
  FILE:LINE:COLUMN: what is wrong  It is refused. The line follows, with a caret below it

Rules of kinds that decide nothing here, such as mount or dbus, are read and counted. With --json,
which must come before any --, each file is reported as a JSON record on a line of its own.

With --rules, the written file rules that decide nothing are reported instead: without all of them,
no path is answered or logged differently, and none starts under another profile. Each is followed
by a path and the rules that decide there. Profiles with attachments follow to which no path at all
is attached. All files below DIR are loaded as by why. These options may be added before any --:
  --included   Also tries rules of included files, not only the profile's own
  --limit <N>  The most sets of states to look at for each profile, child and hat (default: 262144)

Exit status:
  0  Each file was taken, or help was requested; with --rules: each rule tried decides something
  1  Some file was refused; with --rules: some rule decides nothing
  2  Bad arguments, or DIR, or a file or directory below it, can't be read
  3  A write failed, or memory ran out; with --rules: there are too many sets for some profile,
     child or hat, and no rule is reported";

// The option for the folder of policy.
fn base_argument<'a>(alloc: Global) -> Arg<'a>
    ensures rule { rule_of result ≡ base_rule }
    ensures local { result.global ≡ false }
{
    aa_start::value(
        alloc,
        "DIR",
        'b',
        "The policy directory (default: /etc/apparmor.d)",
    )
}

// The argument for the names.
fn name_argument<'a>(alloc: Global) -> Arg<'a>
    ensures rule { rule_of result ≡ name_rule }
    ensures local { result.global ≡ false }
{
    aa_start::other_words(
        alloc,
        "NAME",
        false,
        "A file of the directory to check, instead of all files at its top",
    )
}

// The command line before its arguments.
fn bare_command<'a>(alloc: Global) -> Command<'a>
    ensures { app_of result ≡ bare_line (codes "aatry check") }
{
    aa_start::bare_command(alloc, "aatry check")
        .about("Checks each file of a policy directory, and reports what is wrong with it")
        .after_help(MORE_HELP)
}

/// The command line after `check` as `clap` is to read it.
///
/// # Errors
///
/// Where memory ran out.
pub fn check_command<'a>(alloc: Global) -> Result<Command<'a>, AllocError>
    ensures { IfOk result (λ command. app_of command ≡ check_line) }
{
    let below = with_argument(bare_command(alloc), base_argument(alloc))?;
    with_argument(below, name_argument(alloc))
}
