//! The command line, as it is declared to `clap`.
ghost use Rattle.std.specs.Prelude.{◌≡◌, false, IfOk};
ghost use Rattle.aa_start.specs.CommandLine.{base_rule, command_line, complain_rule, language_rule, name_rule, versioned_line};
ghost use Rattle.clap.specs.Words.{app_of, rule_of};

use crate::line::with_argument;
use crate::version::VERSION;
use clap::{Arg, Command};
use std::alloc::{AllocError, Global};

// What help prints after the arguments and options.
const MORE_HELP: &str = "\
A NAME that begins with / is read as it stands, and any other below DIR (default:
/etc/apparmor.d). Each file is read once, before the first command: later changes on disk
aren't seen. Includes are looked up among the NAMEs only, so each included file must be
named too, and each included directory by a NAME that ends in /: such a NAME declares the
directory, and loads nothing of it.

Commands, one per line:
  add FILE                             Adds the profiles of a FILE, which is one of the NAMEs
  replace FILE                         Replaces each profile of the same name, or adds it
  remove FILE                          Removes the profiles that have the names of the FILE's
  enforce NAME, complain NAME          Sets the mode of the profile NAME, its children and hats
  disable NAME                         Disables the profile NAME
  undo [N], redo [N]                   Goes N accepted changes back or forward (default: 1)
  mark NAME                            Saves the present place in the history as NAME
  back NAME                            Goes there, back or forward, and drops no change
  ask file NAME ACCESS OWNED PATH      Prints what the profile NAME answers to a request: ACCESS
                                       is letters of rwalkm, OWNED is `owner` or `other`
  ask exec NAME OWNED PATH             Prints under what a program that NAME starts runs
  ask cap NAME CAPABILITY              Prints what it answers to a request for a capability
  ask net NAME DOMAIN TYPE             Prints what it answers to a request for a socket
  list                                 Lists all profiles, children and hats and their states
  show NAME                            Shows the rules of the profile, child or hat NAME

Commands change the profiles that are kept here, and `undo` undoes only that: the kernel
isn't touched. Rules on files, capabilities and sockets (`network`) are asked. Those on
signal, ptrace, unix, dbus, mount and all other kinds are kept, and decide nothing.

Exit status:
  0  Each command was accepted, or help or the version was requested
  1  Some command was refused
  2  Bad arguments, or a NAME can't be taken
  3  A read or write failed, or there was no memory to begin";

// The option for the language by which files are read.
fn language_argument<'a>(alloc: Global) -> Arg<'a>
    ensures rule { rule_of result ≡ language_rule }
    ensures local { result.global ≡ false }
{
    crate::line::named_value(
        alloc,
        "LANGUAGE",
        "language",
        "The policy language, 3 or 4 (default: 3)",
    )
}

// The option for complain mode.
fn complain_argument<'a>(alloc: Global) -> Arg<'a>
    ensures rule { rule_of result ≡ complain_rule }
    ensures local { result.global ≡ false }
{
    crate::line::flag(
        alloc,
        "COMPLAIN",
        'C',
        "Loads every profile in complain mode, whatever its flags say",
    )
}

// The option for the folder below which relative names are looked up.
fn base_argument<'a>(alloc: Global) -> Arg<'a>
    ensures rule { rule_of result ≡ base_rule }
    ensures local { result.global ≡ false }
{
    crate::line::value(
        alloc,
        "DIR",
        'b',
        "The directory of relative NAMEs (apparmor_parser's -b: of includes only)",
    )
}

// The argument for the names, at least one.
fn name_argument<'a>(alloc: Global) -> Arg<'a>
    ensures rule { rule_of result ≡ name_rule }
    ensures local { result.global ≡ false }
{
    crate::line::other_words(
        alloc,
        "NAME",
        true,
        "A file to read, or, if it ends in `/`, a directory that is only declared",
    )
}

// The command line before its arguments.
fn bare_command<'a>(alloc: Global) -> Command<'a>
    ensures { app_of result ≡ versioned_line }
{
    crate::line::bare_command(alloc, "aaset")
        .version(VERSION)
        .about("Queries and changes a set of AppArmor profiles by commands from standard input")
        .after_help(MORE_HELP)
}

/// The command line as `clap` is to read it.
///
/// # Errors
///
/// Where memory ran out.
pub fn command<'a>(alloc: Global) -> Result<Command<'a>, AllocError>
    ensures { IfOk result (λ command. app_of command ≡ command_line) }
{
    let complaining = with_argument(bare_command(alloc), complain_argument(alloc))?;
    let reading = with_argument(complaining, language_argument(alloc))?;
    let below = with_argument(reading, base_argument(alloc))?;
    with_argument(below, name_argument(alloc))
}
