//! The command line after `diff`, as it is described to `clap`.
ghost use Rattle.std.specs.Prelude.{◌≡◌, false, IfOk};
ghost use Rattle.clap.specs.Words.{app_of, rule_of};
ghost use Rattle.aatry_arguments.specs.DiffLine.{diff_line, folder_rule, log_rule, questions_rule};

use aa_start::with_argument;
use clap::{Arg, Command};
use std::alloc::{AllocError, Global};

// The option for a log.
fn log_argument<'a>(alloc: Global) -> Arg<'a>
    ensures rule { rule_of result ≡ log_rule }
    ensures local { result.global ≡ false }
{
    aa_start::named_value(alloc, "LOG", "log", "A log")
}

// The option for a file of questions.
fn questions_argument<'a>(alloc: Global) -> Arg<'a>
    ensures rule { rule_of result ≡ questions_rule }
    ensures local { result.global ≡ false }
{
    aa_start::named_value(alloc, "QUESTIONS", "questions", "A file of questions")
}

// The argument for the folders: how many there have to be is tested after the parse.
fn folder_argument<'a>(alloc: Global) -> Arg<'a>
    ensures rule { rule_of result ≡ folder_rule }
    ensures local { result.global ≡ false }
{
    aa_start::other_words(alloc, "FOLDER", false, "A policy directory")
}

/// The command line after `diff` as `clap` is to read it.
///
/// # Errors
///
/// Where memory ran out.
pub fn diff_command<'a>(alloc: Global) -> Result<Command<'a>, AllocError>
    ensures { IfOk result (λ command. app_of command ≡ diff_line) }
{
    let bare = aa_start::bare_command(alloc, "aatry diff");
    let log = with_argument(bare, log_argument(alloc))?;
    let both = with_argument(log, questions_argument(alloc))?;
    with_argument(both, folder_argument(alloc))
}
