//! Command lines, as they are declared to `clap`.
ghost use Rattle.std.specs.Prelude.{◌≡◌, false, IfOk};
ghost use Rattle.aa_start.specs.Lines.{bare_line, flag_rule, named_value_rule, value_rule, words_rule};
ghost use Rattle.clap.specs.Words.{app_of, rule_of, with_rule};

use clap::{Arg, ArgAction, Command};
use std::alloc::{AllocError, Global};

/// A command line of this name, before its arguments: its words come without the program's name, and an option that is repeated replaces the earlier
/// one.
pub fn bare_command<'a>(alloc: Global, name: &'a str) -> Command<'a>
    ensures { app_of result ≡ bare_line name.entry.now }
{
    Command::new(alloc, name)
        .no_binary_name(true)
        .args_override_self(true)
}

/// A flag, by its letter, and its help text.
pub fn flag<'a>(alloc: Global, id: &'a str, letter: char, help: &'a str) -> Arg<'a>
    ensures rule { rule_of result ≡ flag_rule id.entry.now letter }
    ensures local { result.global ≡ false }
{
    Arg::new(alloc, id)
        .short(letter)
        .action(ArgAction::SetTrue)
        .help(help)
}

/// An option that takes a value, by its letter, and its help text.
pub fn value<'a>(alloc: Global, id: &'a str, letter: char, help: &'a str) -> Arg<'a>
    ensures rule { rule_of result ≡ value_rule id.entry.now letter }
    ensures local { result.global ≡ false }
{
    Arg::new(alloc, id)
        .short(letter)
        .action(ArgAction::Set)
        .help(help)
}

/// An option that takes a value, by its name, and its help text.
pub fn named_value<'a>(alloc: Global, id: &'a str, name: &'a str, help: &'a str) -> Arg<'a>
    ensures rule { rule_of result ≡ named_value_rule id.entry.now name.entry.now }
    ensures local { result.global ≡ false }
{
    Arg::new(alloc, id)
        .long(name)
        .action(ArgAction::Set)
        .help(help)
}

/// The words that are no options, whether there has to be one, and their help text.
pub fn other_words<'a>(alloc: Global, id: &'a str, is_required: bool, help: &'a str) -> Arg<'a>
    ensures rule { rule_of result ≡ words_rule id.entry.now is_required }
    ensures local { result.global ≡ false }
{
    Arg::new(alloc, id)
        .required(is_required)
        .num_args(1..)
        .action(ArgAction::Append)
        .help(help)
}

/// The command line with one more argument.
///
/// # Errors
///
/// Where memory ran out.
pub fn with_argument<'a>(command: Command<'a>, argument: Arg<'a>) -> Result<Command<'a>, AllocError>
    requires { argument.global ≡ false }
    ensures { IfOk result (λ more. app_of more ≡ with_rule (app_of command.entry) (rule_of argument.entry)) }
{
    command.arg(argument)
}
