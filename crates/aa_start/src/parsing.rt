//! Reading of words, by `clap`.
ghost use Rattle.std.specs.Prelude.{◌≡◌, IfErr, IfOk, map, string_bytes};
ghost use Rattle.aa_start.specs.Given.{FailsAs, GivesRows, IsFaultFor};
ghost use Rattle.aa_start.specs.Texts.{texts, words_of};
ghost use Rattle.clap.specs.Words.{app_of, found_of, kind_of, rows_of};

use crate::fault::ArgumentFault;
use clap::error::ErrorKind;
use clap::{ArgMatches, Command, Error};
use std::alloc::{AllocError, Global};

// The fault for a parse without matches.
fn fault(alloc: Global, error: &Error) -> ArgumentFault
    ensures { IsFaultFor (kind_of error.now) result }
{
    match error.kind() {
        ErrorKind::DisplayHelp => match error.to_string(alloc) {
            Ok(text) => ArgumentFault::Help(text),
            Err(_) => ArgumentFault::Memory,
        },
        ErrorKind::DisplayVersion => match error.to_string(alloc) {
            Ok(text) => ArgumentFault::Version(text),
            Err(_) => ArgumentFault::Memory,
        },
        ErrorKind::OutOfMemory => ArgumentFault::Memory,
        _ => ArgumentFault::Bad,
    }
}

/// The values that words give to the arguments of a command line, as `clap` matches them.
///
/// # Errors
///
/// - `Help` and `Version` where the first option at fault asks for these.
/// - `Bad` where it is any other, or a required argument is missing.
/// - `Memory` where memory ran out.
pub fn parse<'a>(
    alloc: Global,
    command: Command<'a>,
    words: &'a [String],
) -> Result<ArgMatches<'a>, ArgumentFault>
    ensures ok { IfOk result (λ matches. GivesRows (app_of command.entry) (map string_bytes words.entry.now) (rows_of (found_of matches))) }
    ensures err { IfErr result (FailsAs (app_of command.entry) (map string_bytes words.entry.now)) }
{
    match command.try_get_matches_from(words) {
        Ok(matches) => Ok(matches),
        Err(error) => Err(fault(alloc, &error)),
    }
}

/// Copies of texts.
///
/// # Errors
///
/// Where memory ran out.
pub fn copied(alloc: Global, given: &[&str]) -> Result<Vec<String>, AllocError>
    ensures { IfOk result (λ copies. texts copies ≡ words_of given.now) }
{
    let mut copies = Vec::with_capacity(alloc, given.len())?;
    for text in given {
        copies.push(String::from_str(alloc, text)?)?;
    }
    Ok(copies)
}
