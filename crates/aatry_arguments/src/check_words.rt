//! Reading of the words after `check`, by `clap`.
ghost use Rattle.std.specs.Prelude.{◌≡◌, IfOk, map, string_bytes};
ghost use Rattle.aa_start.specs.Given.{IsGivenFor};
ghost use Rattle.aa_start.specs.Texts.{words_of};
ghost use Rattle.aatry_arguments.specs.CheckWords.{asked_check, check_with};
ghost use Rattle.aatry_arguments.specs.Given.{meant_check};

use crate::arguments::Check;
use crate::check_line::check_command;
use aa_start::{ArgumentFault, copied, parse};
use std::alloc::{AllocError, Global};

// The folder of policy, where none is given.
const DEFAULT_BASE: &str = "/etc/apparmor.d";

// A check of these files of this folder.
fn check_with_names(alloc: Global, base: &str, given: &[&str]) -> Result<Check, AllocError>
    ensures { IfOk result (λ check. meant_check check ≡ check_with base.now (words_of given.now)) }
{
    Ok(Check {
        base: String::from_str(alloc, base)?,
        names: copied(alloc, given)?,
    })
}

/// The check that words after `check` ask for.
///
/// # Errors
///
/// - `Help` where the first option other than `-b` is `--help` or `-h`, with or without other letters after `-h`.
/// - `Bad` where it is any other, or where `-b` comes before it without a folder.
/// - `Memory` where memory ran out.
pub fn check_of(alloc: Global, words: &[String]) -> Result<Check, ArgumentFault>
    ensures { IsGivenFor meant_check (asked_check (map string_bytes words.now)) result }
{
    let command = match check_command(alloc) {
        Ok(command) => command,
        Err(_) => return Err(ArgumentFault::Memory),
    };
    let matches = match parse(alloc, command, words) {
        Ok(matches) => matches,
        Err(fault) => return Err(fault),
    };
    let base = matches.get_str("DIR").unwrap_or(DEFAULT_BASE);
    let names = matches.get_strs("NAME").unwrap_or(&[]);
    match check_with_names(alloc, base, names) {
        Ok(check) => Ok(check),
        Err(_) => Err(ArgumentFault::Memory),
    }
}
