//! Reading of the arguments, by `clap`.
ghost use Rattle.std.specs.Prelude.{◌≡◌, IfOk, drop, map, string_bytes};
ghost use Rattle.aa_start.specs.Texts.{words_of};
ghost use Rattle.aa_start.specs.Arguments.{asked};
ghost use Rattle.aa_start.specs.Plan.{IsPlanFor, run_of, run_with};

use crate::arguments::Plan;
use crate::command_line::command;
use crate::fault::ArgumentFault;
use crate::parsing::{copied, parse};
use aa_profile_parsing::Language;
use std::alloc::{AllocError, Global};

// The language by which files are read, where none is given.
const DEFAULT_LANGUAGE: &str = "3";

// The folder below which NAMEs are looked up, where none is given.
const DEFAULT_BASE: &str = "/etc/apparmor.d";

// A plan by this language and in this mode, over this folder, with these names.
fn planned(
    alloc: Global,
    language: Language,
    force_complain: bool,
    base: &str,
    given: &[&str],
) -> Result<Plan, AllocError>
    ensures { IfOk result (λ plan. run_of plan ≡ run_with language force_complain base.now (words_of given.now)) }
{
    Ok(Plan {
        language,
        force_complain,
        base: String::from_str(alloc, base)?,
        names: copied(alloc, given)?,
    })
}

// The run for which the words after the program's name ask.
fn plan_behind(alloc: Global, words: &[String]) -> Result<Plan, ArgumentFault>
    ensures { IsPlanFor (asked (map string_bytes words.now)) result }
{
    let command = match command(alloc) {
        Ok(command) => command,
        Err(_) => return Err(ArgumentFault::Memory),
    };
    let matches = match parse(alloc, command, words) {
        Ok(matches) => matches,
        Err(fault) => return Err(fault),
    };
    let word = matches.get_str("LANGUAGE").unwrap_or(DEFAULT_LANGUAGE);
    let Some(language) = Language::named(word.as_bytes()) else {
        return Err(ArgumentFault::Bad);
    };
    let force_complain = matches.get_flag("COMPLAIN");
    let base = matches.get_str("DIR").unwrap_or(DEFAULT_BASE);
    let names = matches.get_strs("NAME").unwrap_or(&[]);
    match planned(alloc, language, force_complain, base, names) {
        Ok(plan) => Ok(plan),
        Err(_) => Err(ArgumentFault::Memory),
    }
}

/// The run for which the words ask with which the program was started.
///
/// The first word is the program's own name, whatever it is, and the others are its arguments; where there is no first word, there are no arguments.
/// An argument is a NAME, unless it is an option: a hyphen followed by more. After the argument `--` each one is a NAME. The option `-C` loads each
/// profile in complain mode. The option `-b` gives the folder below which relative NAMEs are looked up: as the rest of its word, without one leading
/// `=`, or else as the next word, which then is no option and no `--`. The option `--language` gives the language by which files are read, `3` or
/// `4`: after `=` in its word, or else as the next word; without it that is 3. Options of one letter may be in one word, as `-Cb /srv`, and before,
/// between and after the NAMEs. Of two folders, or two languages, the last counts. The document is `docs/commands.md`, "The program".
///
/// # Errors
///
/// - `Help` where the first option that is neither `-C`, `-b` nor `--language` is `--help` or `-h`, with or without other letters after `-h`.
/// - `Version` where it is `--version` or `-V`, with or without other letters after `-V`.
/// - `Bad` where it is any other, or where `-b` or `--language` comes before it without a value, or where there is no such option, and no NAME or no
///   such language.
/// - `Memory` where memory ran out.
pub fn plan(alloc: Global, all: &[String]) -> Result<Plan, ArgumentFault>
    ensures { IsPlanFor (asked (drop 1 (map string_bytes all.now))) result }
{
    match all {
        [_, behind @ ..] => plan_behind(alloc, behind),
        [] => plan_behind(alloc, all),
    }
}
