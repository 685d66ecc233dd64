//! Reading of the words after `check`: for rules that decide nothing where the flag `--rules` is among them, and else for a check of files.
ghost use Rattle.std.specs.Prelude.{map, string_bytes};
ghost use Rattle.aa_start.specs.Given.{IsGivenFor};
ghost use Rattle.aa_start.specs.Options.{asked_then};
ghost use Rattle.aatry_arguments.specs.Arguments.{asked_checks};
ghost use Rattle.aatry_arguments.specs.CheckWords.{asked_check};
ghost use Rattle.aatry_arguments.specs.Given.{meant_command, meant_rules};
ghost use Rattle.aatry_arguments.specs.RulesWords.{asked_limited, asked_rules, rules_of};
ghost use Rattle.aatry_arguments.specs.code.PathsLimited.{seen_limited};

use crate::arguments::{Command, RulesCheck};
use crate::check_words::check_of;
use crate::flags::{is_given, without_flag};
use crate::paths_words::{PathsLimited, limited_in};
use aa_start::ArgumentFault;
use std::alloc::Global;

// The flag that asks for rules that decide nothing.
const RULES: &str = "--rules";

// The flag by which rules of included files are tried, too.
const INCLUDED: &str = "--included";

// The check of rules that words ask for without the flags and without the limit.
fn rules_by(
    alloc: Global,
    words: &[String],
    included: bool,
    limit: usize,
) -> Result<RulesCheck, ArgumentFault>
    ensures { IsGivenFor meant_rules (asked_then (rules_of included limit) (asked_check (map string_bytes words.now))) result }
{
    match check_of(alloc, words) {
        Ok(check) => Ok(RulesCheck {
            check,
            included,
            limit,
        }),
        Err(fault) => Err(fault),
    }
}

// The check of rules that words ask for beside the limit that they name.
fn rules_limited(alloc: Global, limited: PathsLimited) -> Result<RulesCheck, ArgumentFault>
    ensures { IsGivenFor meant_rules (asked_limited (seen_limited limited)) result }
{
    let PathsLimited { limit, words } = limited;
    match without_flag(alloc, INCLUDED, &words) {
        Ok(others) => rules_by(alloc, &others, is_given(INCLUDED, &words), limit),
        Err(_) => Err(ArgumentFault::Memory),
    }
}

// The check of rules that words after `check` ask for beside the flag `--rules`.
#[tactic(auto, unfolding(crate::specs::RulesWords::asked_rules))]
fn rules_of(alloc: Global, words: &[String]) -> Result<RulesCheck, ArgumentFault>
    ensures { IsGivenFor meant_rules (asked_rules (map string_bytes words.now)) result }
{
    match limited_in(alloc, words) {
        Ok(Some(limited)) => rules_limited(alloc, limited),
        Ok(None) => Err(ArgumentFault::Bad),
        Err(_) => Err(ArgumentFault::Memory),
    }
}

/// The check that words after `check` ask for: of rules that decide nothing where the flag `--rules` is among them, and else of files.
///
/// # Errors
///
/// Those of `check_of` where no word is the flag. Where one is, of the words without it:
/// - `Bad` where `--limit` has no value, or one that isn't a number of digits below 253,402,300,800.
/// - Of the rest without the flag `--included`, those of `check_of`.
pub fn checks_of(alloc: Global, words: &[String]) -> Result<Command, ArgumentFault>
    ensures { IsGivenFor meant_command (asked_checks (map string_bytes words.now)) result }
{
    if !is_given(RULES, words) {
        return check_of(alloc, words).map(Command::Check);
    }
    match without_flag(alloc, RULES, words) {
        Ok(others) => rules_of(alloc, &others).map(Command::CheckRules),
        Err(_) => Err(ArgumentFault::Memory),
    }
}
