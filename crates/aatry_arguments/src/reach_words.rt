//! Reading of the words after `reach`: except for what only `reach` has, like those after `check`.
ghost use Rattle.std.specs.Prelude.{map, string_bytes};
ghost use Rattle.aa_start.specs.Given.{IsGivenFor};
ghost use Rattle.aa_start.specs.Options.{asked_then};
ghost use Rattle.aatry_arguments.specs.AskingWords.{asked_words};
ghost use Rattle.aatry_arguments.specs.Given.{meant_asking, meant_reach};
ghost use Rattle.aatry_arguments.specs.ReachWords.{asked_limited, asked_reach, reach_of};
ghost use Rattle.aatry_arguments.specs.code.PathsLimited.{seen_limited};

use crate::arguments::Reach;
use crate::asking_words::asked_words;
use crate::flags::{is_given, without_flag};
use crate::paths_words::{PathsLimited, limited_in};
use aa_start::ArgumentFault;
use std::alloc::Global;

// The flag that asks for a graph.
const DOT: &str = "--dot";

// The help on `reach`.
const HELP: &str = "\
Lists the profiles that programs started by WHO, directly or in turn, may run under

Usage: aatry reach [OPTIONS] WHO..

Arguments:
  WHO..  Full names of profiles, children or hats, or unconfined

Options:
  -b <DIR>     The policy directory (default: /etc/apparmor.d)
  --dot        Prints a graph in the Graphviz language
  --limit <N>  The most sets of states to look at for each profile, child or hat that starts
               programs (default: 262144)
  --verbose    First lists each file that is left out, and why
  --json       Prints JSON records, one per line
  -h, --help   Prints help

All files below DIR are read as by check. Files at its top that are refused are left out, and their
number is reported on standard error. All paths are considered, except those that the kernel never
asks about, with // or a component . or .. in them. Each place that a start leads to is printed
once, with what starts it and a shortest path.

Exit status:
  0  All that can be reached was printed, or help was requested
  1  No profile, child or hat has one of the names
  2  Bad arguments, or DIR, or a file or directory below it, can't be read
  3  There are too many different paths for the limit; or a write failed, or memory ran out
";

// The question of words without those that only `reach` has.
fn reach_by(
    alloc: Global,
    words: &[String],
    dot: bool,
    limit: usize,
) -> Result<Reach, ArgumentFault>
    ensures { IsGivenFor meant_reach (asked_then (reach_of dot limit) (asked_words (map string_bytes words.now))) result }
{
    match asked_words(alloc, words, HELP) {
        Ok(asking) => Ok(Reach { asking, dot, limit }),
        Err(fault) => Err(fault),
    }
}

// The question of words beside the limit that they name.
fn reach_limited(alloc: Global, limited: PathsLimited) -> Result<Reach, ArgumentFault>
    ensures { IsGivenFor meant_reach (asked_limited (seen_limited limited)) result }
{
    let PathsLimited { limit, words } = limited;
    match without_flag(alloc, DOT, &words) {
        Ok(others) => reach_by(alloc, &others, is_given(DOT, &words), limit),
        Err(_) => Err(ArgumentFault::Memory),
    }
}

/// The question of words after `reach`.
///
/// # Errors
///
/// - `Bad` where `--limit` has no value, or one that isn't a number of digits below 253,402,300,800.
/// - Those of `who`, of the words without the options that only this command has.
#[tactic(auto, unfolding(crate::specs::ReachWords::asked_reach))]
pub fn reach_of(alloc: Global, words: &[String]) -> Result<Reach, ArgumentFault>
    ensures { IsGivenFor meant_reach (asked_reach (map string_bytes words.now)) result }
{
    match limited_in(alloc, words) {
        Ok(Some(limited)) => reach_limited(alloc, limited),
        Ok(None) => Err(ArgumentFault::Bad),
        Err(_) => Err(ArgumentFault::Memory),
    }
}
