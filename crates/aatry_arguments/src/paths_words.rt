//! Reading of the words after `never` and `always`: except for what only these have, like those after `check`.
ghost use Rattle.std.specs.Prelude.{◌≡◌, IfOk, map, option_map, string_bytes};
ghost use Rattle.aa_start.specs.Given.{IsGivenFor};
ghost use Rattle.aa_start.specs.Options.{asked_then};
ghost use Rattle.aatry_arguments.specs.AskingWords.{asked_words};
ghost use Rattle.aatry_arguments.specs.Given.{meant_asking, meant_paths};
ghost use Rattle.aatry_arguments.specs.PathsWords.{asked_limited, asked_paths, limit_of, limited_by, limited_in, paths_of};
ghost use Rattle.aatry_arguments.specs.SeenValues.{seen_value};
ghost use Rattle.aatry_arguments.specs.code.PathsLimited.{seen_limited};

use crate::arguments::{AllPaths, Asking};
use crate::asking_words::asked_words;
use crate::flags::{is_given, without_flag};
use crate::values::{NamedOption, WithValue, value_of};
use aa_start::ArgumentFault;
use aatry_words::number_of;
use std::alloc::{AllocError, Global};

// The flag that asks for names alone.
const NAMES: &str = "--names";

// The option that takes how many sets are looked at.
const LIMIT: NamedOption = NamedOption {
    word: "--limit",
    opening: "--limit=",
};

// How many sets are looked at, where no word says.
const USUAL_LIMIT: usize = 262_144;

// The help on `never`.
const NEVER_HELP: &str = "\
Checks that no file of a pattern is ever allowed some access, or prints a path that is; and after
exec, that no program started by WHO, directly or in turn, ever runs unconfined, or prints a chain
of starts that ends so

Usage: aatry never [OPTIONS] ACCESS OWNED PATTERN [WHO]..
       aatry never [OPTIONS] exec WHO..

Arguments:
  ACCESS   One or more of the letters r w a l k m x, none repeated
  OWNED    owner if the task owns the file, other if it doesn't, any for both
  PATTERN  A pattern as in a rule, such as '/etc/**', with the variables of tunables/global
  [WHO]..  Full names of profiles, children or hats (default with an ACCESS: all)

Options:
  -b <DIR>     The policy directory (default: /etc/apparmor.d)
  --names      Prints no rules, only one line for each WHO
  --limit <N>  The most sets of states to look at for each WHO (default: 262144)
  --verbose    First lists each file that is left out, and why
  --json       Prints JSON records, one per line
  -h, --help   Prints help

All files below DIR are read as by check. Files at its top that are refused are left out, and their
number is reported on standard error. All paths that PATTERN matches are considered, except those
that the kernel never asks about, with // or a component . or .. in them; a directory's path ends
with /. The rules are asked as in enforce mode; where none is asked, everything is allowed. For each
WHO a line is printed:
  never   None of the letters is allowed for any path. The kinds of paths are counted. After exec:
          no chain of starts, however long, ends unconfined. The places reached are counted
  no      This path is a counterexample, and none is shorter. The rules that allow it follow.
          After exec: a chain of starts ends unconfined. Each start of it follows
  many    There are too many different paths for the limit, so nothing is known
  absent  No profile, child or hat has the name

Exit status:
  0  Each line begins with never, or help was requested
  1  A line begins with no or absent
  2  Bad arguments or PATTERN, or DIR, or a file or directory below it, can't be read
  3  A line begins with many, and none with no or absent; or a write failed, or memory ran out
";

// The help on `always`.
const ALWAYS_HELP: &str = "\
Checks that each file of a pattern is always allowed some access, or prints a path that isn't

Usage: aatry always [OPTIONS] ACCESS OWNED PATTERN [WHO]..

Arguments:
  ACCESS   One or more of the letters r w a l k m x, none repeated
  OWNED    owner if the task owns the file, other if it doesn't, any for both
  PATTERN  A pattern as in a rule, such as '/srv/www/**', with the variables of tunables/global
  [WHO]..  Full names of profiles, children or hats (default: all)

Options:
  -b <DIR>     The policy directory (default: /etc/apparmor.d)
  --names      Prints no rules, only one line for each WHO
  --limit <N>  The most sets of states to look at for each WHO (default: 262144)
  --verbose    First lists each file that is left out, and why
  --json       Prints JSON records, one per line
  -h, --help   Prints help

All files below DIR are read as by check. Files at its top that are refused are left out, and their
number is reported on standard error. All paths that PATTERN matches are considered, except those
that the kernel never asks about, with // or a component . or .. in them; a directory's path ends
with /. The rules are asked as in enforce mode; where none is asked, everything is allowed. For each
WHO a line is printed:
  always  All of the letters are allowed for each path. The kinds of paths are counted
  no      This path is a counterexample, and none is shorter. The rules behind that follow
  many    There are too many different paths for the limit, so nothing is known
  absent  No profile, child or hat has the name

Exit status:
  0  Each line begins with always, or help was requested
  1  A line begins with no or absent
  2  Bad arguments or PATTERN, or DIR, or a file or directory below it, can't be read
  3  A line begins with many, and none with no or absent; or a write failed, or memory ran out
";

// The limit that words name, and the other words.
#[derive(Drop)]
pub struct PathsLimited {
    pub limit: usize,
    pub words: Vec<String>,
}

// The limit that a word names, where there is one; `None` where it names no number.
fn limit_of(word: &Option<Vec<u8>>) -> Option<usize>
    ensures { result ≡ limit_of (option_map (λ word. word.items) word.now) }
{
    match word {
        None => Some(USUAL_LIMIT),
        Some(word) => Some(number_of(word)? as usize),
    }
}

// The limit, by the value of its option.
fn limited_by(read: Option<WithValue>) -> Option<PathsLimited>
    ensures { option_map seen_limited result ≡ limited_by (option_map seen_value read) }
{
    let WithValue { value, words } = read?;
    let limit = limit_of(&value)?;
    Some(PathsLimited { limit, words })
}

/// The limit that words name, and the other words. `None` where its value is no number.
///
/// # Errors
///
/// Where memory runs out.
pub fn limited_in(alloc: Global, words: &[String]) -> Result<Option<PathsLimited>, AllocError>
    ensures { IfOk result (λ limited. option_map seen_limited limited ≡ limited_in (map string_bytes words.now)) }
{
    Ok(limited_by(value_of(alloc, LIMIT, words)?))
}

// The help on the command.
fn help_of(always: bool) -> &'static str {
    if always { ALWAYS_HELP } else { NEVER_HELP }
}

// The question of words without those that only `never` and `always` have.
fn paths_by(
    alloc: Global,
    words: &[String],
    always: bool,
    names: bool,
    limit: usize,
) -> Result<AllPaths, ArgumentFault>
    ensures { IsGivenFor meant_paths (asked_then (paths_of always names limit) (asked_words (map string_bytes words.now))) result }
{
    match asked_words(alloc, words, help_of(always)) {
        Ok(asking) => Ok(AllPaths {
            asking,
            always,
            names,
            limit,
        }),
        Err(fault) => Err(fault),
    }
}

// The question of words beside the limit that they name.
fn paths_limited(
    alloc: Global,
    always: bool,
    limited: PathsLimited,
) -> Result<AllPaths, ArgumentFault>
    ensures { IsGivenFor meant_paths (asked_limited always (seen_limited limited)) result }
{
    let PathsLimited { limit, words } = limited;
    match without_flag(alloc, NAMES, &words) {
        Ok(others) => paths_by(alloc, &others, always, is_given(NAMES, &words), limit),
        Err(_) => Err(ArgumentFault::Memory),
    }
}

/// The question of words after `never`, or `always`.
///
/// # Errors
///
/// - `Bad` where `--limit` has no value, or one that isn't a number of digits below 253,402,300,800.
/// - Those of `who`, of the words without the options that only these commands have.
#[tactic(auto, unfolding(crate::specs::PathsWords::asked_paths))]
pub fn paths_of(alloc: Global, words: &[String], always: bool) -> Result<AllPaths, ArgumentFault>
    ensures { IsGivenFor meant_paths (asked_paths always (map string_bytes words.now)) result }
{
    match limited_in(alloc, words) {
        Ok(Some(limited)) => paths_limited(alloc, always, limited),
        Ok(None) => Err(ArgumentFault::Bad),
        Err(_) => Err(ArgumentFault::Memory),
    }
}
