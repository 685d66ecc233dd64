//! Options of a command that go only with a flag, or only without it: of `diff` with `--all`, and of `check` with `--rules`.

ghost use Rattle.std.specs.Prelude.{◌≡◌, IfOk, map, option_map, string_bytes};
ghost use Rattle.aatry_hints.specs.Parts.{parts};
ghost use Rattle.aatry_hints.specs.Seen.{seen_together};
ghost use Rattle.aatry_hints.specs.Together.{bars_told, first_of, needs_told, together_hint, together_of, together_told};

use crate::options::is_word_of;
use crate::parts::{Part, first_part, is_given};
use aatry_report::push_shown;
use std::alloc::{AllocError, Global};

/// Which options of a command go with a flag, and which don't.
#[derive(Clone, Copy)]
pub struct Together {
    /// The command.
    pub command: &'static str,
    /// The flag.
    pub flag: &'static str,
    /// The options that the command takes only with it.
    pub only_with: &'static [&'static str],
    /// The options that it takes only without it.
    pub only_without: &'static [&'static str],
}

// `diff` for all paths.
const WITH_ALL: Together = Together {
    command: "diff",
    flag: "--all",
    only_with: &["--quiet-audit", "--limit"],
    only_without: &["--log", "--questions"],
};

// `check` for rules that decide nothing.
const WITH_RULES: Together = Together {
    command: "check",
    flag: "--rules",
    only_with: &["--included", "--limit", "--verbose"],
    only_without: &[],
};

// The flag of a command and its options, if it has one.
fn together_of(command: &[u8]) -> Option<Together>
    ensures { option_map seen_together result ≡ together_of command.now }
{
    if command == b"diff".as_slice() {
        Some(WITH_ALL)
    } else if command == b"check".as_slice() {
        Some(WITH_RULES)
    } else {
        None
    }
}

// The first option among some words that is one of these.
fn first_of<'a>(names: &[&str], words: &'a [String]) -> Option<&'a [u8]>
    ensures { option_map (λ name. name.now) result ≡ first_of (map (λ name. name.now) names.now) (parts (map string_bytes words.now)) }
{
    let mut rest = words;
    while let Some((part, behind)) = first_part(rest) {
        if let Part::Given(name, _) = part
            && is_word_of(names, name)
        {
            return Some(name);
        }
        rest = behind;
    }
    None
}

// The hint for an option that needs the flag, if there is one.
fn needs_told(
    alloc: Global,
    together: Together,
    name: Option<&[u8]>,
) -> Result<Option<Vec<u8>>, AllocError>
    ensures { IfOk result (λ line. option_map (λ line. line.items) line ≡ needs_told (seen_together together) (option_map (λ name. name.now) name.entry)) }
{
    let Some(name) = name else {
        return Ok(None);
    };
    let mut line = Vec::from_slice(alloc, b"aatry: ")?;
    line.extend_from_slice(together.command.as_bytes())?;
    line.extend_from_slice(b" takes ")?;
    push_shown(&mut line, name)?;
    line.extend_from_slice(b" only with ")?;
    line.extend_from_slice(together.flag.as_bytes())?;
    line.push(b'\n')?;
    Ok(Some(line))
}

// The hint for an option that can't be given with the flag, if there is one.
fn bars_told(
    alloc: Global,
    together: Together,
    name: Option<&[u8]>,
) -> Result<Option<Vec<u8>>, AllocError>
    ensures { IfOk result (λ line. option_map (λ line. line.items) line ≡ bars_told (seen_together together) (option_map (λ name. name.now) name.entry)) }
{
    let Some(name) = name else {
        return Ok(None);
    };
    let mut line = Vec::from_slice(alloc, b"aatry: ")?;
    line.extend_from_slice(together.command.as_bytes())?;
    line.extend_from_slice(b" takes no ")?;
    push_shown(&mut line, name)?;
    line.extend_from_slice(b" with ")?;
    line.extend_from_slice(together.flag.as_bytes())?;
    line.push(b'\n')?;
    Ok(Some(line))
}

// The hint for the options of a command among words.
fn together_told(
    alloc: Global,
    words: &[String],
    together: Together,
) -> Result<Option<Vec<u8>>, AllocError>
    ensures { IfOk result (λ line. option_map (λ line. line.items) line ≡ together_told (parts (map string_bytes words.now)) (seen_together together)) }
{
    if is_given(together.flag.as_bytes(), words) {
        bars_told(alloc, together, first_of(together.only_without, words))
    } else {
        needs_told(alloc, together, first_of(together.only_with, words))
    }
}

/// The hint for an option that goes only with a flag of the command, or only without it, by the word in place of a command, if there is one.
///
/// # Errors
///
/// Where memory runs out.
pub fn together_hint(
    alloc: Global,
    command: Option<&[u8]>,
    words: &[String],
) -> Result<Option<Vec<u8>>, AllocError>
    ensures { IfOk result (λ line. option_map (λ line. line.items) line
        ≡ together_hint (option_map (λ command. command.now) command.entry) (parts (map string_bytes words.now))) }
{
    let Some(command) = command else {
        return Ok(None);
    };
    match together_of(command) {
        Some(together) => together_told(alloc, words, together),
        None => Ok(None),
    }
}
