//! The hints for the words of a log's line, and for a word in place of a command.

ghost use Rattle.std.specs.Prelude.{◌≡◌, IfOk, map, option_map, string_bytes};
ghost use Rattle.std.specs.List.{list_any};
ghost use Rattle.aatry_hints.specs.Hints.{command_meant, cut_line, is_cut_line, is_pair, misspelled_by, no_command_told, other_than};

use crate::commands::COMMANDS;
use aa_bytes::begins_with;
use aatry_report::push_shown;
use aatry_words::nearest_text;
use std::alloc::{AllocError, Global};

// The hint for words into which a shell cut the line of a log.
const CUT_LINE: &[u8] =
    b"aatry: quote a log line as one word: aatry why 'LINE'; or pipe it into aatry log\n";

// Whether one of some words begins with `apparmor=`, as each audit line has it.
fn has_pair(words: &[String]) -> bool
    ensures { result ≡ list_any is_pair (map string_bytes words.now) }
{
    let mut rest = words;
    while let [word, behind @ ..] = rest {
        if begins_with(b"apparmor=", word.as_bytes()) {
            return true;
        }
        rest = behind;
    }
    false
}

// Whether words are those of a line of a log, into which a shell cut it.
fn is_cut_line(words: &[String]) -> bool
    ensures { result ≡ is_cut_line (map string_bytes words.now) }
{
    match words {
        [] => false,
        [_] => false,
        [_, _, ..] => has_pair(words),
    }
}

/// The hint for words after `why` that make no question, where they are those of a line of a log, into which a shell cut it. It takes no memory.
pub fn cut_line(words: &[String]) -> Option<&'static [u8]>
    ensures { option_map (λ line. line.now) result ≡ cut_line (map string_bytes words.now) }
{
    if is_cut_line(words) {
        Some(CUT_LINE)
    } else {
        None
    }
}

// A name that was found for a word, if it differs from the word.
fn other_than<'a>(word: &[u8], found: Option<&'a [u8]>) -> Option<&'a [u8]>
    ensures { option_map (λ name. name.now) result ≡ other_than word.now (option_map (λ name. name.now) found.entry) }
{
    match found {
        Some(name) if name == word => None,
        Some(name) => Some(name),
        None => None,
    }
}

// The hint for a word in place of a command, if it may stand for one.
fn no_command_told(
    alloc: Global,
    word: &[u8],
    near: Option<&[u8]>,
) -> Result<Option<Vec<u8>>, AllocError>
    ensures { IfOk result (λ line. option_map (λ line. line.items) line ≡ no_command_told word.now (option_map (λ name. name.now) near.entry)) }
{
    let Some(near) = near else {
        return Ok(None);
    };
    let mut line = Vec::from_slice(alloc, b"aatry: unknown command ")?;
    push_shown(&mut line, word)?;
    line.extend_from_slice(b": did you mean ")?;
    push_shown(&mut line, near)?;
    line.extend_from_slice(b"?\n")?;
    Ok(Some(line))
}

// The command that a word may stand for, where it is none.
fn command_meant(alloc: Global, word: &[u8]) -> Result<Option<&'static [u8]>, AllocError>
    ensures { IfOk result (λ found. option_map (λ name. name.now) found ≡ command_meant word.now) }
{
    let found = nearest_text(alloc, word, &COMMANDS)?;
    Ok(other_than(word, found))
}

/// The hint for a word in place of a command that is none and near to one, if there is such a word.
///
/// # Errors
///
/// Where memory runs out.
pub fn misspelled_by(alloc: Global, word: Option<&[u8]>) -> Result<Option<Vec<u8>>, AllocError>
    ensures { IfOk result (λ line. option_map (λ line. line.items) line ≡ misspelled_by (option_map (λ word. word.now) word.entry)) }
{
    match word {
        None => Ok(None),
        Some(word) => {
            let near = command_meant(alloc, word)?;
            no_command_told(alloc, word, near)
        }
    }
}
