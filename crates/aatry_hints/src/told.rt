//! The hint for words that ask for nothing.

ghost use Rattle.std.specs.Prelude.{◌≡◌, [], IfOk, map, option_map, string_bytes, unwrap_or};
ghost use Rattle.aatry_hints.specs.Commands.{own_options_by};
ghost use Rattle.aatry_hints.specs.Hints.{bad_value_told, going_hint, hint, no_option_told, no_value_told, not_taken_told, options_hint, refused_told, taken_hint, unknown_told, values_hint, wanted_told};
ghost use Rattle.aatry_hints.specs.Options.{options};
ghost use Rattle.aatry_hints.specs.Parts.{parts};
ghost use Rattle.aatry_hints.specs.Seen.{seen_bad};
ghost use Rattle.aatry_words.specs.Near.{nearest};

use crate::commands::{not_taken_by, own_options_by, unknown_in};
use crate::hints::misspelled_by;
use crate::options::OPTIONS;
use crate::parts::{command_in, last_part};
use crate::together::together_hint;
use crate::values::{BadValue, bad_value_in, lacking, values_told};
use aatry_report::push_shown;
use aatry_words::nearest_text;
use std::alloc::{AllocError, Global};

// The hint for a name that no option has, with the option that may have been meant.
fn no_option_told(alloc: Global, name: &[u8], near: Option<&[u8]>) -> Result<Vec<u8>, AllocError>
    ensures { IfOk result (λ line. line.items ≡ no_option_told name.now (option_map (λ name. name.now) near.entry)) }
{
    let mut line = Vec::from_slice(alloc, b"aatry: unknown option ")?;
    push_shown(&mut line, name)?;
    let Some(near) = near else {
        line.push(b'\n')?;
        return Ok(line);
    };
    line.extend_from_slice(b": did you mean ")?;
    push_shown(&mut line, near)?;
    line.extend_from_slice(b"?\n")?;
    Ok(line)
}

// The option that a name may stand for, if one is near.
fn nearest_option(alloc: Global, name: &[u8]) -> Result<Option<&'static [u8]>, AllocError>
    ensures { IfOk result (λ found. option_map (λ option. option.now) found ≡ nearest name.now options) }
{
    nearest_text(alloc, name, &OPTIONS)
}

// The hint for a name that no option has, if there is one.
fn unknown_told(alloc: Global, name: Option<&[u8]>) -> Result<Option<Vec<u8>>, AllocError>
    ensures { IfOk result (λ line. option_map (λ line. line.items) line ≡ unknown_told (option_map (λ name. name.now) name.entry)) }
{
    match name {
        None => Ok(None),
        Some(name) => {
            let near = nearest_option(alloc, name)?;
            let line = no_option_told(alloc, name, near)?;
            Ok(Some(line))
        }
    }
}

// The hint for a command and an option that it doesn't take, if there is one.
fn not_taken_told(
    alloc: Global,
    command: Option<&[u8]>,
    name: Option<&[u8]>,
) -> Result<Option<Vec<u8>>, AllocError>
    ensures { IfOk result (λ line. option_map (λ line. line.items) line
        ≡ not_taken_told (option_map (λ command. command.now) command.entry) (option_map (λ name. name.now) name.entry)) }
{
    let Some(command) = command else {
        return Ok(None);
    };
    let Some(name) = name else {
        return Ok(None);
    };
    let mut line = Vec::from_slice(alloc, b"aatry: ")?;
    push_shown(&mut line, command)?;
    line.extend_from_slice(b" takes no ")?;
    push_shown(&mut line, name)?;
    line.push(b'\n')?;
    Ok(Some(line))
}

// The hint for an option whose value is missing.
fn wanted_told(alloc: Global, name: &[u8]) -> Result<Vec<u8>, AllocError>
    ensures { IfOk result (λ line. line.items ≡ wanted_told name.now) }
{
    let mut line = Vec::from_slice(alloc, b"aatry: a value is required after ")?;
    push_shown(&mut line, name)?;
    line.push(b'\n')?;
    Ok(line)
}

// The hint for an option with a value that it doesn't take.
fn refused_told(alloc: Global, name: &[u8], value: &[u8]) -> Result<Vec<u8>, AllocError>
    ensures { IfOk result (λ line. line.items ≡ refused_told name.now value.now) }
{
    let mut line = Vec::from_slice(alloc, b"aatry: ")?;
    push_shown(&mut line, name)?;
    line.extend_from_slice(b" takes ")?;
    line.extend_from_slice(values_told(name))?;
    line.extend_from_slice(b", not ")?;
    push_shown(&mut line, value)?;
    line.push(b'\n')?;
    Ok(line)
}

// The hint for an option with a value that it doesn't take, if there is one: an empty value counts as missing.
fn bad_value_told(alloc: Global, bad: Option<BadValue<'_>>) -> Result<Option<Vec<u8>>, AllocError>
    ensures { IfOk result (λ line. option_map (λ line. line.items) line ≡ bad_value_told (option_map seen_bad bad.entry)) }
{
    let Some(BadValue { name, value }) = bad else {
        return Ok(None);
    };
    if value.is_empty() {
        return Ok(Some(wanted_told(alloc, name)?));
    }
    Ok(Some(refused_told(alloc, name, value)?))
}

// The hint for an option at the end that lacks its value.
fn no_value_told(alloc: Global, name: Option<&[u8]>) -> Result<Option<Vec<u8>>, AllocError>
    ensures { IfOk result (λ line. option_map (λ line. line.items) line ≡ no_value_told (option_map (λ name. name.now) name.entry)) }
{
    match name {
        None => Ok(None),
        Some(name) => Ok(Some(wanted_told(alloc, name)?)),
    }
}

// The hint for the values among words, by the word in place of a command, if there is one.
fn values_hint(
    alloc: Global,
    command: Option<&[u8]>,
    words: &[String],
) -> Result<Option<Vec<u8>>, AllocError>
    ensures { IfOk result (λ line. option_map (λ line. line.items) line
        ≡ values_hint (option_map (λ command. command.now) command.entry) (parts (map string_bytes words.now))) }
{
    let own = own_options_by(command).unwrap_or(&[]);
    match bad_value_told(alloc, bad_value_in(own, words))? {
        Some(line) => Ok(Some(line)),
        None => no_value_told(alloc, lacking(last_part(words))),
    }
}

// The hint for options that don't go together, or else for values.
fn going_hint(
    alloc: Global,
    command: Option<&[u8]>,
    words: &[String],
) -> Result<Option<Vec<u8>>, AllocError>
    ensures { IfOk result (λ line. option_map (λ line. line.items) line
        ≡ going_hint (option_map (λ command. command.now) command.entry) (parts (map string_bytes words.now))) }
{
    match together_hint(alloc, command, words)? {
        Some(line) => Ok(Some(line)),
        None => values_hint(alloc, command, words),
    }
}

// The hint for options that the command doesn't take, or else for those that don't go together, or for values.
fn taken_hint(
    alloc: Global,
    command: Option<&[u8]>,
    words: &[String],
) -> Result<Option<Vec<u8>>, AllocError>
    ensures { IfOk result (λ line. option_map (λ line. line.items) line
        ≡ taken_hint (option_map (λ command. command.now) command.entry) (parts (map string_bytes words.now))) }
{
    let name = not_taken_by(own_options_by(command), words);
    match not_taken_told(alloc, command, name)? {
        Some(line) => Ok(Some(line)),
        None => going_hint(alloc, command, words),
    }
}

// The hint for options that don't exist, or else for all other faults of options and values.
fn options_hint(
    alloc: Global,
    command: Option<&[u8]>,
    words: &[String],
) -> Result<Option<Vec<u8>>, AllocError>
    ensures { IfOk result (λ line. option_map (λ line. line.items) line
        ≡ options_hint (option_map (λ command. command.now) command.entry) (parts (map string_bytes words.now))) }
{
    match unknown_told(alloc, unknown_in(words))? {
        Some(line) => Ok(Some(line)),
        None => taken_hint(alloc, command, words),
    }
}

/// The hint for the words of a start after the program's own name that ask for nothing, if it can be seen what was meant. It is for the first of
/// these that there is: a word in place of a command that is none and near to one; a word of an option's form that is none; an option that the
/// command doesn't take; one of `diff` that goes only with `--all`, or only without it; an option with a value that it doesn't take; and an option
/// at the end that lacks its value.
///
/// # Errors
///
/// Where memory runs out.
pub fn hint(alloc: Global, words: &[String]) -> Result<Option<Vec<u8>>, AllocError>
    ensures { IfOk result (λ line. option_map (λ line. line.items) line ≡ hint (map string_bytes words.now)) }
{
    let command = command_in(words);
    match misspelled_by(alloc, command)? {
        Some(line) => Ok(Some(line)),
        None => options_hint(alloc, command, words),
    }
}
