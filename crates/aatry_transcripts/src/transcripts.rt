//! The parts of a transcript: commands, each followed by the lines that are wanted as its reply, and assertions.

ghost use Rattle.std.specs.Prelude.{◌≡◌, ◌++◌, ◌≤◌, IfOk, OnOk, length, count_by, not};
ghost use Rattle.std.specs.List.{prefix_len};
ghost use Rattle.aatry_transcripts.specs.Transcripts.{assertion_in, before_command, command_in, given_line, input_of, is_aside, is_assertion, is_blank};
ghost use Rattle.aatry_transcripts.specs.Transcripts.{is_command, is_note, is_wanted, texts, wanted_in};

use aa_bytes::{begins_with, begins_with_byte, behind};
use std::alloc::{AllocError, Global};

const COMMAND_SIGN: &[u8] = b"> ";

const ASSERTION_SIGN: &[u8] = b"! ";

/// Whether a line holds a command.
pub fn is_command(line: &[u8]) -> bool
    ensures { result ≡ is_command line.now }
{
    begins_with(COMMAND_SIGN, line)
}

/// The command in such a line.
pub fn command_in(line: &[u8]) -> &[u8]
    ensures { result.now ≡ command_in line.now }
{
    behind(COMMAND_SIGN.len(), line)
}

/// Whether a text is blanks alone.
pub fn is_blank(text: &[u8]) -> bool
    ensures { result ≡ is_blank text.now }
{
    text.iter()
        .all(|byte| *byte == b' ' || *byte == b'\t' || *byte == b'\r')
}

/// Whether a line holds an assertion.
pub fn is_assertion(line: &[u8]) -> bool
    ensures { result ≡ is_assertion line.now }
{
    begins_with(ASSERTION_SIGN, line)
}

/// The assertion in such a line.
pub fn assertion_in(line: &[u8]) -> &[u8]
    ensures { result.now ≡ assertion_in line.now }
{
    behind(ASSERTION_SIGN.len(), line)
}

// Whether a line is for the reader alone: a comment, or blanks.
fn is_note(line: &[u8]) -> bool
    ensures { result ≡ is_note line.now }
{
    begins_with_byte(b'#', line) || is_blank(line)
}

/// Whether a line is part of no reply: a comment, blanks, or an assertion.
pub fn is_aside(line: &[u8]) -> bool
    ensures { result ≡ is_aside line.now }
{
    is_note(line) || is_assertion(line)
}

/// Whether a line is wanted as part of a reply.
pub fn is_wanted(line: &[u8]) -> bool
    ensures { result ≡ is_wanted line.now }
{
    !(is_command(line) || is_aside(line))
}

/// Those of these lines that are wanted.
///
/// # Errors
///
/// Where memory runs out.
pub fn wanted_in<'a>(alloc: Global, lines: &[&'a [u8]]) -> Result<Vec<&'a [u8]>, AllocError>
    ensures { IfOk result (λ wanted. texts wanted.items ≡ wanted_in (texts lines.now)) }
{
    let mut wanted = Vec::new(alloc);
    for line in lines {
        if is_wanted(line) {
            wanted.push(*line)?;
        }
    }
    Ok(wanted)
}

// How many lines come before the next command.
fn size_before_command(lines: &[&[u8]]) -> usize
    ensures value { result ≡ prefix_len (λ line. not (is_command line)) (texts lines.now) }
    ensures within { result ≤ length lines.now }
{
    let mut size = 0;
    for line in lines {
        if is_command(line) {
            return size;
        }
        size += 1;
    }
    size
}

/// The lines that are wanted before the next command.
///
/// # Errors
///
/// Where memory runs out.
pub fn wanted_next<'a>(alloc: Global, lines: &[&'a [u8]]) -> Result<Vec<&'a [u8]>, AllocError>
    ensures { IfOk result (λ wanted. texts wanted.items ≡ wanted_in (before_command (texts lines.now))) }
{
    wanted_in(alloc, &lines[..size_before_command(lines)])
}

/// How many of these lines hold a command.
pub fn command_count(lines: &[&[u8]]) -> usize
    ensures { result ≡ count_by is_command (texts lines.now) }
{
    let mut count = 0;
    for line in lines {
        if is_command(line) {
            count += 1;
        }
    }
    count
}

/// How many of these lines hold an assertion.
pub fn assertion_count(lines: &[&[u8]]) -> usize
    ensures { result ≡ count_by is_assertion (texts lines.now) }
{
    let mut count = 0;
    for line in lines {
        if is_assertion(line) {
            count += 1;
        }
    }
    count
}

// Appends a command and a line feed to the run's input, where a line holds a command.
fn push_given(given: &mut Vec<u8>, line: &[u8]) -> Result<(), AllocError>
    ensures { OnOk result (given.new.items ≡ given.old.items ++ given_line line.now) }
{
    given.extend_from_slice(command_in(line))?;
    given.push(b'\n')?;
    Ok(())
}

/// The input of a run for the commands of a transcript, by its lines: each command in turn, ended by a line feed.
///
/// # Errors
///
/// Where memory runs out.
pub fn input_of(alloc: Global, lines: &[&[u8]]) -> Result<Vec<u8>, AllocError>
    ensures { IfOk result (λ input. input.items ≡ input_of (texts lines.now)) }
{
    let mut input = Vec::new(alloc);
    for line in lines {
        if is_command(line) {
            push_given(&mut input, line)?;
        }
    }
    Ok(input)
}
