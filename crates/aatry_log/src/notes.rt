//! The notes on logs beside the report.

ghost use Rattle.std.specs.Prelude.{◌≡◌, ◌++◌, OnOk};
ghost use Rattle.aatry_log.specs.Notes.{apart_note, disconnected_note, interpreted_note, learning_note, logs_note, nobody_note, note_line, number_words};
ghost use Rattle.aatry_log.specs.Notes.{unreadable_note};
ghost use Rattle.aatry_logs.specs.LogRequests.{seen_logs};

use aatry_logs::LogRequests;
use aatry_requests::push_number;
use std::alloc::AllocError;

// Appends the words for a number to a text: those for one, or the number and those for several.
fn push_words(number: u64, one: &[u8], several: &[u8], out: &mut Vec<u8>) -> Result<(), AllocError>
    ensures { OnOk result (out.new.items ≡ out.old.items ++ number_words number one.now several.now) }
{
    if number == 1 {
        return out.extend_from_slice(one);
    }
    push_number(out, number, several)
}

// Appends a line of such words to a text, where the number isn't 0.
fn push_note_line(
    number: u64,
    one: &[u8],
    several: &[u8],
    out: &mut Vec<u8>,
) -> Result<(), AllocError>
    ensures { OnOk result (out.new.items ≡ out.old.items ++ note_line number one.now several.now) }
{
    if number == 0 {
        return Ok(());
    }
    out.extend_from_slice(b"aatry: ")?;
    push_words(number, one, several, out)?;
    out.push(b'\n')?;
    Ok(())
}

// Appends how many lines can't be read to a text.
fn push_unreadable_note(number: u64, out: &mut Vec<u8>) -> Result<(), AllocError>
    ensures { OnOk result (out.new.items ≡ out.old.items ++ unreadable_note number) }
{
    push_note_line(
        number,
        b"1 line can't be read",
        b" lines can't be read",
        out,
    )
}

// Appends how many of them `ausearch -i` wrote to a text.
fn push_interpreted_note(number: u64, out: &mut Vec<u8>) -> Result<(), AllocError>
    ensures { OnOk result (out.new.items ≡ out.old.items ++ interpreted_note number) }
{
    push_note_line(
        number,
        b"1 of them is written by ausearch -i, of which none is read: use ausearch --raw",
        b" of them are written by ausearch -i, of which none is read: use ausearch --raw",
        out,
    )
}

// Appends how many requests are for files of which the kernel knew no whole path to a text.
fn push_disconnected_note(number: u64, out: &mut Vec<u8>) -> Result<(), AllocError>
    ensures { OnOk result (out.new.items ≡ out.old.items ++ disconnected_note number) }
{
    push_note_line(
        number,
        b"1 request is for a file of which the kernel knew no whole path (disconnected): see the flag attach_disconnected",
        b" requests are for files of which the kernel knew no whole path (disconnected): see the flag attach_disconnected",
        out,
    )
}

// Appends how many requests are of learning profiles to a text.
fn push_learning_note(number: u64, out: &mut Vec<u8>) -> Result<(), AllocError>
    ensures { OnOk result (out.new.items ≡ out.old.items ++ learning_note number) }
{
    push_note_line(
        number,
        b"1 request is of a learning profile NAME//null-PATH: in complain mode NAME started PATH, with no rule for that",
        b" requests are of learning profiles NAME//null-PATH: in complain mode NAME started PATH, with no rule for that",
        out,
    )
}

// Appends the notes on lines that make no question to a text.
fn push_apart_note(logs: &LogRequests<'_>, out: &mut Vec<u8>) -> Result<(), AllocError>
    ensures { OnOk result (out.new.items ≡ out.old.items ++ apart_note (seen_logs logs.now)) }
{
    push_unreadable_note(logs.unreadable.count, out)?;
    push_interpreted_note(logs.interpreted, out)?;
    push_disconnected_note(logs.disconnected.count, out)?;
    push_learning_note(logs.learning.count, out)
}

// Appends how many questions have an asker that isn't loaded to a text.
fn push_nobody_note(number: u64, out: &mut Vec<u8>) -> Result<(), AllocError>
    ensures { OnOk result (out.new.items ≡ out.old.items ++ nobody_note number) }
{
    push_note_line(
        number,
        b"1 question is of nobody here",
        b" questions are of nobody here",
        out,
    )
}

/// Appends the notes on logs to a text: a line with how many of their lines can't be read, one with how many of these `ausearch -i` wrote, one each
/// with how many requests are for files of which the kernel knew no whole path, and of learning profiles, and one with how many questions have an
/// asker that isn't loaded, each where the number isn't 0.
///
/// # Errors
///
/// Where memory runs out. A beginning may have been appended then.
pub fn push_logs_note(
    logs: &LogRequests<'_>,
    nobody: usize,
    out: &mut Vec<u8>,
) -> Result<(), AllocError>
    ensures { OnOk result (out.new.items ≡ out.old.items ++ logs_note (seen_logs logs.now) nobody) }
{
    push_apart_note(logs, out)?;
    push_nobody_note(nobody as u64, out)
}
