//! What a transcript becomes whose replies are accepted.

ghost use Rattle.std.specs.Prelude.{◌≡◌, ◌++◌, ◌∷◌, ◌<◌, ◌≤◌, [], IfOk, OnOk, drop, length, map};
ghost use Rattle.std.specs.List.{list_all, list_any};
ghost use Rattle.std.specs.Str.Lines.{strip_carriage_return};
ghost use Rattle.aatry_transcripts.specs.Accepting.{accepted_line, accepted_lines, accepted_text, can_be_accepted, can_be_wanted, end_of, ended};
ghost use Rattle.aatry_transcripts.specs.Accepting.{is_answered, new_lines, other_line, renewed, shortened, stay_behind};
ghost use Rattle.aatry_transcripts.specs.Meeting.{are_met, leaves_out, left_out};
ghost use Rattle.aatry_transcripts.specs.Transcripts.{before_command, texts, wanted_in};

use crate::lines::{line_at, lines_behind, lines_of, without_return, without_returns};
use crate::meeting::{LEFT_OUT, are_met, leaves_out};
use crate::replies::{begins_reply, has_command, is_audit_line, told_size};
use crate::transcripts::{is_aside, is_command, is_wanted, wanted_next};
use aa_bytes::behind;
use std::alloc::{AllocError, Global};

// Whether a transcript can want an output line.
fn can_be_wanted(line: &[u8]) -> bool
    ensures { result ≡ can_be_wanted line.now }
{
    is_wanted(line) && without_return(line) == line
}

// Whether a transcript can want each of these output lines.
fn all_can_be_wanted(told: &[&[u8]]) -> bool
    ensures { result ≡ list_all can_be_wanted (texts told.now) }
{
    for line in told {
        if !can_be_wanted(line) {
            return false;
        }
    }
    true
}

/// Whether the output for a transcript, by its lines, can be accepted: a transcript can want each line of it, and where there is any, there is a
/// command for it to follow. A line can't be wanted that would be read as a command, an assertion, a comment or blanks, or that a carriage return
/// ends.
pub fn can_be_accepted(lines: &[&[u8]], told: &[&[u8]]) -> bool
    ensures { result ≡ can_be_accepted (texts lines.now) (texts told.now) }
{
    all_can_be_wanted(told) && (told.is_empty() || has_command(lines))
}

// Appends a line to a text, with its ending, and a line feed.
fn push_ended(line: &[u8], end: &[u8], out: &mut Vec<u8>) -> Result<(), AllocError>
    ensures { OnOk result (out.new.items ≡ out.old.items ++ ended ((line.now ++ end.now) ∷ [])) }
{
    out.extend_from_slice(line)?;
    out.extend_from_slice(end)?;
    out.push(b'\n')?;
    Ok(())
}

// Appends an answer without its audit line to a text, with its ending, and a line feed.
fn push_short(line: &[u8], end: &[u8], out: &mut Vec<u8>) -> Result<(), AllocError>
    ensures { OnOk result (out.new.items ≡ out.old.items ++ ended ((line.now ++ left_out ++ end.now) ∷ [])) }
{
    out.extend_from_slice(line)?;
    push_ended(LEFT_OUT, end, out)
}

// Whether an answer comes first, followed by its audit line.
fn is_answered(told: &[&[u8]]) -> bool
    ensures { result ≡ is_answered (texts told.now) }
{
    match told {
        [line, next, ..] => begins_reply(line) && is_audit_line(next),
        _ => false,
    }
}

// Appends the first of the output lines to a text, as it is wanted from now on where audit lines are left out, and returns for how many lines it
// stands.
fn push_first(told: &[&[u8]], end: &[u8], out: &mut Vec<u8>) -> Result<usize, AllocError>
    requires { 0 < length told.now }
    ensures told { IfOk result (λ size. out.new.items ++ ended (map (λ line. line ++ end.now) (shortened (texts (drop size told.now))))
        ≡ out.old.items ++ ended (map (λ line. line ++ end.now) (shortened (texts told.now)))) }
    ensures some { IfOk result (λ size. 0 < size) }
    ensures within { IfOk result (λ size. size ≤ length told.now) }
{
    if is_answered(told) {
        push_short(told[0], end, out)?;
        Ok(2)
    } else {
        push_ended(told[0], end, out)?;
        Ok(1)
    }
}

// Appends output lines to a text, as they are wanted from now on where audit lines are left out.
fn push_shortened(told: &[&[u8]], end: &[u8], out: &mut Vec<u8>) -> Result<(), AllocError>
    ensures { OnOk result (out.new.items ≡ out.old.items ++ ended (map (λ line. line ++ end.now) (shortened (texts told.now)))) }
{
    let mut left = told;
    while !left.is_empty() {
        let size = push_first(left, end, out)?;
        left = lines_behind(size, left);
    }
    Ok(())
}

// Appends each output line to a text.
fn push_each(told: &[&[u8]], end: &[u8], out: &mut Vec<u8>) -> Result<(), AllocError>
    ensures { OnOk result (out.new.items ≡ out.old.items ++ ended (map (λ line. line ++ end.now) (texts told.now))) }
{
    for line in told {
        push_ended(line, end, out)?;
    }
    Ok(())
}

// Whether one of the wanted lines leaves its audit line out.
fn any_leaves_out(wanted: &[&[u8]]) -> bool
    ensures { result ≡ list_any leaves_out (texts wanted.now) }
{
    for line in wanted {
        if leaves_out(line) {
            return true;
        }
    }
    false
}

// Appends the lines that are wanted from now on of a reply that differs to a text.
fn push_renewed(
    wanted: &[&[u8]],
    told: &[&[u8]],
    end: &[u8],
    out: &mut Vec<u8>,
) -> Result<(), AllocError>
    ensures { OnOk result (out.new.items ≡ out.old.items ++ ended (map (λ line. line ++ end.now) (renewed (texts wanted.now) (texts told.now)))) }
{
    if any_leaves_out(wanted) {
        push_shortened(told, end, out)
    } else {
        push_each(told, end, out)
    }
}

// What ends a line of a file: its carriage return, or nothing.
fn end_of(raw: &[u8]) -> &[u8]
    ensures { result.now ≡ end_of raw.now }
{
    behind(without_return(raw).len(), raw)
}

// Appends the line of a command to a text, and the new lines of its reply, if that differs; returns whether it is the wanted one.
fn push_command(
    raw: &[u8],
    wanted: &[&[u8]],
    told: &[&[u8]],
    out: &mut Vec<u8>,
) -> Result<bool, AllocError>
    ensures told { OnOk result (out.new.items ≡ out.old.items ++ ended (raw.now ∷ new_lines raw.now (texts wanted.now) (texts told.now))) }
    ensures met { IfOk result (λ met. met ≡ are_met (texts wanted.now) (texts told.now)) }
{
    push_ended(raw, b"", out)?;
    if are_met(wanted, told) {
        return Ok(true);
    }
    push_renewed(wanted, told, end_of(raw), out)?;
    Ok(false)
}

// Appends a line that holds no command to a text, if it stays.
fn push_other(stays: bool, raw: &[u8], out: &mut Vec<u8>) -> Result<(), AllocError>
    ensures { OnOk result (out.new.items ≡ out.old.items ++ ended (other_line stays raw.now)) }
{
    if stays || is_aside(without_return(raw)) {
        push_ended(raw, b"", out)
    } else {
        Ok(())
    }
}

// Appends what becomes of a line to a text, by the lines after it and the output for it, and returns whether the wanted lines that follow stay.
fn push_accepted_line(
    alloc: Global,
    stays: bool,
    raw: &[u8],
    behind: &[&[u8]],
    told: &[&[u8]],
    out: &mut Vec<u8>,
) -> Result<bool, AllocError>
    ensures told { OnOk result (out.new.items
        ≡ out.old.items ++ ended (accepted_line stays raw.now (wanted_in (before_command (texts behind.now))) (texts told.now))) }
    ensures stay { IfOk result (λ stay. stay ≡ stay_behind stays raw.now (wanted_in (before_command (texts behind.now))) (texts told.now)) }
{
    if !is_command(without_return(raw)) {
        push_other(stays, raw, out)?;
        return Ok(stays);
    }
    let wanted = wanted_next(alloc, behind)?;
    push_command(raw, &wanted, told, out)
}

// Appends what becomes of the lines of a file to a text. `lines` are the same without their carriage returns.
fn push_accepted(
    alloc: Global,
    raw: &[&[u8]],
    lines: &[&[u8]],
    told: &[&[u8]],
    out: &mut Vec<u8>,
) -> Result<(), AllocError>
    requires { texts lines.now ≡ map strip_carriage_return (texts raw.now) }
    ensures { OnOk result (out.new.items ≡ out.old.items ++ ended (accepted_lines (texts raw.now) (texts told.now))) }
{
    let mut stays = false;
    let mut left = told;
    for at in 0..lines.len() {
        let line = line_at(at, lines);
        let whole = line_at(at, raw);
        let behind = lines_behind(at + 1, lines);
        let size = told_size(line, behind, left);
        stays = push_accepted_line(alloc, stays, whole, behind, &left[..size], out)?;
        left = lines_behind(size, left);
    }
    Ok(())
}

/// The text of a transcript's file, as it becomes where the output lines for its commands are accepted. Each command, assertion, comment and line of
/// blanks stays, and so do the wanted lines of a reply that is the wanted one (`are_met`). Where a reply differs, its output lines come right after
/// its command, in place of the wanted ones, each ended like the command's line; where one of the wanted ones left its audit line out, each answer
/// leaves out its own. Wanted lines before the first command are dropped. Each line ends with a line feed, the last one too.
///
/// Where `can_be_accepted`, the text is that of a transcript with the same commands, that wants exactly this output (`what_acceptance_makes`).
///
/// # Errors
///
/// Where memory runs out.
pub fn accepted_text(
    alloc: Global,
    transcript: &[u8],
    told: &[&[u8]],
) -> Result<Vec<u8>, AllocError>
    ensures { IfOk result (λ text. text.items ≡ accepted_text transcript.now (texts told.now)) }
{
    let raw = lines_of(alloc, transcript)?;
    let lines = without_returns(alloc, &raw)?;
    let mut text = Vec::new(alloc);
    push_accepted(alloc, &raw, &lines, told, &mut text)?;
    Ok(text)
}
