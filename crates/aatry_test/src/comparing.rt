//! A transcript, compared with the replies of the run of its commands, and with the outcome of its assertions.

ghost use Rattle.std.specs.Prelude.{◌≡◌, ◌++◌, ◌∷◌, [], IfOk, OnOk, ◌≤◌, count_by, flat_map};
ghost use Rattle.aatry_test.specs.Running.{seen_asserted};
ghost use Rattle.aatry_test.specs.Differences.{comparison, count_words, differs, failure, last_line, outcome_words};
ghost use Rattle.aatry_test.specs.Differences.{part_of, part_text, parts, passed_line, passes, seen_part};
ghost use Rattle.aatry_test.specs.SeenCounts.{seen_counts};
ghost use Rattle.aatry_transcripts.specs.Transcripts.{texts};

use crate::asserted::Asserted;
use crate::differences::{push_differing_lines, push_front};
use crate::headings::push_heading;
use aatry_report::{push_number, push_shown};
use aatry_transcripts::{
    are_met, assertion_count, command_count, is_command, line_at, lines_behind, told_size,
    wanted_in, wanted_next,
};
use std::alloc::{AllocError, Global};

/// How many commands and assertions a transcript has, how many replies differ, and how many assertions don't hold.
#[derive(Clone, Copy)]
pub struct Counts {
    /// Its commands.
    pub commands: usize,
    /// Those whose replies differ.
    pub differing: usize,
    /// Its assertions.
    pub assertions: usize,
    /// Those that don't hold.
    pub failing: usize,
}

// Appends a count to a text, in these words, where there are assertions.
fn push_count(
    out: &mut Vec<u8>,
    assertions: usize,
    words: &str,
    count: usize,
) -> Result<(), AllocError>
    ensures { OnOk result (out.new.items ≡ out.old.items ++ count_words assertions words.now count) }
{
    if assertions == 0 {
        Ok(())
    } else {
        push_number(out, words, count)
    }
}

// Appends the line of a transcript that passed to a text.
fn push_passed(
    out: &mut Vec<u8>,
    path: &[u8],
    commands: usize,
    assertions: usize,
) -> Result<(), AllocError>
    ensures { OnOk result (out.new.items ≡ out.old.items ++ passed_line path.now commands assertions) }
{
    push_shown(out, path)?;
    push_number(out, ": passed: commands ", commands)?;
    push_count(out, assertions, ", assertions ", assertions)?;
    out.push(b'\n')?;
    Ok(())
}

// The words between the path of a transcript that didn't pass and its numbers.
fn outcome_words(accepted: bool) -> &'static str
    ensures { result.now ≡ outcome_words accepted }
{
    if accepted {
        ": accepted: commands "
    } else {
        ": failed: commands "
    }
}

// Appends the last line on a transcript that didn't pass to a text, where it is accepted or not.
fn push_last(
    out: &mut Vec<u8>,
    accepted: bool,
    path: &[u8],
    counts: Counts,
) -> Result<(), AllocError>
    ensures { OnOk result (out.new.items ≡ out.old.items ++ last_line accepted path.now (seen_counts counts)) }
{
    push_shown(out, path)?;
    push_number(out, outcome_words(accepted), counts.commands)?;
    push_number(out, ", differing ", counts.differing)?;
    push_count(out, counts.assertions, ", assertions ", counts.assertions)?;
    push_count(out, counts.assertions, ", failing ", counts.failing)?;
    out.push(b'\n')?;
    Ok(())
}

// Appends the difference of a reply to a text, and returns how many differ: one or none.
fn push_reply(
    path: &[u8],
    number: usize,
    line: &[u8],
    wanted: &[&[u8]],
    told: &[&[u8]],
    out: &mut Vec<u8>,
) -> Result<usize, AllocError>
    ensures told { OnOk result
        (out.new.items ≡ out.old.items ++ flat_map (part_text path.now) (seen_part number line.now (texts wanted.now) (texts told.now) ∷ [])) }
    ensures counted { IfOk result (λ count. count ≡ count_by differs (seen_part number line.now (texts wanted.now) (texts told.now) ∷ [])) }
    ensures few { IfOk result (λ count. count ≤ 1) }
{
    if are_met(wanted, told) {
        return Ok(0);
    }
    push_heading(out, path, number, line)?;
    push_differing_lines(out, wanted, told)?;
    Ok(1)
}

// Appends the difference of the reply to a line to a text, and returns how many replies differ: one or none.
fn push_line(
    alloc: Global,
    path: &[u8],
    number: usize,
    line: &[u8],
    behind: &[&[u8]],
    told: &[&[u8]],
    out: &mut Vec<u8>,
) -> Result<usize, AllocError>
    ensures told { OnOk result
        (out.new.items ≡ out.old.items ++ flat_map (part_text path.now) (part_of number line.now (texts behind.now) (texts told.now))) }
    ensures counted { IfOk result (λ count. count ≡ count_by differs (part_of number line.now (texts behind.now) (texts told.now))) }
    ensures few { IfOk result (λ count. count ≤ 1) }
{
    if !is_command(line) {
        return Ok(0);
    }
    let wanted = wanted_next(alloc, behind)?;
    push_reply(path, number, line, &wanted, told, out)
}

// Appends the difference of the reply to each command to a text, and returns how many replies differ.
fn push_parts(
    alloc: Global,
    path: &[u8],
    lines: &[&[u8]],
    told: &[&[u8]],
    out: &mut Vec<u8>,
) -> Result<usize, AllocError>
    ensures told { OnOk result (out.new.items ≡ out.old.items ++ flat_map (part_text path.now) (parts 1 (texts lines.now) (texts told.now))) }
    ensures counted { IfOk result (λ count. count ≡ count_by differs (parts 1 (texts lines.now) (texts told.now))) }
{
    let mut differing = 0;
    let mut left = told;
    for at in 0..lines.len() {
        let line = line_at(at, lines);
        let behind = lines_behind(at + 1, lines);
        let size = told_size(line, behind, left);
        differing += push_line(alloc, path, at + 1, line, behind, &left[..size], out)?;
        left = lines_behind(size, left);
    }
    Ok(differing)
}

// Appends the report on a transcript that didn't pass to a text, where it is accepted or not.
fn push_failure(
    alloc: Global,
    accepted: bool,
    path: &[u8],
    lines: &[&[u8]],
    told: &[&[u8]],
    asserted: &Asserted,
    out: &mut Vec<u8>,
) -> Result<(), AllocError>
    ensures { OnOk result (out.new.items
        ≡ out.old.items ++ failure accepted path.now (texts lines.now) (texts told.now) (seen_asserted asserted.now)) }
{
    let front = wanted_next(alloc, lines)?;
    push_front(out, path, &front)?;
    let differing = push_parts(alloc, path, lines, told, out)?;
    out.extend_from_slice(&asserted.text)?;
    let counts = Counts {
        commands: command_count(lines),
        differing,
        assertions: assertion_count(lines),
        failing: asserted.failing,
    };
    push_last(out, accepted, path, counts)
}

/// Compares a transcript with the replies of the run of its commands, and with the outcome of its assertions, appends the report to a text, and
/// returns whether the transcript passed: all reply lines are those that its wanted lines ask for, in their order (`are_met`), and all its
/// assertions hold. `lines` are those of the transcript, which is named by `path`, and `told` those of all that the run writes.
///
/// For a transcript that passed one line is appended. For another each command comes whose reply differs, with the number of its line, and below it
/// the lines that are wanted and missing, and those that aren't wanted; then the assertions that don't hold; and at the end that it failed, or where
/// it is to be accepted, that it is.
///
/// # Errors
///
/// Where memory runs out. A beginning may have been appended then.
pub fn compare(
    alloc: Global,
    accepted: bool,
    path: &[u8],
    lines: &[&[u8]],
    told: &[&[u8]],
    asserted: &Asserted,
    out: &mut Vec<u8>,
) -> Result<bool, AllocError>
    ensures passed { IfOk result (λ passed. passed ≡ passes (texts lines.now) (texts told.now) (seen_asserted asserted.now)) }
    ensures told { OnOk result (out.new.items
        ≡ out.old.items ++ comparison accepted path.now (texts lines.now) (texts told.now) (seen_asserted asserted.now)) }
{
    let wanted = wanted_in(alloc, lines)?;
    if are_met(&wanted, told) && asserted.failing == 0 {
        push_passed(out, path, command_count(lines), assertion_count(lines))?;
        return Ok(true);
    }
    push_failure(alloc, accepted, path, lines, told, asserted, out)?;
    Ok(false)
}
