//! The report on lines that differ.

ghost use Rattle.std.specs.Prelude.{◌≡◌, ◌++◌, OnOk};
ghost use Rattle.std.specs.List.{list_all};
ghost use Rattle.aatry_test.specs.Differences.{ahead_line, are_reordered, differing_lines, front_text};
ghost use Rattle.aatry_test.specs.Differences.{is_among, marked_line, marked_lines};
ghost use Rattle.aatry_transcripts.specs.Transcripts.{texts};

use aatry_report::push_shown;
use std::alloc::AllocError;

// Whether a line is one of these.
fn is_among(lines: &[&[u8]], line: &[u8]) -> bool
    ensures { result ≡ is_among (texts lines.now) line.now }
{
    for other in lines {
        if line == *other {
            return true;
        }
    }
    false
}

// Whether each of these lines is among the others.
fn are_among(others: &[&[u8]], lines: &[&[u8]]) -> bool
    ensures { result ≡ list_all (is_among (texts others.now)) (texts lines.now) }
{
    for line in lines {
        if !is_among(others, line) {
            return false;
        }
    }
    true
}

// Whether lines differ from others in their order or number alone.
fn are_reordered(lines: &[&[u8]], others: &[&[u8]]) -> bool
    ensures { result ≡ are_reordered (texts lines.now) (texts others.now) }
{
    are_among(others, lines) && are_among(lines, others)
}

// Appends a line to a text, after a sign and as it is shown.
fn push_marked(out: &mut Vec<u8>, sign: &str, line: &[u8]) -> Result<(), AllocError>
    ensures { OnOk result (out.new.items ≡ out.old.items ++ marked_line sign.now line.now) }
{
    out.extend_from_slice(sign.as_bytes())?;
    push_shown(out, line)?;
    out.push(b'\n')?;
    Ok(())
}

// Appends those of these lines that aren't among the others, or all of them, to a text, each after a sign.
fn push_marked_lines(
    out: &mut Vec<u8>,
    sign: &str,
    all: bool,
    others: &[&[u8]],
    lines: &[&[u8]],
) -> Result<(), AllocError>
    ensures { OnOk result (out.new.items ≡ out.old.items ++ marked_lines sign.now all (texts others.now) (texts lines.now)) }
{
    for line in lines {
        if all || !is_among(others, line) {
            push_marked(out, sign, line)?;
        }
    }
    Ok(())
}

/// Appends the lines of a reply that differ to a text.
///
/// # Errors
///
/// Where memory runs out.
pub fn push_differing_lines(
    out: &mut Vec<u8>,
    wanted: &[&[u8]],
    told: &[&[u8]],
) -> Result<(), AllocError>
    ensures { OnOk result (out.new.items ≡ out.old.items ++ differing_lines (texts wanted.now) (texts told.now)) }
{
    let all = are_reordered(wanted, told);
    push_marked_lines(out, "- ", all, told, wanted)?;
    push_marked_lines(out, "+ ", all, wanted, told)
}

// Appends the report on one wanted line before the first command to a text.
fn push_ahead(out: &mut Vec<u8>, path: &[u8], line: &[u8]) -> Result<(), AllocError>
    ensures { OnOk result (out.new.items ≡ out.old.items ++ ahead_line path.now line.now) }
{
    push_shown(out, path)?;
    push_marked(out, ": ahead of the first command: ", line)
}

/// Appends the report on wanted lines before the first command to a text.
///
/// # Errors
///
/// Where memory runs out.
pub fn push_front(out: &mut Vec<u8>, path: &[u8], wanted: &[&[u8]]) -> Result<(), AllocError>
    ensures { OnOk result (out.new.items ≡ out.old.items ++ front_text path.now (texts wanted.now)) }
{
    for line in wanted {
        push_ahead(out, path, line)?;
    }
    Ok(())
}
