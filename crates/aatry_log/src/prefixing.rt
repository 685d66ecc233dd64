//! Lines with a prefix.

ghost use Rattle.std.specs.Prelude.{◌≡◌, ◌++◌, OnOk, false, flat_map};
ghost use Rattle.std.specs.List.{list_any};
ghost use Rattle.aa_set_commands.specs.Lines.{is_line_feed, lines};
ghost use Rattle.aatry_log.specs.Prefixed.{prefixed, prefixed_text};

use aa_set_commands::first_line;
use aatry_report::Form;
use std::alloc::AllocError;

// Appends a line to a text, after a prefix.
fn push_line(prefix: &[u8], line: &[u8], out: &mut Vec<u8>) -> Result<(), AllocError>
    ensures { OnOk result (out.new.items ≡ out.old.items ++ prefixed prefix.now line.now) }
{
    out.extend_from_slice(prefix)?;
    out.extend_from_slice(line)?;
    out.push(b'\n')?;
    Ok(())
}

// Appends what follows the last line feed to a text: the last line, or nothing.
fn push_last(prefix: &[u8], rest: &[u8], out: &mut Vec<u8>) -> Result<(), AllocError>
    requires { list_any is_line_feed rest.now ≡ false }
    ensures { OnOk result (out.new.items ≡ out.old.items ++ flat_map (prefixed prefix.now) (lines rest.now)) }
{
    if rest.is_empty() {
        return Ok(());
    }
    push_line(prefix, rest, out)
}

// Appends lines to a text, each after a prefix.
fn push_lines(prefix: &[u8], text: &[u8], out: &mut Vec<u8>) -> Result<(), AllocError>
    ensures { OnOk result (out.new.items ≡ out.old.items ++ flat_map (prefixed prefix.now) (lines text.now)) }
{
    let mut rest = text;
    while let Some((line, behind)) = first_line(rest) {
        push_line(prefix, line, out)?;
        rest = behind;
    }
    push_last(prefix, rest, out)
}

/// Appends lines to a text, each after a prefix, or records as they are.
///
/// # Errors
///
/// Where memory runs out. A beginning may have been appended then.
pub fn push_prefixed(
    form: Form,
    prefix: &[u8],
    text: &[u8],
    out: &mut Vec<u8>,
) -> Result<(), AllocError>
    ensures { OnOk result (out.new.items ≡ out.old.items ++ prefixed_text form prefix.now text.now) }
{
    match form {
        Form::Lines => push_lines(prefix, text, out),
        Form::Records => out.extend_from_slice(text),
    }
}
