//! Lines of text, in colours.

ghost use Rattle.std.specs.Prelude.{◌≡◌, ◌++◌, ℕ, List, OnOk};
ghost use Rattle.aatry_hints.specs.Colors.{IsColored, colored_line};

use crate::colors::push_painted;
use aa_set_commands::first_line;
use std::alloc::AllocError;

// Appends a line in its colour to a text.
fn push_line(line: &[u8], out: &mut Vec<u8>) -> Result<(), AllocError>
    ensures { OnOk result (out.new.items ≡ out.old.items ++ colored_line line.now) }
{
    push_painted(line, out)?;
    out.push(b'\n')?;
    Ok(())
}

/// Appends a text to another, each of its whole lines in its colour: lines on what is more, or what is allowed, in green, lines on what is less, or
/// what isn't allowed, in red, and those of `complain` in yellow (docs/aatry.md, "Colours"). What no line feed ends stays as it is.
///
/// # Errors
///
/// Where memory runs out. A beginning may have been appended then.
pub fn push_colored(text: &[u8], out: &mut Vec<u8>) -> Result<(), AllocError>
    ensures { OnOk result ((shown : List ℕ) × (out.new.items ≡ out.old.items ++ shown) × IsColored text.now shown) }
{
    let mut rest = text;
    while let Some((line, behind)) = first_line(rest) {
        push_line(line, out)?;
        rest = behind;
    }
    out.extend_from_slice(rest)
}
