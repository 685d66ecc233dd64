//! Whether a path may fit an attachment as it is written, whatever its variables hold.

ghost use Rattle.std.specs.Prelude.{◌≡◌, ◌++◌, ◌∷◌, IfOk, OnOk, option_map, false};
ghost use Rattle.aa_glob_syntax.specs.Reading.{reading};
ghost use Rattle.aatry_uncertain.specs.Fitting.{fits_by, may_fit, widened, without_variables};

use aa_bytes::begins_with_byte;
use aa_glob_pattern::Pattern;
use std::alloc::{AllocError, Global};

// The pattern in place of a variable: it matches everything.
const WHATEVER: &[u8] = b"{,**}";

// Appends what is in place of a byte to a text, by the bytes after it, where it is in no variable; and returns whether a variable begins with it.
fn push_byte(byte: u8, behind: &[u8], out: &mut Vec<u8>) -> Result<bool, AllocError>
    ensures { IfOk result (λ within. out.new.items ++ without_variables within behind.now ≡ out.old.items ++ without_variables false (byte ∷ behind.now)) }
{
    if byte == b'@' && begins_with_byte(b'{', behind) {
        out.extend_from_slice(WHATEVER)?;
        return Ok(true);
    }
    out.push(byte)?;
    Ok(false)
}

// Appends a text to another, with a pattern that matches everything in place of each variable.
fn push_without_variables(text: &[u8], out: &mut Vec<u8>) -> Result<(), AllocError>
    ensures { OnOk result (out.new.items ≡ out.old.items ++ without_variables false text.now) }
{
    let mut within = false;
    let mut rest = text;
    while let [byte, behind @ ..] = rest {
        within = if within {
            *byte != b'}'
        } else {
            push_byte(*byte, behind, out)?
        };
        rest = behind;
    }
    Ok(())
}

// An attachment as a pattern that matches at least what it does.
fn widened(alloc: Global, text: &[u8]) -> Result<Vec<u8>, AllocError>
    ensures { IfOk result (λ pattern. pattern.items ≡ widened text.now) }
{
    let mut pattern = Vec::new(alloc);
    if begins_with_byte(b'@', text) {
        pattern.push(b'/')?;
    }
    push_without_variables(text, &mut pattern)?;
    Ok(pattern)
}

// Whether a text matches a path, if it reads as a pattern.
fn fits_text(text: Vec<u8>, path: &[u8]) -> bool
    ensures { result ≡ fits_by path.now (reading text.items) }
{
    match Pattern::from_vec(text) {
        Ok(pattern) => pattern.matches(path),
        Err(_) => false,
    }
}

/// Whether a path may fit an attachment as it is written in a file that isn't read, if there is one: each variable may hold anything. For a path
/// that fits, this is false only where the attachment reads as no pattern.
///
/// # Errors
///
/// Where memory runs out.
pub fn may_fit(alloc: Global, attachment: Option<&[u8]>, path: &[u8]) -> Result<bool, AllocError>
    ensures { IfOk result (λ fits. fits ≡ may_fit (option_map (λ text. text.now) attachment.entry) path.now) }
{
    match attachment {
        None => Ok(false),
        Some(text) => Ok(fits_text(widened(alloc, text)?, path)),
    }
}
