//! Wider patterns for paths, as they are written in the quotes of a profile's file.

ghost use Rattle.std.specs.Prelude.{◌≡◌, ◌++◌, ◌||◌, IfOk, OnOk};
ghost use Rattle.std.specs.Option.{option_map};
ghost use Rattle.aa_explain_written.specs.Quotes.{needs_escape};
ghost use Rattle.aa_glob.specs.Laws.{needs_backslash};
ghost use Rattle.aatry_log_globs.specs.SeenRuns.{seen_run};
ghost use Rattle.aatry_log_globs.specs.Widening.{can_be_told, first_step, is_offered, spelled, spelled_byte, step, widened, widened_behind, wider};

use crate::runs::{Run, run_behind};
use crate::variables::push_front;
use aa_bytes::behind;
use aa_glob_syntax::LONGEST_PATTERN;
use aatry_report::push_shown;
use std::alloc::{AllocError, Global};

// Whether a byte of a path, after another, needs a backslash in quotes to stand for itself.
fn needs_backslash(before: u8, byte: u8) -> bool
    ensures { result ≡ needs_backslash byte || needs_escape before byte }
{
    matches!(byte, b'\\' | b'*' | b'?' | b'[' | b']' | b'{' | b'}' | b'"')
        || (byte == b'/' && before == b'/')
}

// Appends a byte of a path, after another, to a pattern in quotes, in which it stands for itself.
fn push_spelled_byte(out: &mut Vec<u8>, before: u8, byte: u8) -> Result<(), AllocError>
    ensures { OnOk result (out.new.items ≡ out.old.items ++ spelled_byte before byte) }
{
    if needs_backslash(before, byte) {
        out.push(b'\\')?;
    }
    out.push(byte)?;
    Ok(())
}

// The pattern of a path alone.
fn spelled(alloc: Global, path: &[u8]) -> Result<Vec<u8>, AllocError>
    ensures { IfOk result (λ text. text.items ≡ spelled path.now) }
{
    let mut text = Vec::new(alloc);
    let mut before = 0;
    let mut rest = path;
    while let [byte, behind @ ..] = rest {
        push_spelled_byte(&mut text, before, *byte)?;
        before = *byte;
        rest = behind;
    }
    Ok(text)
}

// Appends the pattern for a byte to `out`, by the hash or number that begins with the byte, if one does, and returns how many bytes after it that
// covers.
fn push_first(
    out: &mut Vec<u8>,
    run: Option<Run>,
    before: u8,
    byte: u8,
) -> Result<usize, AllocError>
    ensures pattern { OnOk result (out.new.items ≡ out.old.items ++ (first_step (option_map seen_run run) before byte).text) }
    ensures covered { IfOk result (λ covered. covered ≡ (first_step (option_map seen_run run) before byte).covered) }
{
    match run {
        None => {
            push_spelled_byte(out, before, byte)?;
            Ok(0)
        }
        Some(run) => {
            out.extend_from_slice(run.pattern)?;
            Ok(run.size.saturating_sub(1))
        }
    }
}

// Appends the pattern for the first byte of a text after a byte to `out`, where so many of its first bytes are covered already, and returns how many
// of the bytes after it are covered.
fn push_step(
    out: &mut Vec<u8>,
    covered: usize,
    before: u8,
    text: &[u8],
) -> Result<usize, AllocError>
    ensures pattern { OnOk result (out.new.items ≡ out.old.items ++ (step covered before text.now).text) }
    ensures covered { IfOk result (λ behind. behind ≡ (step covered before text.now).covered) }
{
    let [byte, ..] = text else {
        return Ok(covered);
    };
    if covered > 0 {
        return Ok(covered - 1);
    }
    push_first(out, run_behind(before, text), before, *byte)
}

// Appends bytes of a path to a pattern, with a pattern in place of each hash and number.
fn push_widened(out: &mut Vec<u8>, bytes: &[u8]) -> Result<(), AllocError>
    ensures { OnOk result (out.new.items ≡ out.old.items ++ widened_behind 0 0 bytes.now) }
{
    let mut covered = 0;
    let mut before = 0;
    let mut rest = bytes;
    while let [byte, behind @ ..] = rest {
        covered = push_step(out, covered, before, rest)?;
        before = *byte;
        rest = behind;
    }
    Ok(())
}

// The wider pattern for a path: the path's own, where nothing is widened.
fn widened(alloc: Global, path: &[u8]) -> Result<Vec<u8>, AllocError>
    ensures { IfOk result (λ text. text.items ≡ widened path.now) }
{
    let mut text = Vec::new(alloc);
    let front = push_front(&mut text, path)?;
    push_widened(&mut text, behind(front, path))?;
    Ok(text)
}

// Whether a pattern can be printed: a terminal obeys none of its bytes, and it isn't too long.
fn can_be_told(alloc: Global, text: &[u8]) -> Result<bool, AllocError>
    ensures { IfOk result (λ told. told ≡ can_be_told text.now) }
{
    let mut told = Vec::new(alloc);
    push_shown(&mut told, text)?;
    Ok(told.as_slice() == text && text.len() <= LONGEST_PATTERN)
}

// Whether a pattern is offered for a path: it can be printed, and isn't the path's own.
fn is_offered(alloc: Global, path: &[u8], text: &[u8]) -> Result<bool, AllocError>
    ensures { IfOk result (λ offered. offered ≡ is_offered path.now text.now) }
{
    let own = spelled(alloc, path)?;
    let told = can_be_told(alloc, text)?;
    Ok(told && own.as_slice() != text)
}

/// The wider pattern for a path, as it is written in the quotes of a profile's file; `None` where nothing of the path is widened. It has `@{HOME}`
/// in place of `/home/NAME` and `/root` before a slash, `@{PROC}/@{pid}` in place of `/proc/NUMBER` before one, and `/task/@{tid}` in place of
/// `/task/NUMBER` after that; `[0-9a-f]*`, or `[0-9a-fA-F]*` where it has capitals, in place of a hash or a UUID, and `[0-9]*` in place of any other
/// number. `None` too where it would be longer than 4,096 bytes, or a terminal obeys one of its bytes.
///
/// # Errors
///
/// Where memory runs out.
pub fn wider(alloc: Global, path: &[u8]) -> Result<Option<Vec<u8>>, AllocError>
    ensures { IfOk result (λ made. option_map (λ text. text.items) made ≡ wider path.now) }
{
    let text = widened(alloc, path)?;
    if is_offered(alloc, path, &text)? {
        Ok(Some(text))
    } else {
        Ok(None)
    }
}
