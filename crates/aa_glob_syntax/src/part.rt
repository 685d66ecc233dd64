//! What comes next in a class: a member, or its `]`.

ghost use Rattle.std.specs.Prelude.{◌≡◌, ◌≢◌, ◌∷◌, ◌<◌, ◌≤◌, List, length, false, Err, IfNone, IfSome, IfOk, IfErr};
ghost use Rattle.aa_bytes.specs.Bytes.{closing_bracket};
ghost use Rattle.aa_glob_syntax.specs.Classes.{is_range, members, range};
ghost use Rattle.aa_glob_syntax.specs.code.Parts.{IsPart, ReachesTo, bytes_left};
ghost use Rattle.aa_glob_syntax.specs.Symbols.{is_broken, is_plain, symbols};
ghost use Rattle.aa_bytes.specs.declared.byte_set.ByteRange.{ByteRange};
ghost use Rattle.aa_glob_syntax.specs.declared.pattern_error.PatternError.TheVariants.{Memory};

use crate::pattern_error::PatternError;
use crate::symbol::{Symbol, first_symbol};
use aa_bytes::ByteRange;

/// What comes next in a class.
#[derive(Clone, Copy)]
pub enum Part<'a> {
    /// A member, and what follows it.
    Member(ByteRange, &'a [u8]),
    /// The `]` that closes the class, and what follows it.
    End(&'a [u8]),
}

/// Reads what comes next in a class. It takes no memory.
///
/// # Errors
///
/// `UnclosedClass` at the text's end, `BadEscape`, and `BadRange`.
pub fn next_part(text: &[u8]) -> Result<Part, PatternError>
    ensures ok { IfOk result (λ part. IsPart (symbols text.now) part) }
    ensures refused { IfErr result (λ error. (before : List ByteRange) → members before (symbols text.now) ≡ Err error) }
    ensures memory { IfErr result (λ error. error ≢ Memory) }
    ensures shorter { IfOk result (λ part. bytes_left part < length text.now) }
{
    let Some((first, rest)) = first_symbol(text) else {
        return Err(PatternError::UnclosedClass);
    };
    if first.is_plain(b']') {
        return Ok(Part::End(rest));
    }
    if first.is_broken() {
        return Err(PatternError::BadEscape);
    }
    read_member(first, rest)
}

// Reads a member of a class, of which the first symbol was read already.
fn read_member(first: Symbol, text: &[u8]) -> Result<Part, PatternError>
    requires opens { is_plain closing_bracket first ≡ false }
    requires whole { is_broken first ≡ false }
    ensures ok { IfOk result (λ part. IsPart (first ∷ symbols text.now) part) }
    ensures refused { IfErr result (λ error. (before : List ByteRange) → members before (first ∷ symbols text.now) ≡ Err error) }
    ensures memory { IfErr result (λ error. error ≢ Memory) }
    ensures within { IfOk result (λ part. bytes_left part ≤ length text.now) }
{
    let Some((end, rest)) = range_end(text) else {
        return Ok(Part::Member(range(first, first), text));
    };
    if end.is_broken() {
        return Err(PatternError::BadEscape);
    }
    if end.byte() < first.byte() {
        return Err(PatternError::BadRange);
    }
    Ok(Part::Member(range(first, end), rest))
}

// The last symbol of a range, by the text after the range's first symbol, and what follows it; `None` where the member is one byte alone.
fn range_end(text: &[u8]) -> Option<(Symbol, &[u8])>
    ensures alone { IfNone result (is_range (symbols text.now) ≡ false) }
    ensures range { IfSome result (λ found. ReachesTo found.0 (symbols found.1.now) (symbols text.now)) }
    ensures within { IfSome result (λ found. length found.1.now ≤ length text.now) }
{
    let (link, behind) = first_symbol(text)?;
    let (end, rest) = first_symbol(behind)?;
    if link.is_plain(b'-') && !end.is_plain(b']') {
        Some((end, rest))
    } else {
        None
    }
}

fn range(first: Symbol, end: Symbol) -> ByteRange
    ensures { result ≡ range first end }
{
    ByteRange {
        first: first.byte(),
        last: end.byte(),
    }
}
