//! Runs of stars.

ghost use Rattle.std.specs.Prelude.{◌≡◌, ◌≤◌, length};
ghost use Rattle.aa_glob_syntax.specs.Elements.{begins_plain, behind_stars, is_segment_end, is_whole_segment};
ghost use Rattle.aa_glob_syntax.specs.Symbols.{symbols};

use crate::context::Context;
use crate::symbol::{Symbol, first_symbol};

/// Whether a run of stars is a whole segment: `context` is that of its first star, and `text` what follows this star.
pub fn is_whole_segment(context: Context, text: &[u8]) -> bool
    ensures { result ≡ is_whole_segment context (symbols text.now) }
{
    match context {
        Context::AfterSlash => is_segment_end(behind_stars(text)),
        Context::AfterStar | Context::Elsewhere => false,
    }
}

fn is_segment_end(text: &[u8]) -> bool
    ensures { result ≡ is_segment_end (symbols text.now) }
{
    match first_symbol(text) {
        Some((next, _)) => next.is_plain(b'/'),
        None => true,
    }
}

/// What follows the stars with which a text begins.
pub fn behind_stars(text: &[u8]) -> &[u8]
    ensures symbols { symbols result.now ≡ behind_stars (symbols text.now) }
    ensures within { length result.now ≤ length text.now }
{
    let mut rest = text;
    while let Some((Symbol::Plain(b'*'), after)) = first_symbol(rest) {
        rest = after;
    }
    rest
}

/// Whether a text begins with this byte, without a backslash before it.
pub fn begins_plain(byte: u8, text: &[u8]) -> bool
    ensures { result ≡ begins_plain byte (symbols text.now) }
{
    match first_symbol(text) {
        Some((first, _)) => first.is_plain(byte),
        None => false,
    }
}
