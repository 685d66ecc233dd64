//! Bytes of a pattern's text that stand for themselves: most bytes of most patterns do.

ghost use Rattle.std.specs.Prelude.{◌≡◌, ◌++◌, ◌+◌, ◌≤◌, drop, length, take};
ghost use Rattle.std.specs.List.{prefix_len};
ghost use Rattle.aa_glob_syntax.specs.Cursor.{left};
ghost use Rattle.aa_glob_syntax.specs.Elements.{elements};
ghost use Rattle.aa_glob_syntax.specs.Literals.{is_literal, literals};
ghost use Rattle.aa_glob_syntax.specs.Symbols.{symbols};

use crate::context::{Context, context_after};
use aa_bytes::length_while;

/// Whether a byte of a pattern's text stands for itself wherever it is in no class and no backslash comes before it. A comma, which may be a
/// group's, doesn't count as such a byte.
pub fn is_literal(byte: u8) -> bool
    ensures { result ≡ is_literal byte }
{
    !matches!(byte, b'*' | b'[' | b'?' | b'{' | b',' | b'}' | b'\\')
}

/// What follows the bytes with which a text begins and that stand for themselves.
#[derive(Clone, Copy)]
pub struct AfterLiterals<'a> {
    /// How many such bytes there are.
    pub count: usize,
    /// The context of what follows them.
    pub context: Context,
    /// What follows them.
    pub rest: &'a [u8],
}

/// Passes the bytes with which a text begins and that stand for themselves, whatever the context of the first. It takes no memory; `O(n)` in their
/// number.
pub fn after_literals<'a>(context: Context, text: &'a [u8]) -> AfterLiterals<'a>
    ensures elements { elements context (symbols text.now) ≡ literals (take result.count text.now) ++ elements result.context (symbols result.rest.now) }
    ensures within { result.count ≤ length text.now }
    ensures fewer { result.count + left result.context result.rest.now ≤ left context text.now }
{
    let count = literals_at(text);
    if count == 0 {
        return AfterLiterals {
            count,
            context,
            rest: text,
        };
    }
    AfterLiterals {
        count,
        context: context_after(text[count - 1]),
        rest: &text[count..],
    }
}

// How many bytes a text begins with that stand for themselves.
fn literals_at(text: &[u8]) -> usize
    ensures value { result ≡ prefix_len is_literal text.now }
    ensures within { result ≤ length text.now }
{
    length_while(text, |byte| is_literal(byte))
}
