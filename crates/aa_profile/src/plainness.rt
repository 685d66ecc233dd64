//! Plain patterns.

ghost use Rattle.std.specs.Prelude.{◌≡◌, IfOk};
ghost use Rattle.aa_glob_syntax.specs.Cursor.{meaning};
ghost use Rattle.aa_profile.specs.Plainness.{is_plain, is_plain_element, is_plain_set};

use aa_bytes::ByteSet;
use aa_glob_syntax::{Context, Element, next_element};
use std::alloc::{AllocError, Global};

// Whether a set lists its bytes.
fn is_plain_set(set: &ByteSet) -> bool
    ensures { result ≡ is_plain_set set.now }
{
    match set {
        ByteSet::Inside => false,
        ByteSet::Class { negated, .. } => !*negated,
    }
}

// Whether an element of a pattern's text is plain.
fn is_plain_element(alloc: Global, element: Element<'_>) -> Result<bool, AllocError>
    ensures { IfOk result (λ plain. plain ≡ is_plain_element (meaning element.entry)) }
{
    match element {
        Element::Byte(_) | Element::Open | Element::Comma | Element::Close => Ok(true),
        Element::Inside | Element::Star | Element::DoubleStar => Ok(false),
        Element::Class(class) => Ok(is_plain_set(&class.set(alloc)?)),
    }
}

/// Whether the text of a pattern is plain: it has no star, no `?`, and no class that begins with `^`, outside of escapes.
///
/// # Errors
///
/// Where memory runs out.
pub fn is_plain(alloc: Global, text: &[u8]) -> Result<bool, AllocError>
    ensures { IfOk result (λ plain. plain ≡ is_plain text.now) }
{
    let mut context = Context::Elsewhere;
    let mut rest = text;
    loop {
        let Ok(next) = next_element(context, rest) else {
            return Ok(false);
        };
        let Some(next) = next else {
            return Ok(true);
        };
        if !is_plain_element(alloc, next.element)? {
            return Ok(false);
        }
        context = next.context;
        rest = next.rest;
    }
}
