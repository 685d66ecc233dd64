//! The token at a place.

ghost use Rattle.std.specs.Prelude.{◌≡◌, IfOk, map};
ghost use Rattle.std.specs.Option.{option_map};
ghost use Rattle.aa_text_tokens.specs.SeenTokens.{seen};
ghost use Rattle.aatry_refusal_words.specs.TokensAt.{text_at, text_from};

use aa_text_tokens::{Token, tokens};
use std::alloc::{AllocError, Global};

// The text of the token that begins at an offset, if one does.
fn text_from<'a>(tokens: &[Token<'a>], at: usize) -> Option<&'a [u8]>
    ensures { option_map (λ text. text.now) result ≡ text_from (map seen tokens.now) at }
{
    let mut rest = tokens;
    while let [token, behind @ ..] = rest {
        if token.start == at {
            return Some(token.text);
        }
        rest = behind;
    }
    None
}

/// The text of the token of a text that begins at an offset of it, if one does; `None` for a text that can't be cut into tokens.
///
/// # Errors
///
/// Where memory runs out.
pub fn text_at(alloc: Global, source: &[u8], at: usize) -> Result<Option<&[u8]>, AllocError>
    ensures { IfOk result (λ found. option_map (λ text. text.now) found ≡ text_at source.now at) }
{
    match tokens(alloc, source) {
        Ok(found) => Ok(text_from(&found, at)),
        Err(fault) => match fault.at {
            None => Err(AllocError),
            Some(_) => Ok(None),
        },
    }
}
