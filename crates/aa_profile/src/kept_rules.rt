//! The texts of rules that are kept.

ghost use Rattle.std.specs.Prelude.{◌≡◌, ◌++◌, IfOk, OnOk};
ghost use Rattle.aa_text_tokens.specs.SeenSplicedTokens.{seen_spliced};
ghost use Rattle.aa_profile_parsing.specs.SeenTokens.{seen_tokens};
ghost use Rattle.aa_profile.specs.Profiles.{kept_text, span_of, with_token};

use aa_text_tokens::{Spliced, TokenKind};
use std::alloc::{AllocError, Global};

// Appends a token, as it is written in its file, to a text.
fn push_span(text: &mut Vec<u8>, token: Spliced<'_>) -> Result<(), AllocError>
    ensures { OnOk result (text.new.items ≡ text.old.items ++ span_of (seen_spliced token.entry)) }
{
    if token.token.kind == TokenKind::Quoted {
        text.push(b'"')?;
        text.extend_from_slice(token.token.text)?;
        text.push(b'"')?;
    } else {
        text.extend_from_slice(token.token.text)?;
    }
    Ok(())
}

// Appends a token to a text, with a blank between them where one belongs.
fn push_token(text: &mut Vec<u8>, token: Spliced<'_>) -> Result<(), AllocError>
    ensures { OnOk result (text.new.items ≡ with_token text.old.items (seen_spliced token.entry)) }
{
    if !text.is_empty() && token.token.kind != TokenKind::Comma {
        text.push(b' ')?;
    }
    push_span(text, token)
}

/// The text of a rule that is kept, from its tokens.
///
/// # Errors
///
/// Where memory runs out.
pub fn kept_text(alloc: Global, tokens: &[Spliced<'_>]) -> Result<Vec<u8>, AllocError>
    ensures { IfOk result (λ text. text.items ≡ kept_text (seen_tokens tokens.now)) }
{
    let mut text = Vec::new(alloc);
    let mut rest = tokens;
    while let [token, behind @ ..] = rest {
        push_token(&mut text, *token)?;
        rest = behind;
    }
    Ok(text)
}
