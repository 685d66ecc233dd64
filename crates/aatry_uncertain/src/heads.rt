//! The heads of profiles in a text, as far as they can be read where it is refused.

ghost use Rattle.std.specs.Prelude.{◌≡◌, ◌++◌, [], ◌+◌, ◌<◌, ◌^◌, IfOk, OnOk, is_some, map, option_map};
ghost use Rattle.aa_text_tokens.specs.SeenTokens.{seen};
ghost use Rattle.aatry_uncertain.specs.Heads.{attachment_behind, depth_behind, ends_head, head_at, head_here, heads_from, heads_of, is_attachment, is_keyword};
ghost use Rattle.aatry_uncertain.specs.Heads.{is_text, may_attach, named_head, outside, own_attachment, place_behind, with_head};
ghost use Rattle.aatry_uncertain.specs.SeenHeads.{seen_head, seen_heads, seen_place};

use aa_bytes::begins_with_byte;
use aa_text_tokens::{CutRefusal, Token, TokenKind, tokens};
use std::alloc::{AllocError, Global};

/// A profile's head, as it is written.
#[derive(Clone, Copy)]
pub struct Head<'a> {
    /// Its name.
    pub name: &'a [u8],
    /// The pattern by which it attaches: what follows its name, if that may be an attachment, or else its name, if that may be.
    pub attachment: Option<&'a [u8]>,
}

// Where tokens are.
#[derive(Clone, Copy)]
pub struct Place {
    // Within how many blocks.
    pub depth: usize,
    // Whether within a head, whose block is still to open.
    pub begun: bool,
}

// Whether a token may be a name: a word, or a text in quotes.
fn is_text(kind: TokenKind) -> bool
    ensures { result ≡ is_text kind }
{
    matches!(kind, TokenKind::Word | TokenKind::Quoted)
}

// Whether a text may be an attachment.
fn may_attach(text: &[u8]) -> bool
    ensures { result ≡ may_attach text.now }
{
    begins_with_byte(b'/', text) || begins_with_byte(b'@', text)
}

// Whether a token may be an attachment.
fn is_attachment(token: Token<'_>) -> bool
    ensures { result ≡ is_attachment (seen token.entry) }
{
    is_text(token.kind) && may_attach(token.text)
}

// The attachment in a name alone.
fn own_attachment(name: &[u8]) -> Option<&[u8]>
    ensures { option_map (λ text. text.now) result ≡ own_attachment name.now }
{
    if may_attach(name) { Some(name) } else { None }
}

// The attachment of a profile, by what follows its name.
fn attachment_behind<'a>(name: &'a [u8], tokens: &[Token<'a>]) -> Option<&'a [u8]>
    ensures { option_map (λ text. text.now) result ≡ attachment_behind name.now (map seen tokens.now) }
{
    match tokens {
        [token, ..] if is_attachment(*token) => Some(token.text),
        _ => own_attachment(name),
    }
}

// The head after the word `profile`.
fn named_head<'a>(tokens: &[Token<'a>]) -> Option<Head<'a>>
    ensures { option_map seen_head result ≡ named_head (map seen tokens.now) }
{
    match tokens {
        [token, behind @ ..] if is_text(token.kind) => Some(Head {
            name: token.text,
            attachment: attachment_behind(token.text, behind),
        }),
        _ => None,
    }
}

// Whether a token is the word `profile`.
fn is_keyword(token: Token<'_>) -> bool
    ensures { result ≡ is_keyword (seen token.entry) }
{
    token.kind == TokenKind::Word && token.text == b"profile".as_slice()
}

// The head that begins with a token, by the tokens after it.
fn head_at<'a>(token: Token<'a>, tokens: &[Token<'a>]) -> Option<Head<'a>>
    ensures { option_map seen_head result ≡ head_at (seen token.entry) (map seen tokens.now) }
{
    if is_keyword(token) {
        return named_head(tokens);
    }
    if is_attachment(token) {
        return Some(Head {
            name: token.text,
            attachment: Some(token.text),
        });
    }
    None
}

// How many blocks are open after a token.
fn depth_behind(kind: TokenKind, depth: usize) -> usize
    requires { depth + 1 < 2 ^ 64 }
    ensures { result ≡ depth_behind kind depth }
{
    match kind {
        TokenKind::OpenBrace => depth + 1,
        TokenKind::CloseBrace => depth.saturating_sub(1),
        _ => depth,
    }
}

// Whether a token ends a head.
fn ends_head(kind: TokenKind) -> bool
    ensures { result ≡ ends_head kind }
{
    matches!(
        kind,
        TokenKind::OpenBrace | TokenKind::CloseBrace | TokenKind::Comma
    )
}

// The head that begins at a place.
fn head_here<'a>(place: Place, token: Token<'a>, tokens: &[Token<'a>]) -> Option<Head<'a>>
    ensures { option_map seen_head result ≡ head_here (seen_place place) (seen token.entry) (map seen tokens.now) }
{
    if place.depth == 0 && !place.begun {
        head_at(token, tokens)
    } else {
        None
    }
}

// The place after a token, with which a head began or didn't.
fn place_behind(place: Place, kind: TokenKind, found: bool) -> Place
    requires { place.depth + 1 < 2 ^ 64 }
    ensures { seen_place result ≡ place_behind (seen_place place) kind found }
{
    Place {
        depth: depth_behind(kind, place.depth),
        begun: !ends_head(kind) && (place.begun || found),
    }
}

// Appends a head to `heads`, if there is one.
fn push_head<'a>(head: Option<Head<'a>>, heads: &mut Vec<Head<'a>>) -> Result<(), AllocError>
    ensures { OnOk result (seen_heads heads.new.items ≡ seen_heads heads.old.items ++ with_head (option_map seen_head head.entry) []) }
{
    if let Some(head) = head {
        heads.push(head)?;
    }
    Ok(())
}

// The heads among tokens.
fn heads_among<'a>(alloc: Global, tokens: &[Token<'a>]) -> Result<Vec<Head<'a>>, AllocError>
    ensures { IfOk result (λ heads. seen_heads heads.items ≡ heads_from outside (map seen tokens.now)) }
{
    let mut heads = Vec::new(alloc);
    let mut place = Place {
        depth: 0,
        begun: false,
    };
    let mut rest = tokens;
    while let [token, behind @ ..] = rest {
        let head = head_here(place, *token, behind);
        place = place_behind(place, token.kind, head.is_some());
        push_head(head, &mut heads)?;
        rest = behind;
    }
    Ok(heads)
}

/// The heads of the profiles in a text, in its order, as far as they can be read, whether or not it is refused: outside of blocks the name after
/// each word `profile`, with what follows that where this may be an attachment; and each text alone that begins like an attachment, with `/` or a
/// variable. Nothing is read of a text that can't be cut into tokens, nor after a block that isn't closed.
///
/// # Errors
///
/// Where memory runs out.
pub fn heads_of(alloc: Global, text: &[u8]) -> Result<Vec<Head<'_>>, AllocError>
    ensures { IfOk result (λ heads. seen_heads heads.items ≡ heads_of text.now) }
{
    match tokens(alloc, text) {
        Ok(tokens) => heads_among(alloc, &tokens),
        Err(fault) if fault.refusal == CutRefusal::Memory => Err(AllocError),
        Err(_) => Ok(Vec::new(alloc)),
    }
}
