//! Which includes name something by a whole path that lies below a folder.

ghost use Rattle.std.specs.Prelude.{◌≡◌, ◌++◌, false, IfOk, OnOk, map};
ghost use Rattle.aa_text_tokens.specs.Splicing.{looked_up};
ghost use Rattle.aa_text_tokens.specs.Cut.{cut};
ghost use Rattle.aa_text_tokens.specs.SeenTokens.{seen};
ghost use Rattle.aatry_folder.specs.Asked.{asked_by, asked_by_cut, asked_in, asked_in_files, asked_of, below_if, holds};
ghost use Rattle.aatry_folder.specs.SeenPaths.{lent_paths};

use aa_bytes::begins_with;
use aa_text_files::Files;
use aa_text_tokens::{CutRefusal, Token, TokenKind, tokens};
use std::alloc::{AllocError, Global};

// The name that an include looks up: as it is written, without one `/` at its end.
fn looked_up(name: &[u8]) -> &[u8]
    ensures { result.now ≡ looked_up name.now }
{
    if Files::is_folder(name) {
        &name[..name.len() - 1]
    } else {
        name
    }
}

// Appends a name that an include looks up to `asked`, if it begins like each path below the folder.
fn push_below<'a>(front: &[u8], name: &'a [u8], asked: &mut Vec<&'a [u8]>) -> Result<(), AllocError>
    ensures { OnOk result (lent_paths asked.new.items ≡ lent_paths asked.old.items ++ below_if front.now name.now) }
{
    if begins_with(front, name) {
        asked.push(name)?;
    }
    Ok(())
}

// Appends what a token looks up to `asked`, if it begins like each path below the folder.
fn push_by<'a>(front: &[u8], token: Token<'a>, asked: &mut Vec<&'a [u8]>) -> Result<(), AllocError>
    ensures { OnOk result (lent_paths asked.new.items
        ≡ lent_paths asked.old.items ++ asked_by front.now (seen token.entry).kind (seen token.entry).text) }
{
    match token.kind {
        TokenKind::Include { .. } => push_below(front, looked_up(token.text), asked),
        _ => Ok(()),
    }
}

// Appends what tokens look up to `asked`, as far as it begins like each path below the folder.
fn push_of<'a>(
    front: &[u8],
    tokens: &[Token<'a>],
    asked: &mut Vec<&'a [u8]>,
) -> Result<(), AllocError>
    ensures { OnOk result (lent_paths asked.new.items ≡ lent_paths asked.old.items ++ asked_of front.now (map seen tokens.now)) }
{
    let mut rest = tokens;
    while let [token, behind @ ..] = rest {
        push_by(front, *token, asked)?;
        rest = behind;
    }
    Ok(())
}

// Whether a text contains this front of paths, at a slash of it.
fn holds(front: &[u8], text: &[u8]) -> bool
    ensures { result ≡ holds front.now text.now }
{
    let mut rest = text;
    while let [byte, behind @ ..] = rest {
        if *byte == b'/' && begins_with(front, rest) {
            return true;
        }
        rest = behind;
    }
    false
}

// Appends what a text that can be cut into tokens looks up to `asked`, as far as it begins like each path below the folder.
fn push_cut<'a>(
    alloc: Global,
    front: &[u8],
    text: &'a [u8],
    asked: &mut Vec<&'a [u8]>,
) -> Result<(), AllocError>
    ensures { OnOk result (lent_paths asked.new.items ≡ lent_paths asked.old.items ++ asked_by_cut front.now (cut 0 0 false text.now)) }
{
    match tokens(alloc, text) {
        Ok(tokens) => push_of(front, &tokens, asked),
        Err(fault) if fault.refusal == CutRefusal::Memory => Err(AllocError),
        Err(_) => Ok(()),
    }
}

// Appends what a text looks up to `asked`, as far as it begins like each path below the folder; a text without the front isn't cut.
fn push_in<'a>(
    alloc: Global,
    front: &[u8],
    text: &'a [u8],
    asked: &mut Vec<&'a [u8]>,
) -> Result<(), AllocError>
    ensures { OnOk result (lent_paths asked.new.items ≡ lent_paths asked.old.items ++ asked_in front.now text.now) }
{
    if !holds(front, text) {
        return Ok(());
    }
    push_cut(alloc, front, text, asked)
}

/// The names that the includes of files look up, as far as they begin like each path below a folder: with the path of the folder and a `/`, which is
/// `front`.
///
/// # Errors
///
/// Where memory runs out.
pub fn asked_in_files<'a>(
    alloc: Global,
    front: &[u8],
    files: &'a Files,
) -> Result<Vec<&'a [u8]>, AllocError>
    ensures { IfOk result (λ asked. lent_paths asked.items ≡ asked_in_files front.now files.now) }
{
    let mut asked = Vec::new(alloc);
    for place in 0..files.len() {
        push_in(alloc, front, files.bytes_at(place), &mut asked)?;
    }
    Ok(asked)
}
