//! The text on changes that were undone or redone.

ghost use Rattle.std.specs.Prelude.{◌≡◌, ◌++◌, OnOk, codes, drop, flat_map, reverse, take};
ghost use Rattle.aatry_session_told.specs.History.{between, move_line, moves_text, ok_line};

use aa_bytes::Sequence;
use std::alloc::AllocError;

// The first `count` texts; all where there are fewer.
fn first_texts(texts: &[Sequence<u8>], count: usize) -> &[Sequence<u8>]
    ensures { result.now ≡ take count texts.now }
{
    if count < texts.len() {
        &texts[..count]
    } else {
        texts
    }
}

/// The texts after the first `count`; none where there are fewer.
pub fn texts_behind(texts: &[Sequence<u8>], count: usize) -> &[Sequence<u8>]
    ensures { result.now ≡ drop count texts.now }
{
    if count < texts.len() {
        &texts[count..]
    } else {
        &[]
    }
}

// The texts of the changes between two numbers of changes done.
fn between(texts: &[Sequence<u8>], low: usize, high: usize) -> &[Sequence<u8>]
    ensures { result.now ≡ between low high texts.now }
{
    texts_behind(first_texts(texts, high), low)
}

// Appends a line on a change to a text, in these words.
fn push_move(out: &mut Vec<u8>, words: &str, text: &[u8]) -> Result<(), AllocError>
    ensures { OnOk result (out.new.items ≡ out.old.items ++ move_line words.now text.now) }
{
    out.extend_from_slice(words.as_bytes())?;
    out.extend_from_slice(text)?;
    out.push(b'\n')?;
    Ok(())
}

// Appends a line for each change that was redone to a text, the first one first.
fn push_redone(out: &mut Vec<u8>, texts: &[Sequence<u8>]) -> Result<(), AllocError>
    ensures { OnOk result (out.new.items ≡ out.old.items ++ flat_map (move_line (codes "redone: ")) texts.now) }
{
    for text in texts {
        push_move(out, "redone: ", text.as_slice())?;
    }
    Ok(())
}

// Appends a line for each change that was undone to a text, the last one first.
fn push_undone(out: &mut Vec<u8>, texts: &[Sequence<u8>]) -> Result<(), AllocError>
    ensures { OnOk result (out.new.items ≡ out.old.items ++ flat_map (move_line (codes "undone: ")) (reverse texts.now)) }
{
    let mut rest = texts;
    while let Some((text, before)) = rest.split_last() {
        push_move(out, "undone: ", text.as_slice())?;
        rest = before;
    }
    Ok(())
}

/// Appends the reply to an accepted command to a text: the changes that it undid, the last one first, or those that it redid, the first one first,
/// or `ok`. `from` is how many changes were done before it, `to` how many are done now.
///
/// # Errors
///
/// Where memory runs out. A beginning may have been appended then.
pub fn push_moves(
    out: &mut Vec<u8>,
    texts: &[Sequence<u8>],
    from: usize,
    to: usize,
) -> Result<(), AllocError>
    ensures { OnOk result (out.new.items ≡ out.old.items ++ moves_text from to texts.now) }
{
    if to < from {
        push_undone(out, between(texts, to, from))
    } else if from < to {
        push_redone(out, between(texts, from, to))
    } else {
        push_ok(out)
    }
}

// Appends a line `ok` to a text.
fn push_ok(out: &mut Vec<u8>) -> Result<(), AllocError>
    ensures { OnOk result (out.new.items ≡ out.old.items ++ ok_line) }
{
    out.extend_from_slice(b"ok\n")?;
    Ok(())
}
