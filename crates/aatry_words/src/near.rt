//! The name that is nearest to a word.

ghost use Rattle.std.specs.Prelude.{◌≡◌, ◌≤◌, ◌++◌, IfOk, OnOk, map, option_map};
ghost use Rattle.aatry_words.specs.Near.{IsNearest, distance, most_changes, nearest, with_next};
ghost use Rattle.aatry_words.specs.code.SoFar.{seen_so_far};

use std::alloc::{AllocError, Global};
use strsim::generic_levenshtein;

// The nearest of the names so far, if one is near, and the number of changes below which another name is nearer.
#[derive(Clone, Copy)]
struct SoFar<'a> {
    nearest: Option<&'a [u8]>,
    below: usize,
}

// How many changes a name may be away from a word that it is near.
#[tactic(auto, unfolding(crate::specs::Near::most_changes))]
fn most_changes(word: &[u8]) -> usize
    ensures most { result ≡ most_changes word.now }
    ensures few { result ≤ 2 }
{
    (word.len() / 2).min(2)
}

// How many changes a name is away from a word.
#[tactic(auto, unfolding(crate::specs::Near::distance))]
fn distance(alloc: Global, word: &[u8], name: &[u8]) -> Result<usize, AllocError>
    ensures { IfOk result (λ changes. changes ≡ distance word.now name.now) }
{
    generic_levenshtein(alloc, word, name)
}

// The nearest of the names so far, with one more name.
fn with_next<'a>(
    alloc: Global,
    word: &[u8],
    so_far: SoFar<'a>,
    name: &'a [u8],
) -> Result<SoFar<'a>, AllocError>
    ensures { IfOk result (λ next. seen_so_far next ≡ with_next word.now (seen_so_far so_far.entry) name.entry.now) }
{
    let changes = distance(alloc, word, name)?;
    if changes < so_far.below {
        return Ok(SoFar {
            nearest: Some(name),
            below: changes,
        });
    }
    Ok(so_far)
}

/// The first of those names that are nearest to a word, if one is near: at most two bytes, and no more than half of the word's, have to be inserted,
/// removed or replaced to turn the word into the name.
///
/// # Errors
///
/// Where memory runs out.
pub fn nearest<'a>(
    alloc: Global,
    word: &[u8],
    names: &[&'a [u8]],
) -> Result<Option<&'a [u8]>, AllocError>
    ensures value { IfOk result (λ found. option_map (λ name. name.now) found ≡ nearest word.now (map (λ name. name.now) names.now)) }
    ensures nearest { IfOk result (λ found. IsNearest (map (λ name. name.now) names.now) word.now (option_map (λ name. name.now) found)) }
{
    let mut so_far = SoFar {
        nearest: None,
        below: most_changes(word) + 1,
    };
    let mut rest = names;
    while let [name, behind @ ..] = rest {
        so_far = with_next(alloc, word, so_far, name)?;
        rest = behind;
    }
    Ok(so_far.nearest)
}

// Appends the bytes of texts to `out`, none of them copied.
fn push_bytes<'a>(texts: &[&'a str], out: &mut Vec<&'a [u8]>) -> Result<(), AllocError>
    ensures { OnOk result (map (λ text. text.now) out.new.items ≡ map (λ text. text.now) out.old.items ++ map (λ text. text.now) texts.now) }
{
    for text in texts {
        out.push(text.as_bytes())?;
    }
    Ok(())
}

/// The first of those names that are nearest to a word, if one is near (`nearest`), where the names are texts.
///
/// # Errors
///
/// Where memory runs out.
pub fn nearest_text<'a>(
    alloc: Global,
    word: &[u8],
    names: &[&'a str],
) -> Result<Option<&'a [u8]>, AllocError>
    ensures value { IfOk result (λ found. option_map (λ name. name.now) found ≡ nearest word.now (map (λ name. name.now) names.now)) }
    ensures nearest { IfOk result (λ found. IsNearest (map (λ name. name.now) names.now) word.now (option_map (λ name. name.now) found)) }
{
    let mut all = Vec::new(alloc);
    push_bytes(names, &mut all)?;
    nearest(alloc, word, &all)
}
