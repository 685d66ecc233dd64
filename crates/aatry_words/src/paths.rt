//! Names that are paths, of which a word may be the last part.

ghost use Rattle.std.specs.Prelude.{◌≡◌, IfOk, map, option_map};
ghost use Rattle.aatry_words.specs.Paths.{first_ending, is_end_of, near_path};

use crate::near::nearest;
use std::alloc::{AllocError, Global};

// Whether a word is the end of a name, after one of its slashes.
fn is_end_of(word: &[u8], name: &[u8]) -> bool
    ensures { result ≡ is_end_of word.now name.now }
{
    let mut rest = name;
    while let [byte, behind @ ..] = rest {
        if *byte == b'/' && behind == word {
            return true;
        }
        rest = behind;
    }
    false
}

// The first of some names of which a word is the end.
fn first_ending<'a>(word: &[u8], names: &[&'a [u8]]) -> Option<&'a [u8]>
    ensures { option_map (λ name. name.now) result ≡ first_ending word.now (map (λ name. name.now) names.now) }
{
    let mut rest = names;
    while let [name, behind @ ..] = rest {
        if is_end_of(word, name) {
            return Some(name);
        }
        rest = behind;
    }
    None
}

/// Which of some names, which are paths, a word may stand for: the first of which it is the end, after a slash, and else the one that is nearest to
/// it (`nearest`), if one is near.
///
/// # Errors
///
/// Where memory runs out.
pub fn near_path<'a>(
    alloc: Global,
    word: &[u8],
    names: &[&'a [u8]],
) -> Result<Option<&'a [u8]>, AllocError>
    ensures { IfOk result (λ found. option_map (λ name. name.now) found ≡ near_path word.now (map (λ name. name.now) names.now)) }
{
    match first_ending(word, names) {
        Some(name) => Ok(Some(name)),
        None => nearest(alloc, word, names),
    }
}
