//! Words that are flags, wherever they are among the other words.

ghost use Rattle.std.specs.Prelude.{◌≡◌, IfOk, map, string_bytes};
ghost use Rattle.aatry_arguments.specs.Flags.{is_given, without_flag};

use crate::languages::{ends_options, push_words};
use std::alloc::{AllocError, Global};

/// Whether one of some words is this flag, before the first `--`. It takes no memory.
pub fn is_given(flag: &str, words: &[String]) -> bool
    ensures { result ≡ is_given flag.now (map string_bytes words.now) }
{
    let mut rest = words;
    while let [word, behind @ ..] = rest {
        if ends_options(word.as_str()) {
            return false;
        }
        if word.as_str() == flag {
            return true;
        }
        rest = behind;
    }
    false
}

/// The words without those that are this flag, before the first `--`.
///
/// # Errors
///
/// Where memory runs out.
pub fn without_flag(alloc: Global, flag: &str, words: &[String]) -> Result<Vec<String>, AllocError>
    ensures { IfOk result (λ others. map string_bytes others.items ≡ without_flag flag.now (map string_bytes words.now)) }
{
    let mut others = Vec::new(alloc);
    let mut rest = words;
    while let [word, behind @ ..] = rest {
        if ends_options(word.as_str()) {
            push_words(alloc, rest, &mut others)?;
            return Ok(others);
        }
        if word.as_str() != flag {
            others.push(String::from_str(alloc, word.as_str())?)?;
        }
        rest = behind;
    }
    Ok(others)
}
