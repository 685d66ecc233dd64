//! The names of capabilities, as the kernel and its tools write them.

ghost use Rattle.std.specs.Prelude.{◌≡◌, IfOk, map, option_map};
ghost use Rattle.std.specs.Str.{str_eq_ignore_ascii_case};
ghost use Rattle.aatry_words.specs.Capabilities.{bare_name, capability_meant, is_prefixed, known_name, likely_name, named};

use aa_bytes::{begins_with, behind};
use aa_profile_data::CAPABILITIES;
use std::alloc::{AllocError, Global};

// How many bytes come before the name.
const PREFIX: usize = 4;

// Whether a word begins like such a name.
fn is_prefixed(word: &[u8]) -> bool
    ensures { result ≡ is_prefixed word.now }
{
    begins_with(b"CAP_", word) || begins_with(b"cap_", word)
}

// What follows the prefix of a word, or else the whole word.
fn bare_name(word: &[u8]) -> &[u8]
    ensures { result.now ≡ bare_name word.now }
{
    if is_prefixed(word) {
        behind(PREFIX, word)
    } else {
        word
    }
}

// Whether a word is a name, but for the case of its letters.
fn is_same(word: &[u8], name: &[u8]) -> bool
    ensures { result ≡ str_eq_ignore_ascii_case word.now name.now }
{
    word.eq_ignore_ascii_case(name)
}

// The name of a table that a word is, but for the case of its letters.
fn named<'a>(names: &[&'a str], word: &[u8]) -> Option<&'a str>
    ensures { option_map (λ name. name.now) result ≡ named (map (λ name. name.now) names.now) word.now }
{
    let mut rest = names;
    while let [name, behind @ ..] = rest {
        if is_same(word, name.as_bytes()) {
            return Some(name);
        }
        rest = behind;
    }
    None
}

// The name of a capability that a word is, but for the case of its letters.
#[tactic(auto, unfolding(crate::specs::Capabilities::known_name))]
fn known_name(word: &[u8]) -> Option<&'static str>
    ensures { option_map (λ name. name.now) result ≡ known_name word.now }
{
    named(&CAPABILITIES, word)
}

/// The name of the capability that a word means: after `CAP_` or `cap_`, as the kernel's header and its tools write it (capabilities(7), capsh(1)),
/// the letters may be of either case. Any other word means itself. It takes no memory.
#[tactic(auto, unfolding(crate::specs::Capabilities::capability_meant))]
pub fn capability_meant(word: &[u8]) -> &[u8]
    ensures { result.now ≡ capability_meant word.now }
{
    if !is_prefixed(word) {
        return word;
    }
    match known_name(behind(PREFIX, word)) {
        Some(name) => name.as_bytes(),
        None => word,
    }
}

/// The name that is compared with those of capabilities, where a word may be a misspelling of one: without `CAP_` or `cap_` before it, and in lower
/// case.
///
/// # Errors
///
/// Where memory runs out.
pub fn likely_name(alloc: Global, word: &[u8]) -> Result<Vec<u8>, AllocError>
    ensures { IfOk result (λ name. name.items ≡ likely_name word.now) }
{
    bare_name(word).to_ascii_lowercase(alloc)
}
