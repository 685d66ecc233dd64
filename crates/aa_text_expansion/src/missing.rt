//! Whether names are missing in texts.

ghost use Rattle.std.specs.Prelude.{◌≡◌, ℕ, Bool, List};
ghost use Rattle.std.specs.Fn.{FnReturnsAt};
ghost use Rattle.std.specs.List.{list_any};
ghost use Rattle.aa_text_expansion.specs.Missing.{has_missing, have_missing, is_missing};
ghost use Rattle.aa_text_expansion.specs.Names.{Answers};
ghost use Rattle.aa_text_expansion.specs.code.TextParts.{parts_of};

use crate::parts::{TextPart, first_part};
use aa_bytes::Sequence;

// Whether a part of a text is a missing name, or a name that isn't closed.
fn is_missing<F: Fn(&[u8]) -> bool>(part: TextPart<'_>, missing: &F) -> bool
    requires { F.IsAlwaysCallable missing.now }
    ensures { (test : List ℕ → Bool) → Answers (FnReturnsAt F.Fn missing.now) test → result ≡ list_any (is_missing test) (parts_of part.entry) }
{
    match part {
        TextPart::Text(_) => false,
        TextPart::Name(name) => missing(name),
        TextPart::Unclosed => true,
    }
}

// Whether a text has a missing name, or doesn't close one.
fn misses<F: Fn(&[u8]) -> bool>(text: &[u8], missing: &F) -> bool
    requires { F.IsAlwaysCallable missing.now }
    ensures { (test : List ℕ → Bool) → Answers (FnReturnsAt F.Fn missing.now) test → result ≡ has_missing test text.now }
{
    let mut rest = text;
    while let Some((part, after)) = first_part(rest) {
        if is_missing(part, missing) {
            return true;
        }
        rest = after;
    }
    false
}

/// Whether a text has a name for which `missing` is true, or doesn't close one. It takes no memory but what the test does.
pub fn has_missing<F: Fn(&[u8]) -> bool>(text: &[u8], missing: F) -> bool
    requires { F.IsAlwaysCallable missing }
    // For each test in definitions that `missing` computes.
    ensures { (test : List ℕ → Bool) → Answers (FnReturnsAt F.Fn missing) test → result ≡ has_missing test text.now }
{
    misses(text, &missing)
}

/// Whether one of some words has a name for which `missing` is true, or doesn't close one. It takes no memory but what the test does.
pub fn have_missing<F: Fn(&[u8]) -> bool>(words: &[Sequence<u8>], missing: F) -> bool
    requires { F.IsAlwaysCallable missing }
    ensures { (test : List ℕ → Bool) → Answers (FnReturnsAt F.Fn missing) test → result ≡ have_missing test words.now }
{
    for word in words {
        if misses(word.as_slice(), &missing) {
            return true;
        }
    }
    false
}
