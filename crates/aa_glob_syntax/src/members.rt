//! The members of a class, read one after the other.

ghost use Rattle.std.specs.Prelude.{◌≡◌, ◌≢◌, ◌<◌, ◌≤◌, Bool, List, [], length, true, Ok, Err, IfOk, IfErr, IfNone, IfSome, is_ok, min, ◌+◌};
ghost use Rattle.aa_bytes.specs.ByteSets.{is_listed};
ghost use Rattle.aa_glob_syntax.specs.Classes.{class, members, set_of};
ghost use Rattle.aa_glob_syntax.specs.code.ClassText.{class_length};
ghost use Rattle.aa_glob_syntax.specs.Elements.{behind_class, elements};
ghost use Rattle.aa_glob_syntax.specs.Symbols.{symbols};
ghost use Rattle.aa_bytes.specs.declared.byte_set.ByteRange.{ByteRange};
ghost use Rattle.aa_glob_syntax.specs.declared.context.Context.TheVariants.{Elsewhere};
ghost use Rattle.aa_glob_syntax.specs.declared.pattern_error.PatternError.TheVariants.{Memory};

use crate::part::{Part, next_part};
use crate::pattern_error::PatternError;
use crate::symbol::{Symbol, first_symbol};
use aa_bytes::ByteRange;
use std::alloc::{AllocError, Global};

/// Whether a class is negated, by the text after its `[`, and the text of its members.
pub fn class_start(text: &[u8]) -> (bool, &[u8])
    ensures class { class (symbols text.now) ≡ set_of result.0 (members [] (symbols result.1.now)) }
    ensures behind { behind_class (symbols text.now) ≡ behind_class (symbols result.1.now) }
    ensures within { length result.1.now ≤ length text.now }
{
    match first_symbol(text) {
        Some((Symbol::Plain(b'^'), listed)) => (true, listed),
        _ => (false, text),
    }
}

/// Skips the members of a class and its `]`: returns what follows. It takes no memory.
///
/// # Errors
///
/// The first fault of the class: `BadEscape`, `BadRange`, `EmptyClass` or `UnclosedClass`.
pub fn pass_members(text: &[u8]) -> Result<&[u8], PatternError>
    ensures reads { IfOk result (λ rest. (negated : Bool) → is_ok (set_of negated (members [] (symbols text.now))) ≡ true) }
    ensures behind { IfOk result (λ rest. behind_class (symbols text.now) ≡ elements Elsewhere (symbols rest.now)) }
    ensures shorter { IfOk result (λ rest. length rest.now < length text.now) }
    ensures refused { IfErr result (λ error. (negated : Bool) → set_of negated (members [] (symbols text.now)) ≡ Err error) }
    ensures memory { IfErr result (λ error. error ≢ Memory) }
{
    let mut rest = text;
    let mut none = true;
    loop {
        match next_part(rest)? {
            Part::Member(_, after) => {
                none = false;
                rest = after;
            }
            Part::End(_) if none => return Err(PatternError::EmptyClass),
            Part::End(after) => return Ok(after),
        }
    }
}

/// Whether the members of a class list the byte. It takes no memory; `O(n)` in the length of the class.
pub fn lists_byte(byte: u8, text: &[u8]) -> bool
    // Of a text with a fault the contract says nothing.
    ensures { (ranges : List ByteRange) → members [] (symbols text.now) ≡ Ok ranges → result ≡ is_listed byte ranges }
{
    let mut rest = text;
    let mut found = false;
    loop {
        match next_part(rest) {
            Ok(Part::Member(range, after)) => {
                found = found | range.lists(byte);
                rest = after;
            }
            Ok(Part::End(_)) => return found,
            Err(_) => return false,
        }
    }
}

/// The members of a class, in the order of the text.
///
/// # Errors
///
/// Where memory runs out.
pub fn listed_ranges(alloc: Global, text: &[u8]) -> Result<Vec<ByteRange>, AllocError>
    // Of a text with a fault the contract says nothing.
    ensures { IfOk result (λ listed. (ranges : List ByteRange) → members [] (symbols text.now) ≡ Ok ranges → listed.items ≡ ranges) }
{
    let mut listed = Vec::new(alloc);
    let mut rest = text;
    loop {
        match next_part(rest) {
            Ok(Part::Member(range, after)) => {
                listed.push(range)?;
                rest = after;
            }
            Ok(Part::End(_)) | Err(_) => return Ok(listed),
        }
    }
}

/// How many bytes a text has up to its first `]` without a backslash, that byte included; all of them where there is none.
pub fn class_length(text: &[u8]) -> usize
    ensures value { result ≡ class_length text.now }
    ensures within { result ≤ length text.now }
{
    let mut rest = text;
    let mut length = 0;
    while let Some((size, after)) = before_bracket(rest) {
        length += size;
        rest = after;
    }
    if rest.is_empty() { length } else { length + 1 }
}

// How many bytes a text's first symbol has, and what follows it; `None` where that symbol is the `]`, or the text is empty.
#[tactic(auto, using(crate::proofs::SymbolLemmas::class_length_byte, crate::proofs::SymbolLemmas::class_length_escaped, crate::proofs::SymbolLemmas::class_length_bracket))]
fn before_bracket(text: &[u8]) -> Option<(usize, &[u8])>
    ensures end { IfNone result (class_length text.now ≡ min 1 (length text.now)) }
    ensures more { IfSome result (λ before. class_length text.now ≡ before.0 + class_length before.1.now) }
    ensures size { IfSome result (λ before. length text.now ≡ before.0 + length before.1.now) }
    ensures shorter { IfSome result (λ before. length before.1.now < length text.now) }
{
    let [first, rest @ ..] = text else {
        return None;
    };
    if *first == b']' {
        return None;
    }
    if *first != b'\\' {
        return Some((1, rest));
    }
    match rest {
        [] => Some((1, rest)),
        [_, behind @ ..] => Some((2, behind)),
    }
}
