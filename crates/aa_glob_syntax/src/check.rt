//! Checks of a pattern's text, which take no memory.

ghost use Rattle.std.specs.Prelude.{◌≡◌, ◌≢◌, ◌<◌, ◌≤◌, ◌+◌, ◌*◌, ◌&&◌, [], length, if◌then◌else◌, None, Some, Ok, Err, IfOk, IfErr, OnOk};
ghost use Rattle.std.specs.List.{list_all, prefix_len};
ghost use Rattle.aa_glob_syntax.specs.Cursor.{meaning};
ghost use Rattle.aa_glob_syntax.specs.Exactness.{is_exact, literal_prefix};
ghost use Rattle.aa_glob_syntax.specs.Faults.{first_fault, is_byte, spelled};
ghost use Rattle.aa_glob_syntax.specs.Reading.{HasNoFirstFault, items_of, longest, reading};
ghost use Rattle.aa_glob_syntax.specs.declared.pattern_error.PatternError.TheVariants.{Memory};

use crate::context::Context;
use crate::element::{Element, next_element};
use crate::groups::Groups;
use crate::literals::after_literals;
use crate::pattern_error::PatternError;
use aa_bytes::{begins_with_byte, has_byte};

/// How many bytes the text of a pattern may have at most.
pub const LONGEST_PATTERN: usize = 4_096;

/// What is known of a pattern once its text is checked.
#[derive(Clone, Copy)]
pub struct Facts {
    /// Whether all items are bytes that stand for themselves, so that one text alone matches the pattern.
    pub exact: bool,
    /// How many items come before the first that isn't a byte for itself.
    pub prefix: usize,
}

/// Checks whether a text, of any bytes, reads as a pattern. It takes no memory; the text is read once.
///
/// # Errors
///
/// In this order: `TooLong`, `ZeroByte`, `NotAbsolute`, and then the first fault from the left, with `UnclosedGroup` at the text's end.
/// Never `Memory`.
pub fn check_pattern(text: &[u8]) -> Result<Facts, PatternError>
    ensures reads { IfOk result (λ facts. reading text.now ≡ Ok (items_of text.now)) }
    ensures exact { IfOk result (λ facts. facts.exact ≡ is_exact (items_of text.now)) }
    ensures prefix { IfOk result (λ facts. facts.prefix ≡ literal_prefix (items_of text.now)) }
    ensures refused { IfErr result (λ error. reading text.now ≡ Err error) }
    ensures memory { IfErr result (λ error. error ≢ Memory) }
{
    match check_text(text) {
        Ok(()) => check_elements(text),
        Err(error) => Err(error),
    }
}

// Refuses a text with one of the faults that are checked before anything is read: `TooLong`, `ZeroByte` and `NotAbsolute`, in this order. It takes
// no memory.
fn check_text(text: &[u8]) -> Result<(), PatternError>
    ensures fine { OnOk result (HasNoFirstFault text.now) }
    ensures refused { IfErr result (λ error. reading text.now ≡ Err error) }
    ensures memory { IfErr result (λ error. error ≢ Memory) }
{
    if text.len() > LONGEST_PATTERN {
        return Err(PatternError::TooLong);
    }
    if has_byte(0, text) {
        return Err(PatternError::ZeroByte);
    }
    if !begins_with_byte(b'/', text) {
        return Err(PatternError::NotAbsolute);
    }
    Ok(())
}

// Checks the elements of a text, from the first to the last. Runs of bytes that stand for themselves are passed at once.
fn check_elements(text: &[u8]) -> Result<Facts, PatternError>
    requires { length text.now ≤ longest }
    ensures whole { IfOk result (λ facts. first_fault (spelled text.now) [] ≡ None) }
    ensures exact { IfOk result (λ facts. facts.exact ≡ list_all is_byte (spelled text.now)) }
    ensures prefix { IfOk result (λ facts. facts.prefix ≡ prefix_len is_byte (spelled text.now)) }
    ensures refused { IfErr result (λ error. first_fault (spelled text.now) [] ≡ Some error) }
    ensures memory { IfErr result (λ error. error ≢ Memory) }
{
    let mut at = after_literals(Context::Elsewhere, text);
    let mut facts = Facts {
        exact: true,
        prefix: at.count,
    };
    let mut groups = Groups::none();
    while let Some(next) = next_element(at.context, at.rest)? {
        groups = groups.behind(next.element)?;
        at = after_literals(next.context, next.rest);
        facts = facts_behind_literals(facts_behind(facts, next.element), at.count);
    }
    groups.end()?;
    Ok(facts)
}

// The facts after one more element.
fn facts_behind(facts: Facts, element: Element) -> Facts
    requires { facts.prefix ≤ 2 * longest }
    ensures exact { result.exact ≡ (facts.exact && is_byte (meaning element.entry)) }
    ensures prefix { result.prefix ≡ (if facts.exact && is_byte (meaning element.entry) then facts.prefix + 1 else facts.prefix) }
{
    if facts.exact && is_byte(element) {
        Facts {
            exact: true,
            prefix: facts.prefix + 1,
        }
    } else {
        Facts {
            exact: false,
            prefix: facts.prefix,
        }
    }
}

// The facts after so many bytes more that stand for themselves.
fn facts_behind_literals(facts: Facts, count: usize) -> Facts
    requires { facts.prefix + count ≤ 2 * longest }
    ensures exact { result.exact ≡ facts.exact }
    ensures prefix { result.prefix ≡ (if facts.exact then facts.prefix + count else facts.prefix) }
{
    if facts.exact {
        Facts {
            exact: true,
            prefix: facts.prefix + count,
        }
    } else {
        facts
    }
}

fn is_byte(element: Element) -> bool
    ensures { result ≡ is_byte (meaning element.entry) }
{
    match element {
        Element::Byte(_) | Element::Comma => true,
        _ => false,
    }
}
