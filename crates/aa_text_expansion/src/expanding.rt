//! Texts whose names are replaced by values: one for each choice of a value for each name.

ghost use Rattle.std.specs.Prelude.{◌≡◌, ◌<◌, ◌++◌, ℕ, List, length, Option, IfOk};
ghost use Rattle.aa_text_expansion.specs.Choices.{choices, choices_within};
ghost use Rattle.aa_text_expansion.specs.Expanding.{AreThere, Expands, ExpandsWords, held};
ghost use Rattle.aa_text_expansion.specs.Lists.{IsMade, list_at};
ghost use Rattle.aa_text_expansion.specs.code.TextParts.{parts_of};

use crate::lists::Lists;
use crate::parts::{TextPart, first_part};
use aa_bytes::Sequence;
use std::alloc::AllocError;

/// Lists of values by name.
pub trait Values {
    // The list is a function of the name.
    ghost numbers: { Self → List ℕ → Option ℕ };

    /// The number of the list of a name's values, or `None` where it has none.
    fn list_of(&self, name: &[u8]) -> Option<usize>
        ensures { result ≡ numbers self.now name.now };
}

// The list of the choices of a part of a text.
fn expand_part<V: Values>(
    lists: &mut Lists,
    values: &V,
    part: TextPart<'_>,
) -> Result<usize, AllocError>
    requires { AreThere lists.old (V.numbers values.now) }
    ensures { IfOk result (λ number. IsMade lists.old number (choices (held lists.old (V.numbers values.now)) (parts_of part.entry)) lists.new) }
{
    match part {
        TextPart::Text(bytes) => lists.text(bytes),
        TextPart::Name(name) => match values.list_of(name) {
            Some(number) => Ok(number),
            None => lists.nothing(),
        },
        TextPart::Unclosed => lists.nothing(),
    }
}

/// Makes a list of the text with each choice of values for its names, the first name changing slowest, and returns its number. A text that doesn't
/// close a name, or has a name without a list, has no choice.
///
/// # Errors
///
/// Memory ran out. There may then be more lists than before.
pub fn expand_text<V: Values>(
    lists: &mut Lists,
    values: &V,
    text: &[u8],
) -> Result<usize, AllocError>
    requires { AreThere lists.old (V.numbers values.now) }
    ensures { IfOk result (λ number. Expands lists.old (V.numbers values.now) text.now number lists.new) }
{
    let mut so_far = lists.text(&[])?;
    let mut rest = text;
    while let Some((part, after)) = first_part(rest) {
        let next = expand_part(lists, values, part)?;
        so_far = lists.joined(so_far, next)?;
        rest = after;
    }
    Ok(so_far)
}

// The list of the texts of a list, followed by those of the choices of words.
fn expand_behind<V: Values>(
    lists: &mut Lists,
    values: &V,
    first: usize,
    words: &[Sequence<u8>],
) -> Result<usize, AllocError>
    requires there { AreThere lists.old (V.numbers values.now) }
    requires first { first < length lists.old }
    ensures { IfOk result (λ number. IsMade lists.old number
        (list_at lists.old first ++ choices_within (held lists.old (V.numbers values.now)) words.now)
        lists.new) }
{
    let mut so_far = first;
    for word in words {
        let next = expand_text(lists, values, word.as_slice())?;
        so_far = lists.both(so_far, next)?;
    }
    Ok(so_far)
}

/// Makes a list of the texts of all choices of some words, followed by those of more words, and returns its number.
///
/// # Errors
///
/// Memory ran out. There may then be more lists than before.
pub fn expand_words<V: Values>(
    lists: &mut Lists,
    values: &V,
    words: &[Sequence<u8>],
    more: &[Sequence<u8>],
) -> Result<usize, AllocError>
    requires { AreThere lists.old (V.numbers values.now) }
    ensures { IfOk result (λ number. ExpandsWords lists.old (V.numbers values.now) (words.now ++ more.now) number lists.new) }
{
    let none = lists.nothing()?;
    let first = expand_behind(lists, values, none, words)?;
    let all = expand_behind(lists, values, first, more)?;
    Ok(all)
}
