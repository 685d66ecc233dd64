//! The value of an option, taken out of words wherever the option is among the other words.

ghost use Rattle.std.specs.Prelude.{◌≡◌, ◌∷◌, ◌⊎◌, ℕ, List, None, false, IfOk, map, option_map, string_bytes};
ghost use Rattle.aatry_arguments.specs.Languages.{ends_options};
ghost use Rattle.aatry_arguments.specs.Values.{value_of, value_within};
ghost use Rattle.aatry_arguments.specs.SeenValues.{seen_option, seen_value};
ghost use Rattle.aatry_arguments.specs.code.ValueSoFar.{read_behind, value_with};

use crate::languages::{ends_options, push_words};
use aa_bytes::{begins_with, behind};
use std::alloc::{AllocError, Global};

/// An option that takes a value.
#[derive(Clone, Copy)]
pub struct NamedOption {
    /// Its word, after which the value may follow.
    pub word: &'static str,
    /// The beginning of a word that holds the value too.
    pub opening: &'static str,
}

/// The value that an option has, if it has one, and the words without it.
#[derive(Drop)]
pub struct WithValue {
    /// The value.
    pub value: Option<Vec<u8>>,
    /// The other words, in their order.
    pub words: Vec<String>,
}

// The value in a word, if that begins with the opening.
fn value_within<'w>(opening: &str, word: &'w str) -> Option<&'w [u8]>
    ensures { option_map (λ value. value.now) result ≡ value_within opening.now word.now }
{
    if begins_with(opening.as_bytes(), word.as_bytes()) {
        Some(behind(opening.len(), word.as_bytes()))
    } else {
        None
    }
}

// Reads one more word, given whether a value has to come next or the value so far; returns the same after it. Other words are appended to `others`.
fn read_word(
    alloc: Global,
    option: NamedOption,
    word: &str,
    value: Option<Option<Vec<u8>>>,
    others: &mut Vec<String>,
) -> Result<Option<Option<Vec<u8>>>, AllocError>
    requires { (value ≡ None) ⊎ (ends_options word.now ≡ false) }
    ensures { IfOk result (λ next. (words : List (List ℕ))
        → read_behind (seen_option option) (map string_bytes others.new.items) (option_map (option_map (λ value. value.items)) next) words
        ≡ read_behind (seen_option option) (map string_bytes others.old.items) (option_map (option_map (λ value. value.items)) value)
        (word.now ∷ words)) }
{
    let Some(so_far) = value else {
        return Ok(Some(Some(Vec::from_slice(alloc, word.as_bytes())?)));
    };
    if word == option.word {
        return Ok(None);
    }
    if let Some(other) = value_within(option.opening, word) {
        return Ok(Some(Some(Vec::from_slice(alloc, other)?)));
    }
    others.push(String::from_str(alloc, word)?)?;
    Ok(Some(so_far))
}

// The value that an option has, and the other words; `None` where a value is missing.
fn with_value(value: Option<Option<Vec<u8>>>, words: Vec<String>) -> Option<WithValue>
    ensures { option_map seen_value result
        ≡ value_with (map string_bytes words.items) (option_map (option_map (λ value. value.items)) value) }
{
    Some(WithValue {
        value: value?,
        words,
    })
}

/// The last value that an option has among words, before the first `--`, and the other words. `None` where a value is missing.
///
/// # Errors
///
/// Where memory runs out.
pub fn value_of(
    alloc: Global,
    option: NamedOption,
    words: &[String],
) -> Result<Option<WithValue>, AllocError>
    ensures { IfOk result (λ read. option_map seen_value read ≡ value_of (seen_option option) (map string_bytes words.now)) }
{
    let mut value = Some(None);
    let mut others = Vec::new(alloc);
    let mut rest = words;
    while let [word, behind @ ..] = rest {
        if value.is_some() && ends_options(word.as_str()) {
            push_words(alloc, rest, &mut others)?;
            return Ok(with_value(value, others));
        }
        value = read_word(alloc, option, word.as_str(), value, &mut others)?;
        rest = behind;
    }
    Ok(with_value(value, others))
}
