//! By which language a command reads policy.

ghost use Rattle.std.specs.Prelude.{◌≡◌, ◌++◌, IfOk, OnOk, Some, map, string_bytes};
ghost use Rattle.std.specs.Option.{option_map};
ghost use Rattle.aa_profile_parsing.specs.declared.language.Language.TheVariants.{Four};
ghost use Rattle.aatry_arguments.specs.Languages.{by_language, ends_options, is_language_word, language_in};
ghost use Rattle.aatry_arguments.specs.code.WordsSoFar.{seen_by};

use aa_profile_parsing::Language;
use std::alloc::{AllocError, Global};

/// Words without those that name a language, and the language that the last of these names.
#[derive(Drop)]
pub struct ByLanguage {
    /// The language.
    pub language: Language,
    /// The other words, in their order.
    pub words: Vec<String>,
}

/// Whether no word after this one is an option.
pub fn ends_options(word: &str) -> bool
    ensures { result ≡ ends_options word.now }
{
    word == "--"
}

/// Appends copies of words to `out`.
///
/// # Errors
///
/// Where memory runs out.
pub fn push_words(alloc: Global, words: &[String], out: &mut Vec<String>) -> Result<(), AllocError>
    ensures { OnOk result (map string_bytes out.new.items ≡ map string_bytes out.old.items ++ map string_bytes words.now) }
{
    for word in words {
        out.push(String::from_str(alloc, word.as_str())?)?;
    }
    Ok(())
}

// Whether the word after this one names a language.
fn is_language_word(word: &str) -> bool
    ensures { result ≡ is_language_word word.now }
{
    word == "--language"
}

// The word of a language in another one, if that begins with `--language=`.
fn language_in(word: &str) -> Option<&str>
    ensures { option_map (λ named. named.now) result ≡ language_in word.now }
{
    word.strip_prefix("--language=")
}

/// The language that words name before the first `--`: 4, where they name none. `None` where a word that has to name one names none.
///
/// # Errors
///
/// Where memory runs out.
pub fn by_language(alloc: Global, words: &[String]) -> Result<Option<ByLanguage>, AllocError>
    ensures { IfOk result (λ read. option_map seen_by read ≡ by_language (Some Four) (map string_bytes words.now)) }
{
    let mut language = Some(Language::Four);
    let mut others = Vec::new(alloc);
    let mut rest = words;
    while let [word, behind @ ..] = rest {
        match language {
            None => {
                language = Language::named(word.as_bytes());
                if language.is_none() {
                    return Ok(None);
                }
            }
            Some(so_far) => {
                if ends_options(word.as_str()) {
                    push_words(alloc, rest, &mut others)?;
                    return Ok(Some(ByLanguage {
                        language: so_far,
                        words: others,
                    }));
                }
                if is_language_word(word.as_str()) {
                    language = None;
                } else if let Some(named) = language_in(word.as_str()) {
                    language = Language::named(named.as_bytes());
                    if language.is_none() {
                        return Ok(None);
                    }
                } else {
                    others.push(String::from_str(alloc, word.as_str())?)?;
                }
            }
        }
        rest = behind;
    }
    Ok(language.map(|language| ByLanguage {
        language,
        words: others,
    }))
}
