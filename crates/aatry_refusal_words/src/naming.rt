//! What is wrong with the text at a place, in words that depend on it.

ghost use Rattle.std.specs.Prelude.{◌≡◌, ◌++◌, IfOk, OnOk, codes};
ghost use Rattle.std.specs.Option.{option_map};
ghost use Rattle.aatry_refusal_words.specs.Naming.{flag_words, flag_words_at, include_words, include_words_at, name_words, name_words_at, named, naming_words};

use crate::flags::unknown_flag;
use crate::tokens::text_at;
use aa_bytes::begins_with_byte;
use aa_profile_parsing::{GrammarRefusal, Language, ProfileRefusal};
use aa_text_files::{Files, Place, TextRefusal};
use aatry_report::push_shown;
use std::alloc::{AllocError, Global};

// Words, and a text as it is shown, in backquotes.
fn named(alloc: Global, words: &str, text: &[u8]) -> Result<Vec<u8>, AllocError>
    ensures { IfOk result (λ made. made.items ≡ named words.now text.now) }
{
    let mut made = Vec::new(alloc);
    made.extend_from_slice(words.as_bytes())?;
    made.extend_from_slice(b" `")?;
    push_shown(&mut made, text)?;
    made.push(b'`')?;
    Ok(made)
}

// What is wrong with the flags of a token, in words.
fn flag_words(alloc: Global, language: Language, text: &[u8]) -> Result<Vec<u8>, AllocError>
    ensures { IfOk result (λ words. words.items ≡ flag_words language text.now) }
{
    match unknown_flag(alloc, language, text)? {
        Some(flag) => named(alloc, "there is no flag", flag),
        None => Vec::from_slice(alloc, b"two mode flags conflict"),
    }
}

// What is wrong with a name that can't be one, in words.
fn name_words(alloc: Global, text: &[u8]) -> Result<Vec<u8>, AllocError>
    ensures { IfOk result (λ words. words.items ≡ name_words text.now) }
{
    named(alloc, "no profile, child, hat or target can be named", text)
}

// What is wrong with the flags at a place, in words; `None` where no token begins there.
fn flag_words_at(
    alloc: Global,
    language: Language,
    files: &Files,
    place: Place,
) -> Result<Option<Vec<u8>>, AllocError>
    ensures { IfOk result (λ found. option_map (λ words. words.items) found ≡ flag_words_at language files.now place) }
{
    match text_at(alloc, files.bytes_at(place.file), place.at)? {
        None => Ok(None),
        Some(text) => Ok(Some(flag_words(alloc, language, text)?)),
    }
}

// What is wrong with the name at a place, in words; `None` where no token begins there.
fn name_words_at(alloc: Global, files: &Files, place: Place) -> Result<Option<Vec<u8>>, AllocError>
    ensures { IfOk result (λ found. option_map (λ words. words.items) found ≡ name_words_at files.now place) }
{
    match text_at(alloc, files.bytes_at(place.file), place.at)? {
        None => Ok(None),
        Some(text) => Ok(Some(name_words(alloc, text)?)),
    }
}

// What is wrong with an include of a name that nothing has, in words, where that is a whole path.
fn include_words(alloc: Global, name: &[u8]) -> Result<Option<Vec<u8>>, AllocError>
    ensures { IfOk result (λ found. option_map (λ words. words.items) found ≡ include_words name.now) }
{
    if !begins_with_byte(b'/', name) {
        return Ok(None);
    }
    let words = b"nothing below the directory has this name, and nothing outside of it is read";
    Ok(Some(Vec::from_slice(alloc, words)?))
}

// What is wrong with the include at a place, in words, where it looks up a whole path.
fn include_words_at(
    alloc: Global,
    files: &Files,
    place: Place,
) -> Result<Option<Vec<u8>>, AllocError>
    ensures { IfOk result (λ found. option_map (λ words. words.items) found ≡ include_words_at files.now place) }
{
    match text_at(alloc, files.bytes_at(place.file), place.at)? {
        None => Ok(None),
        Some(name) => include_words(alloc, name),
    }
}

/// What is wrong with a file by a refusal at a place, in words that name the flag or the name there, or say where an include by a whole path is
/// looked up; `None` where the refusal is for none of these.
///
/// # Errors
///
/// Where memory runs out.
pub fn naming_words(
    alloc: Global,
    language: Language,
    files: &Files,
    refusal: ProfileRefusal,
    place: Place,
) -> Result<Option<Vec<u8>>, AllocError>
    ensures { IfOk result (λ found. option_map (λ words. words.items) found ≡ naming_words language files.now refusal place) }
{
    match refusal {
        ProfileRefusal::Grammar(GrammarRefusal::BadFlag) => {
            flag_words_at(alloc, language, files, place)
        }
        ProfileRefusal::Grammar(GrammarRefusal::BadName) => name_words_at(alloc, files, place),
        ProfileRefusal::Text(TextRefusal::NoFile) => include_words_at(alloc, files, place),
        _ => Ok(None),
    }
}
