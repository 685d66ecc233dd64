//! What is wrong with a file of policy, in words.

ghost use Rattle.std.specs.Prelude.{◌≡◌, IfOk, string_bytes};
ghost use Rattle.std.specs.Option.{option_map};
ghost use Rattle.aatry_refusal_words.specs.Naming.{naming_words_of, words_at};

use crate::naming::naming_words;
use aa_profile_parsing::{Language, ProfileError, ProfileRefusal};
use aa_text_files::{Files, Place};
use std::alloc::{AllocError, Global};

// The words that name what is at the place of a refusal, if it has one and they name anything.
fn naming_words_of(
    alloc: Global,
    language: Language,
    files: &Files,
    refusal: ProfileRefusal,
    place: Option<Place>,
) -> Result<Option<Vec<u8>>, AllocError>
    ensures { IfOk result (λ found. option_map (λ words. words.items) found ≡ naming_words_of language files.now refusal place) }
{
    match place {
        None => Ok(None),
        Some(place) => naming_words(alloc, language, files, refusal, place),
    }
}

/// What is wrong with a file of policy that is refused by a language, in words, like `aatry_report::words_of`; but those on a flag or a name say
/// which: `files` has it at the place. What of that isn't UTF-8 becomes U+FFFD. Those on an include by a whole path that nothing has say that only
/// what lies below the folder is read.
///
/// # Errors
///
/// Where memory runs out.
pub fn words_of(
    alloc: Global,
    language: Language,
    files: &Files,
    error: ProfileError,
) -> Result<String, AllocError>
    ensures { IfOk result (λ words. string_bytes words ≡ words_at language files.now error.refusal error.place) }
{
    match naming_words_of(alloc, language, files, error.refusal, error.place)? {
        None => String::from_str(alloc, aatry_report::words_of(error.refusal)),
        Some(words) => String::from_utf8_lossy(alloc, &words),
    }
}
