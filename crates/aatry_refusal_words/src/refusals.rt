//! What is wrong with a command that is refused, in words.

ghost use Rattle.std.specs.Prelude.{◌≡◌, IfOk, string_bytes};
ghost use Rattle.aatry_refusal_words.specs.Refusals.{kind_words, refusal_words};

use crate::words::words_of;
use aa_profile_parsing::{Language, ProfileError};
use aa_set_commands::{Refusal, RefusalKind};
use aa_text_files::Files;
use std::alloc::{AllocError, Global};

/// What is wrong with a command by the kind of its refusal alone, in words. The words for a file are those of `aatry_report::words_of`.
pub fn kind_words(kind: RefusalKind) -> &'static str
    ensures { result.now ≡ kind_words kind }
{
    match kind {
        RefusalKind::File(refusal) => aatry_report::words_of(refusal),
        RefusalKind::Exists => "a profile named in the file is already loaded",
        RefusalKind::Absent => "no profile, child or hat has this name",
        RefusalKind::Disabled => "the profile is disabled",
        RefusalKind::NothingToUndo =>
            "too few changes to undo; say `loading` to undo those of the loading, too",
        RefusalKind::NothingToRedo => "too few changes to redo",
        RefusalKind::BadCommand => "not a command: `help` lists the commands",
        RefusalKind::LineTooLong => "the line has more than 65,536 bytes",
        RefusalKind::BadRequest => "invalid words for a question, or an invalid name for a mark",
        RefusalKind::NoMark => "no mark has this name",
        RefusalKind::Memory => "memory ran out",
    }
}

/// What is wrong with a command that is refused, in words: where a file is refused, like `words_of`, by the language that it was read by; and else
/// those of its kind.
///
/// # Errors
///
/// Where memory runs out.
pub fn refusal_words(
    alloc: Global,
    language: Language,
    files: &Files,
    refusal: Refusal,
) -> Result<String, AllocError>
    ensures { IfOk result (λ words. string_bytes words ≡ refusal_words language files.now refusal) }
{
    let Refusal { refusal, place } = refusal;
    match refusal {
        RefusalKind::File(refusal) => {
            words_of(alloc, language, files, ProfileError { refusal, place })
        }
        kind => String::from_str(alloc, kind_words(kind)),
    }
}
