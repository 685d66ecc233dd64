//! The reply to a line that is refused.

ghost use Rattle.std.specs.Prelude.{◌≡◌, ◌++◌, ℕ, List, [], None, OnOk, codes};
ghost use Rattle.aa_set_commands.specs.Refusal.{number_of};
ghost use Rattle.aa_text_files.specs.Files.{name_at};
ghost use Rattle.aatry_report.specs.Faults.{fault_lines};
ghost use Rattle.aatry_report.specs.FilePlaces.{path_below};
ghost use Rattle.aatry_report.specs.Refusals.{placed_refusal};
ghost use Rattle.aatry_questions.specs.Faults.{seen_fault};
ghost use Rattle.aatry_session_told.specs.Refusals.{no_question_told, refusal_told, told_by, unread_at};

use aa_profile_parsing::Language;
use aa_set_commands::Refusal;
use aa_start::is_stand_in;
use aa_text_files::{Files, Place};
use aatry_questions::{WordFault, push_words_fault, refusal_of, with_nearest};
use aatry_refusal_words::{kind_words, refusal_words};
use aatry_report::{path_below, push_fault, push_placed_refusal};
use std::alloc::{AllocError, Global};
use std::str::from_utf8;

// What is wrong with the words of a question, in words.
fn question_words(alloc: Global, fault: WordFault<'_>) -> Result<Vec<u8>, AllocError> {
    let fault = with_nearest(alloc, fault)?;
    let mut words = Vec::new(alloc);
    push_words_fault(&fault, &mut words)?;
    Ok(words)
}

/// Appends the refusal of words that are no question to a text: what is wrong with them, and the number of the refusal for that.
///
/// # Errors
///
/// Where memory runs out. A beginning may have been appended then.
pub fn push_no_question(
    alloc: Global,
    fault: WordFault<'_>,
    out: &mut Vec<u8>,
) -> Result<(), AllocError>
    ensures { OnOk result ((words : List ℕ)
        × (out.new.items ≡ out.old.items ++ no_question_told words (seen_fault fault.entry))) }
{
    let refusal = refusal_of(fault.wrong);
    let words = question_words(alloc, fault)?;
    let text = match from_utf8(&words) {
        Ok(text) => text,
        Err(_) => kind_words(refusal.refusal),
    };
    push_fault(out, b"refused", text, refusal.number())
}

// Appends a refusal to a text, in these words.
fn push_in_words(
    alloc: Global,
    files: &Files,
    base: &[u8],
    words: &str,
    refusal: Refusal,
    out: &mut Vec<u8>,
) -> Result<(), AllocError>
    ensures { OnOk result (out.new.items
        ≡ out.old.items ++ placed_refusal words.now files.now base.now (codes "refused") (number_of refusal.refusal) refusal.place) }
{
    push_placed_refusal(
        alloc,
        files,
        base,
        b"refused",
        words,
        refusal.number(),
        refusal.place,
        out,
    )
}

// The file of a place, by how many of the files came before it, where that wasn't read.
fn unread_at(files: &Files, place: Option<Place>) -> Option<usize>
    ensures { result ≡ unread_at files.now place }
{
    match place {
        Some(place) if is_stand_in(files.bytes_at(place.file)) => Some(place.file),
        _ => None,
    }
}

// Appends that a file wasn't read to a text, by how many of the files came before it.
fn push_unread(
    alloc: Global,
    files: &Files,
    base: &[u8],
    file: usize,
    number: u8,
    out: &mut Vec<u8>,
) -> Result<(), AllocError>
    ensures { OnOk result (out.new.items
        ≡ out.old.items ++ fault_lines (codes "the file wasn't read") (path_below base.now (name_at files.now file)) number None []) }
{
    let path = path_below(alloc, base, files.name_at(file))?;
    push_fault(out, &path, "the file wasn't read", number)
}

// Appends a refusal to a text that is in no file which wasn't read.
fn push_plain(
    alloc: Global,
    language: Language,
    files: &Files,
    base: &[u8],
    refusal: Refusal,
    out: &mut Vec<u8>,
) -> Result<(), AllocError>
    ensures { OnOk result (out.new.items ≡ out.old.items ++ told_by None language files.now base.now refusal) }
{
    let words = refusal_words(alloc, language, files, refusal)?;
    push_in_words(alloc, files, base, words.as_str(), refusal, out)
}

/// Appends a refusal to a text: where it has a place in a file, like a check of that file, which is read by a language, reports it; but where that
/// file wasn't read, that it wasn't, without the reason.
///
/// # Errors
///
/// Where memory runs out. A beginning may have been appended then.
pub fn push_refusal(
    alloc: Global,
    language: Language,
    files: &Files,
    base: &[u8],
    refusal: Refusal,
    out: &mut Vec<u8>,
) -> Result<(), AllocError>
    ensures { OnOk result (out.new.items ≡ out.old.items ++ refusal_told language files.now base.now refusal) }
{
    match unread_at(files, refusal.place) {
        None => push_plain(alloc, language, files, base, refusal, out),
        Some(file) => push_unread(alloc, files, base, file, refusal.number(), out),
    }
}
