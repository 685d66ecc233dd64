//! Commands that ask a folder of policy a question by words, and what is wrong with words that ask none.

ghost use Rattle.std.specs.Prelude.{◌≡◌, IfErr, IfOk, IfSome, IsSome, map, option_map, string_bytes};
ghost use Rattle.aa_start.specs.Gathering.{texts_of};
ghost use Rattle.aatry_folder.specs.Reports.{seen_report};
ghost use Rattle.aatry.specs.Questions.{IsEndOf, IsToldBelow, hint_of, words_asking};
ghost use Rattle.aatry_requests.specs.AskedWords.{AskNothing, letting_words};

use aa_profile_parsing::Language;
use aa_start::FileSystem;
use aatry_arguments::Asking;
use aatry_folder::{Fault, Folders, Report};
use aatry_hints::cut_line;
use aatry_questions::{QuestionFault, push_letting_fault, push_words_fault};
use aatry_report::Teller;
use aatry_requests::{letting_fault, words_fault};
use aatry_who::who_folder;
use aatry_why::why_folder;
use std::alloc::{AllocError, Global};

/// Which of these commands it is.
#[derive(Clone, Copy)]
pub enum Inquiry {
    /// Why a question is answered as it is.
    Why,
    /// Who would be let through.
    Who,
}

// Appends what is wrong with the words behind a command to a line.
fn push_fault(
    inquiry: Inquiry,
    fault: &QuestionFault,
    line: &mut Vec<u8>,
) -> Result<(), AllocError> {
    match inquiry {
        Inquiry::Why => push_words_fault(fault, line),
        Inquiry::Who => push_letting_fault(fault, line),
    }
}

// The line that tells what is wrong with them.
fn fault_line(
    alloc: Global,
    inquiry: Inquiry,
    fault: &QuestionFault,
) -> Result<Vec<u8>, AllocError> {
    let mut line = Vec::from_slice(alloc, b"aatry: ")?;
    push_fault(inquiry, fault, &mut line)?;
    line.push(b'\n')?;
    Ok(line)
}

// The same of what may be wrong.
fn line_of(
    alloc: Global,
    inquiry: Inquiry,
    found: Option<QuestionFault>,
) -> Result<Option<Vec<u8>>, AllocError>
    ensures { IfOk result (λ line. IsSome line → IsSome found) }
{
    match found {
        Some(fault) => Ok(Some(fault_line(alloc, inquiry, &fault)?)),
        None => Ok(None),
    }
}

// The line that tells what is wrong with the words behind `why`, where they ask no question.
fn why_fault(alloc: Global, words: &[String]) -> Result<Option<Vec<u8>>, AllocError>
    ensures { IfOk result (λ line. IsSome line → AskNothing (map string_bytes words.now)) }
{
    let found = words_fault(alloc, words)?;
    line_of(alloc, Inquiry::Why, found)
}

// The same of the words behind `who`.
fn who_fault(alloc: Global, words: &[String]) -> Result<Option<Vec<u8>>, AllocError>
    ensures { IfOk result (λ line. IsSome line → AskNothing (letting_words (map string_bytes words.now))) }
{
    let found = letting_fault(alloc, words)?;
    line_of(alloc, Inquiry::Who, found)
}

// The line that tells what is wrong with the words of either command, by what is.
fn words_line(
    alloc: Global,
    inquiry: Inquiry,
    words: &[String],
) -> Result<Option<Vec<u8>>, AllocError>
    ensures { IfOk result (λ line. IsSome line → AskNothing (words_asking inquiry (map string_bytes words.now))) }
{
    match inquiry {
        Inquiry::Why => why_fault(alloc, words),
        Inquiry::Who => who_fault(alloc, words),
    }
}

// The line that tells what was meant by words behind a command that ask no question, if it shows: `who` takes no line of a log.
fn hint_of(inquiry: Inquiry, words: &[String]) -> Option<&'static [u8]>
    ensures { option_map (λ line. line.now) result ≡ hint_of inquiry (map string_bytes words.now) }
{
    match inquiry {
        Inquiry::Why => cut_line(words),
        Inquiry::Who => None,
    }
}

// A line, in place of which a hint stands, if there is one.
fn hinted(
    alloc: Global,
    line: Option<Vec<u8>>,
    hint: Option<&[u8]>,
) -> Result<Option<Vec<u8>>, AllocError>
    ensures line { IfOk result (λ told. IsSome told → IsSome line) }
    ensures hint { IfOk result (λ told. IfSome told (λ told. IfSome hint.entry (λ hint. told.items ≡ hint.now))) }
{
    let Some(line) = line else {
        return Ok(None);
    };
    match hint {
        Some(hint) => Ok(Some(Vec::from_slice(alloc, hint)?)),
        None => Ok(Some(line)),
    }
}

// The line that tells what is wrong with the words of either command: of those of a log's line, into which a shell cut it, what to do with that.
pub fn inquiry_fault(
    alloc: Global,
    inquiry: Inquiry,
    words: &[String],
) -> Result<Option<Vec<u8>>, AllocError>
    ensures asked { IfOk result (λ line. IsSome line → AskNothing (words_asking inquiry (map string_bytes words.now))) }
    ensures hint { IfOk result (λ line. IfSome line (λ line. IfSome (hint_of inquiry (map string_bytes words.now)) (λ hint. line.items ≡ hint))) }
{
    let line = words_line(alloc, inquiry, words)?;
    hinted(alloc, line, hint_of(inquiry, words))
}

// What either command comes to.
pub fn inquire<F: Folders, D: FileSystem>(
    teller: Teller,
    inquiry: Inquiry,
    language: Language,
    folders: &F,
    disk: &D,
    asked: Asking,
) -> Result<Report, Fault>
    ensures told { IfOk result (λ report. IsToldBelow inquiry teller.form teller.verbose language (F.told folders.now) (D.known disk.now)
        (string_bytes asked.base) (texts_of asked.words) (seen_report report)) }
    ensures fault { IfErr result (IsEndOf inquiry (F.told folders.now) (string_bytes asked.base) (texts_of asked.words)) }
{
    match inquiry {
        Inquiry::Why => why_folder(teller, language, folders, disk, asked),
        Inquiry::Who => who_folder(teller, language, folders, disk, asked),
    }
}
