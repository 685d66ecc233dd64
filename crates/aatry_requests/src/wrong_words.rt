//! What is wrong with words that make no question.

ghost use Rattle.std.specs.Prelude.{◌≡◌, ◌++◌, IfOk, IsSome, map, option_map, string_bytes};
ghost use Rattle.aatry_log_lines.specs.Lines.{told_by};
ghost use Rattle.aatry_questions.specs.Faults.{seen_fault};
ghost use Rattle.aatry_questions.specs.Meant.{meant_fault};
ghost use Rattle.aatry_requests.specs.AskedWords.{AskNothing, letting_words};
ghost use Rattle.aatry_requests.specs.WrongWords.{TellsAny, first_word_fault, letting_fault, line_fault, spelling_fault, words_fault};

use crate::asked_words::{cut_kind, push_words};
use aatry_log_lines::{LogLine, told_by};
use aatry_questions::{
    QuestionFault, WordFault, Wrong, how_wrong_words_are_refused, meant_fault, misspells_kind,
    with_nearest,
};
use std::alloc::{AllocError, Global};

// What is wrong with a line of a log, if it makes no question.
fn line_fault(alloc: Global, line: &[u8]) -> Result<Option<WordFault<'static>>, AllocError>
    ensures { IfOk result (λ found. option_map seen_fault found ≡ line_fault (told_by line.now)) }
{
    let wrong = match told_by(alloc, line)? {
        LogLine::Asks(_) => return Ok(None),
        LogLine::OtherRequest | LogLine::Disconnected | LogLine::Learning => Wrong::OtherLine,
        LogLine::NoRequest => Wrong::LineWithoutRequest,
        LogLine::Unreadable | LogLine::Interpreted => Wrong::UnreadableLine,
    };
    Ok(Some(WordFault { wrong, word: b"" }))
}

// The fault that was found, if there is one, with the known word that is nearest to the wrong one.
fn told_fault(
    alloc: Global,
    found: Option<WordFault<'_>>,
) -> Result<Option<QuestionFault>, AllocError>
    ensures { IfOk result (TellsAny (option_map seen_fault found.entry)) }
{
    match found {
        Some(fault) => Ok(Some(with_nearest(alloc, fault)?)),
        None => Ok(None),
    }
}

// What is wrong with words that follow others, by what they mean.
fn fault_behind(
    alloc: Global,
    before: &[&[u8]],
    words: &[String],
) -> Result<Option<QuestionFault>, AllocError>
    ensures { IfOk result (TellsAny (meant_fault (map (λ word. word.now) before.now ++ map string_bytes words.now))) }
{
    let mut all = Vec::new(alloc);
    all.extend_from_slice(before)?;
    push_words(words, &mut all)?;
    told_fault(alloc, meant_fault(&all))
}

// What is wrong with a word alone.
fn fault_alone(alloc: Global, line: &[u8]) -> Result<Option<QuestionFault>, AllocError>
    ensures { IfOk result (TellsAny (line_fault (told_by line.now))) }
{
    let found = line_fault(alloc, line)?;
    told_fault(alloc, found)
}

/// What is wrong with words, with the known word that is nearest to the wrong one; `None` where they make a question (`asked_by`).
///
/// # Errors
///
/// Where memory runs out.
pub fn words_fault(alloc: Global, words: &[String]) -> Result<Option<QuestionFault>, AllocError>
    ensures told { IfOk result (TellsAny (words_fault (map string_bytes words.now))) }
    ensures nothing { IfOk result (λ found. IsSome found → AskNothing (map string_bytes words.now)) }
{
    how_wrong_words_are_refused();
    if words.len() == 1 {
        return fault_alone(alloc, words[0].as_bytes());
    }
    fault_behind(alloc, &[], words)
}

// What is wrong with a word that is no kind of questions, where it may stand for one.
fn spelling_fault(alloc: Global, word: &[u8]) -> Result<Option<WordFault<'_>>, AllocError>
    ensures { IfOk result (λ found. option_map seen_fault found ≡ spelling_fault word.now) }
{
    if misspells_kind(alloc, word)? {
        return Ok(Some(WordFault {
            wrong: Wrong::Kind,
            word,
        }));
    }
    Ok(None)
}

// What is wrong with the first of some words, where it is no kind of questions and may stand for one.
fn first_word_fault(alloc: Global, words: &[String]) -> Result<Option<WordFault<'_>>, AllocError>
    ensures { IfOk result (λ found. option_map seen_fault found ≡ first_word_fault (map string_bytes words.now)) }
{
    match words {
        [first, ..] => spelling_fault(alloc, first.as_bytes()),
        [] => Ok(None),
    }
}

// What is wrong with the question's own words, without the asker.
fn asking_fault(alloc: Global, words: &[String]) -> Result<Option<QuestionFault>, AllocError>
    ensures { IfOk result (TellsAny (meant_fault (letting_words (map string_bytes words.now)))) }
{
    let (kind, behind) = cut_kind(words);
    let before = [kind, b"unconfined".as_slice()];
    fault_behind(alloc, &before, behind)
}

// What is wrong with the first word, where it may stand for a kind of questions, and else with the question's own words.
fn spelling_or_asking_fault(
    alloc: Global,
    words: &[String],
) -> Result<Option<QuestionFault>, AllocError>
    ensures { IfOk result (TellsAny (letting_fault (map string_bytes words.now))) }
{
    match first_word_fault(alloc, words)? {
        Some(fault) => Ok(Some(with_nearest(alloc, fault)?)),
        None => asking_fault(alloc, words),
    }
}

/// What is wrong with words without the asker, with the known word that is nearest to the wrong one; `None` where they make a question
/// (`letting_question`). Where the first word is no kind of questions, and may stand for one (`aatry_questions::misspells_kind`), the fault is that.
///
/// # Errors
///
/// Where memory runs out.
pub fn letting_fault(alloc: Global, words: &[String]) -> Result<Option<QuestionFault>, AllocError>
    ensures told { IfOk result (TellsAny (letting_fault (map string_bytes words.now))) }
    ensures nothing { IfOk result (λ found. IsSome found → AskNothing (letting_words (map string_bytes words.now))) }
{
    how_wrong_words_are_refused();
    spelling_or_asking_fault(alloc, words)
}
