//! The questions of words.

ghost use Rattle.std.specs.Prelude.{◌≡◌, ◌∷◌, ◌++◌, ℕ, List, None, Ok, IfOk, IfSome, IsNone, OnOk, map, option_map, string_bytes};
ghost use Rattle.std.specs.Result.{result_ok};
ghost use Rattle.aa_set_commands.specs.Question.{IsWellFormed, seen_question};
ghost use Rattle.aatry_log_lines.specs.LoggedQuestions.{seen_logged};
ghost use Rattle.aatry_log_lines.specs.Lines.{told_by};
ghost use Rattle.aatry_questions.specs.Meant.{question_meant};
ghost use Rattle.aatry_requests.specs.AskedWords.{AskNothing, asked_by, asked_in, asking_words, letting_question, letting_words};

use aa_set_commands::Question;
use aatry_log_lines::{LogLine, LoggedQuestion, told_by};
use aatry_questions::{kind_of, question_meant};
use std::alloc::{AllocError, Global};

/// Appends the bytes of words to `out`, none of them copied.
///
/// # Errors
///
/// Where memory runs out.
pub fn push_words<'a>(words: &'a [String], out: &mut Vec<&'a [u8]>) -> Result<(), AllocError>
    ensures { OnOk result (map (λ word. word.now) out.new.items ≡ map (λ word. word.now) out.old.items ++ map string_bytes words.now) }
{
    for word in words {
        out.push(word.as_bytes())?;
    }
    Ok(())
}

// The question that some words mean, after the words before them; `None` where they mean none.
fn question_by<'a>(
    alloc: Global,
    before: &[&'a [u8]],
    words: &'a [String],
) -> Result<Option<Question<'a>>, AllocError>
    ensures some { IfOk result (λ found. IfSome found (λ question.
        question_meant (map (λ word. word.now) before.now ++ map string_bytes words.now) ≡ Ok (seen_question question))) }
    ensures known { IfOk result (λ found. IfSome found IsWellFormed) }
    ensures none { IfOk result (λ found. IsNone found
        → result_ok (question_meant (map (λ word. word.now) before.now ++ map string_bytes words.now)) ≡ None) }
{
    let mut all = Vec::new(alloc);
    all.extend_from_slice(before)?;
    push_words(words, &mut all)?;
    match question_meant(&all) {
        Ok(question) => Ok(Some(question)),
        Err(_) => Ok(None),
    }
}

// The question of a line of a log, if it makes one.
fn asked_in_line(alloc: Global, line: &[u8]) -> Result<Option<LoggedQuestion<'_>>, AllocError>
    ensures { IfOk result (λ found. option_map seen_logged found ≡ asked_in (told_by line.now)) }
{
    match told_by(alloc, line)? {
        LogLine::Asks(question) => Ok(Some(question)),
        LogLine::OtherRequest | LogLine::Disconnected | LogLine::Learning => Ok(None),
        LogLine::NoRequest | LogLine::Unreadable | LogLine::Interpreted => Ok(None),
    }
}

// The question that some words mean.
fn asked_in_words<'a>(
    alloc: Global,
    words: &'a [String],
) -> Result<Option<LoggedQuestion<'a>>, AllocError>
    ensures { IfOk result (λ found. option_map seen_logged found ≡ result_ok (question_meant (map string_bytes words.now))) }
{
    match question_by(alloc, &[], words)? {
        Some(question) => Ok(Some(LoggedQuestion::of(question))),
        None => Ok(None),
    }
}

/// The question of some words: a word alone is a line of a log (`aatry_log_lines::told_by`), and several words make the question that they mean
/// (`aatry_questions::question_meant`). `None` where they make none.
///
/// # Errors
///
/// Where memory runs out.
pub fn asked_by<'a>(
    alloc: Global,
    words: &'a [String],
) -> Result<Option<LoggedQuestion<'a>>, AllocError>
    ensures { IfOk result (λ found. option_map seen_logged found ≡ asked_by (map string_bytes words.now)) }
{
    if words.len() == 1 {
        return asked_in_line(alloc, words[0].as_bytes());
    }
    asked_in_words(alloc, words)
}

// The kind of the question of words without the asker, and those of its words that would follow the asker.
pub fn cut_kind<'a>(words: &'a [String]) -> (&'a [u8], &'a [String])
    ensures { (who : List ℕ) → asking_words who (map string_bytes words.now) ≡ result.0.now ∷ who ∷ map string_bytes result.1.now }
{
    match words {
        [first, behind @ ..] => {
            let word = first.as_bytes();
            if kind_of(word).is_some() {
                return (word, behind);
            }
            (b"file".as_slice(), words)
        }
        [] => (b"file".as_slice(), words),
    }
}

/// The question that words without the asker mean, with the word `unconfined` as the asker, which is no one in particular: after a kind of questions
/// those words that would follow the asker, and without one the access, the owner's word and the path of a question for a file
/// (`aatry_questions::question_meant`). `None` where they mean none.
///
/// # Errors
///
/// Where memory runs out.
pub fn letting_question<'a>(
    alloc: Global,
    words: &'a [String],
) -> Result<Option<Question<'a>>, AllocError>
    ensures some { IfOk result (λ found. IfSome found (λ question.
        letting_question (map string_bytes words.now) ≡ Ok (seen_question question))) }
    ensures known { IfOk result (λ found. IfSome found IsWellFormed) }
    ensures none { IfOk result (λ found. IsNone found → AskNothing (letting_words (map string_bytes words.now))) }
{
    let (kind, behind) = cut_kind(words);
    let before = [kind, b"unconfined".as_slice()];
    question_by(alloc, &before, behind)
}
