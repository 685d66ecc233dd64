//! What is wrong with the words of a question, in words.

use crate::faults::{QuestionKind, Wrong};
use crate::misspelled::QuestionFault;
use aatry_report::push_shown;
use std::alloc::AllocError;

// How many words a question of a kind has, and which.
fn words_of(kind: QuestionKind) -> &'static str {
    match kind {
        QuestionKind::Cap => "a capability question has three words: cap WHO NAME",
        QuestionKind::Net => "a socket question has four words: net WHO DOMAIN TYPE",
        QuestionKind::Exec => "an exec question has four words: exec WHO OWNED PATH",
        QuestionKind::File => "a file question has five words: file WHO ACCESS OWNED PATH",
    }
}

// What is wrong, in words, which the faulty word follows.
fn words_for(wrong: Wrong) -> &'static str {
    match wrong {
        Wrong::Kind => "unknown kind of question ",
        Wrong::Count(kind) => words_of(kind),
        Wrong::NoLetter => "ACCESS must be one or more of the letters r w a l k m",
        Wrong::Letter => "ACCESS may only have the letters r w a l k m, not ",
        Wrong::LetterTwice => "ACCESS repeats the letter ",
        Wrong::Owned => "OWNED must be owner or other, not ",
        Wrong::Path => "PATH must begin with a slash: ",
        Wrong::Capability => "unknown capability ",
        Wrong::Domain => "unknown socket domain ",
        Wrong::SocketType => "unknown socket type ",
        Wrong::UnreadableLine => "the line can't be read as a log line",
        Wrong::OtherLine => "the line logs a kind of request that no rule here decides",
        Wrong::LineWithoutRequest => {
            "a single word is read as a log line, and this one logs no request"
        }
    }
}

/// Appends what is wrong with the words of a question to a text, in words, with the known word that may have been meant. It is one line without its
/// end.
///
/// # Errors
///
/// Where memory runs out. A beginning may have been appended then.
pub fn push_words_fault(fault: &QuestionFault, out: &mut Vec<u8>) -> Result<(), AllocError> {
    out.extend_from_slice(words_for(fault.wrong).as_bytes())?;
    push_shown(out, fault.word.as_slice())?;
    if let Some(near) = fault.near {
        push_near(near, out)?;
    }
    Ok(())
}

// Appends the known word that may have been meant to a text.
fn push_near(near: &[u8], out: &mut Vec<u8>) -> Result<(), AllocError> {
    out.extend_from_slice(b": did you mean ")?;
    push_shown(out, near)?;
    out.push(b'?')?;
    Ok(())
}

// How many words a question of a kind has without the asker, and which.
fn letting_words_of(kind: QuestionKind) -> &'static str {
    match kind {
        QuestionKind::Cap => "after who, a capability question has two words: cap NAME",
        QuestionKind::Net => "after who, a socket question has three words: net DOMAIN TYPE",
        QuestionKind::Exec => "after who, an exec question has three words: exec OWNED PATH",
        QuestionKind::File =>
            "after who, a file question has three words: ACCESS OWNED PATH, or file before them",
    }
}

/// Appends what is wrong with the words of a question without the asker to a text, like `push_words_fault`: where it is their number, with the words
/// that such a question has.
///
/// # Errors
///
/// Where memory runs out. A beginning may have been appended then.
pub fn push_letting_fault(fault: &QuestionFault, out: &mut Vec<u8>) -> Result<(), AllocError> {
    match fault.wrong {
        Wrong::Count(kind) => out.extend_from_slice(letting_words_of(kind).as_bytes()),
        _ => push_words_fault(fault, out),
    }
}
