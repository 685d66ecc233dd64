//! The meaning of the lines of a session.

ghost use Rattle.std.specs.Prelude.{◌≡◌, ◌<◌, [], map};
ghost use Rattle.aa_set_commands.specs.Words.{words_of};
ghost use Rattle.aatry_questions.specs.Faults.{question_fault};
ghost use Rattle.aatry_session_told.specs.Sayings.{IsAskable, ask_saying, line_saying, saying_in, saying_of, seen_saying, why_saying, word_saying, words_saying};

use aa_set_commands::{LONGEST_LINE, Question, Words};
use aatry_questions::{WordFault, question_fault, read};

// The most words of a question.
const MOST_ASKED: usize = 5;

/// The meaning of a line of a session.
#[derive(Clone, Copy)]
pub enum Saying<'a> {
    /// No command of the session itself: it is for the machine over commands.
    Command,
    /// Print the commands.
    Help,
    /// Print the history.
    History,
    /// Include the changes of the loading in the history.
    Widen,
    /// End the session.
    Quit,
    /// Read the files anew.
    Reload,
    /// Print what is loaded, and which files differ from the disk's.
    Status,
    /// Print the rules that decide the answer to a question.
    Why(Question<'a>),
    /// Print what is wrong with words after `why` or `ask` that are no question.
    NoQuestion(WordFault<'a>),
}

// The meaning of one word.
fn word_saying(word: &[u8]) -> Saying<'_>
    ensures said { seen_saying result ≡ word_saying word.now }
    ensures askable { IsAskable result }
{
    if word == b"help".as_slice() {
        Saying::Help
    } else if word == b"history".as_slice() {
        Saying::History
    } else if word == b"loading".as_slice() {
        Saying::Widen
    } else if word == b"quit".as_slice() {
        Saying::Quit
    } else if word == b"reload".as_slice() {
        Saying::Reload
    } else if word == b"status".as_slice() {
        Saying::Status
    } else {
        Saying::Command
    }
}

// The meaning of the words after `why`.
fn why<'a>(words: &[&'a [u8]]) -> Saying<'a>
    ensures said { seen_saying result ≡ why_saying (map (λ word. word.now) words.now) }
    ensures askable { IsAskable result }
{
    match read(words) {
        Ok(question) => Saying::Why(question),
        Err(fault) => Saying::NoQuestion(fault),
    }
}

// The meaning of the words after `ask`: they are for the machine, unless they are no question.
fn ask<'a>(words: &[&'a [u8]]) -> Saying<'a>
    ensures said { seen_saying result ≡ ask_saying (question_fault (map (λ word. word.now) words.now)) }
    ensures askable { IsAskable result }
{
    match question_fault(words) {
        Some(fault) => Saying::NoQuestion(fault),
        None => Saying::Command,
    }
}

// The meaning of a first word and the words after it.
fn words_saying<'a>(first: &[u8], rest: &[&'a [u8]]) -> Saying<'a>
    ensures said { seen_saying result ≡ words_saying first.now (map (λ word. word.now) rest.now) }
    ensures askable { IsAskable result }
{
    if first == b"why".as_slice() && rest.len() <= MOST_ASKED {
        why(rest)
    } else if first == b"ask".as_slice() && rest.len() <= MOST_ASKED {
        ask(rest)
    } else {
        Saying::Command
    }
}

// The meaning of the words of a line.
fn saying_of<'a>(words: &[&'a [u8]]) -> Saying<'a>
    ensures said { seen_saying result ≡ saying_of (map (λ word. word.now) words.now) }
    ensures askable { IsAskable result }
{
    match words {
        [] => Saying::Command,
        [word] => word_saying(word),
        [first, rest @ ..] => words_saying(first, rest),
    }
}

// The meaning of a line that isn't too long.
fn line_saying(line: &[u8]) -> Saying<'_>
    ensures said { seen_saying result ≡ line_saying (words_of line.now) }
    ensures askable { IsAskable result }
{
    match Words::cut(line) {
        Ok(words) => saying_of(words.as_slice()),
        Err(_) => Saying::Command,
    }
}

/// The meaning of a line of a session.
pub fn saying_in(line: &[u8]) -> Saying<'_>
    ensures said { seen_saying result ≡ saying_in line.now }
    ensures askable { IsAskable result }
{
    if line.len() > LONGEST_LINE {
        return Saying::Command;
    }
    line_saying(line)
}
