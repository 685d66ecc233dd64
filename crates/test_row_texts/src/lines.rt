//! Rows of one line: a question, the word `gives`, and the answer that is wanted.

use crate::row_error::RowError;
use crate::words::number_of;

/// The texts before and after the first of these signs. A text without them can't be read.
pub fn split_at<'a>(text: &'a str, signs: &str) -> Result<(&'a str, &'a str), RowError> {
    match text.split_once(signs) {
        Some(parts) => Ok(parts),
        None => Err(RowError::MissingPart),
    }
}

/// The question of a line and the answer that is wanted: `ok` where the line has none.
pub fn question_of(line: &str) -> (&str, &str) {
    match line.split_once(" gives ") {
        Some((question, wanted)) => (question, wanted),
        None => (line, "ok"),
    }
}

/// How often a line is done, and the line: it may begin with `repeat TIMES`.
pub fn turns_of(line: &str) -> Result<(usize, &str), RowError> {
    match line.strip_prefix("repeat ") {
        Some(rest) => {
            let (times, line) = split_at(rest, " ")?;
            Ok((number_of(times)?, line))
        }
        None => Ok((1, line)),
    }
}

/// The word of an answer.
pub fn yes_or_no(answer: bool) -> &'static [u8] {
    if answer { b"yes" } else { b"no" }
}

/// The answer that a word is: `yes` or `no`, or none.
pub fn answer_of(word: &[u8]) -> Option<&'static [u8]> {
    match word {
        b"yes" => Some(b"yes"),
        b"no" => Some(b"no"),
        _ => None,
    }
}
