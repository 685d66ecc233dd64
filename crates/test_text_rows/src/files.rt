//! Rows of files.

use aa_text::Files;
use test_row_texts::{
    Part, RowError, Tally, number_of, put_word, put_words, question_of, split_at, words_of,
    yes_or_no,
};

// Hands in a file.
fn put_insertion(
    answered: &mut Vec<u8>,
    files: &mut Files,
    name: &[u8],
    bytes: &[u8],
) -> Result<(), RowError> {
    let name = Vec::from_slice(*answered.allocator(), name)?;
    let bytes = Vec::from_slice(*answered.allocator(), bytes)?;
    match files.insert(name, bytes) {
        Ok(()) => put_word(answered, b"ok"),
        Err(error) => put_word(answered, error.name().as_bytes()),
    }
}

// The answer to a question about a name.
fn put_answer(
    answered: &mut Vec<u8>,
    files: &Files,
    kind: &str,
    name: &[u8],
) -> Result<(), RowError> {
    match kind {
        "bytes" => put_word(answered, files.bytes(name).unwrap_or(b"none")),
        "is_folder" => put_word(answered, yes_or_no(Files::is_folder(name))),
        _ => Err(RowError::NoSuchFileRow),
    }
}

// The answer to a question of these words. That of two words hands in a file.
fn put_words_answer(
    answered: &mut Vec<u8>,
    files: &mut Files,
    kind: &str,
    words: &[Vec<u8>],
) -> Result<(), RowError> {
    match words {
        [name, bytes] => put_insertion(answered, files, name, bytes),
        [name] => put_answer(answered, files, kind, name),
        _ => Err(RowError::NoSuchFileRow),
    }
}

// The name of the file at a place.
fn put_name(answered: &mut Vec<u8>, files: &Files, place: &str) -> Result<(), RowError> {
    put_word(answered, files.name(number_of(place)?).unwrap_or(b"none"))
}

// Appends the answer to a question, each of its words followed by a blank.
fn put_answered(answered: &mut Vec<u8>, files: &mut Files, question: &str) -> Result<(), RowError> {
    let (kind, rest) = split_at(question, " ")?;
    if kind == "name" {
        return put_name(answered, files, rest);
    }
    let words = words_of(*answered.allocator(), rest, 0)?;
    put_words_answer(answered, files, kind, &words)
}

// Asks a row.
fn ask_line(tally: &mut Tally, files: &mut Files, line: &str) -> Result<(), RowError> {
    let (question, wanted) = question_of(line);
    put_words(&mut tally.wanted, wanted, 0)?;
    put_answered(&mut tally.answered, files, question)?;
    tally.settle(question)
}

// Asks the rows of lines.
fn ask_lines(tally: &mut Tally, files: &mut Files, parts: &[Part<'_>]) -> Result<(), RowError> {
    for part in parts {
        tally.begin(part.line);
        ask_line(tally, files, part.head)?;
    }
    Ok(())
}

/// Asks the rows of a paragraph, one a line, over the files that its lines hand in.
pub fn ask_file_rows(tally: &mut Tally, parts: &[Part<'_>]) -> Result<(), RowError> {
    let mut files = Files::new(tally.alloc());
    ask_lines(tally, &mut files, parts)
}
