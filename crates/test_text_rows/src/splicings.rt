//! Rows of spliced files.

use aa_text::{Files, Spliced, TextError, spliced};
use test_row_texts::{
    Part, RowError, Tally, find, put_each, put_lines, put_number_word, take_files, word_bytes,
};

// The name of a file.
fn name_of(files: &Files, file: usize) -> &[u8] {
    files.name(file).unwrap_or(b"no file")
}

// Appends the line of a token to an answer.
fn put_token(answered: &mut Vec<u8>, files: &Files, token: &Spliced<'_>) -> Result<(), RowError> {
    let name = name_of(files, token.file);
    put_each(answered, &[b"token".as_slice(), name, token.token.text])?;
    put_number_word(answered, token.token.start)?;
    answered.extend_from_slice(b"\n")?;
    Ok(())
}

// Appends the line of a refusal to an answer.
fn put_refusal(answered: &mut Vec<u8>, files: &Files, error: TextError) -> Result<(), RowError> {
    put_each(answered, &[b"refused".as_slice(), error.name().as_bytes()])?;
    if let Some(place) = error.place {
        put_each(answered, &[name_of(files, place.file)])?;
        put_number_word(answered, place.at)?;
    }
    answered.extend_from_slice(b"\n")?;
    Ok(())
}

// Appends the lines of tokens to an answer.
fn put_tokens(
    answered: &mut Vec<u8>,
    files: &Files,
    found: &[Spliced<'_>],
) -> Result<(), RowError> {
    for token in found {
        put_token(answered, files, token)?;
    }
    Ok(())
}

// Appends the answer for a file.
fn put_answer(answered: &mut Vec<u8>, files: &Files, name: &[u8]) -> Result<(), RowError> {
    match spliced(*answered.allocator(), files, name) {
        Ok(found) => put_tokens(answered, files, &found),
        Err(error) => put_refusal(answered, files, error),
    }
}

// Appends the answer for the file that a paragraph names.
fn put_answered(answered: &mut Vec<u8>, files: &Files, parts: &[Part<'_>]) -> Result<(), RowError> {
    let (name, _) = find(parts, "splice ")?;
    let name = word_bytes(*answered.allocator(), name, 0)?;
    put_answer(answered, files, &name)
}

// Asks a row over its files, after the common ones.
fn ask_parts(
    tally: &mut Tally,
    files: &mut Files,
    common: &[Part<'_>],
    parts: &[Part<'_>],
) -> Result<(), RowError> {
    take_files(tally.alloc(), files, common)?;
    take_files(tally.alloc(), files, parts)?;
    put_lines(&mut tally.wanted, parts)?;
    put_answered(&mut tally.answered, files, parts)?;
    tally.settle("spliced")
}

/// Asks the row that a paragraph is.
pub fn ask_splicing_rows(
    tally: &mut Tally,
    common: &[Part<'_>],
    parts: &[Part<'_>],
) -> Result<(), RowError> {
    let Some(first) = parts.first() else {
        return Ok(());
    };
    tally.begin(first.line);
    let mut files = Files::new(tally.alloc());
    ask_parts(tally, &mut files, common, parts)
}
