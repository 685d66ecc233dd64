//! Words of rows and of answers. In both each word is followed by a blank.

use crate::bytes::{put_number, put_text};
use crate::row_error::RowError;
use std::alloc::Global;

/// The number that a text is. Another text can't be read.
pub fn number_of(text: &str) -> Result<usize, RowError> {
    match text.parse::<usize>() {
        Ok(number) => Ok(number),
        Err(_) => Err(RowError::NotANumber),
    }
}

/// Appends a word and a blank to bytes. The one error is that of memory.
pub fn put_word(bytes: &mut Vec<u8>, word: &[u8]) -> Result<(), RowError> {
    bytes.extend_from_slice(word)?;
    bytes.extend_from_slice(b" ")?;
    Ok(())
}

/// Appends a few words to bytes, each followed by a blank. The one error is that of memory.
pub fn put_each(bytes: &mut Vec<u8>, words: &[&[u8]]) -> Result<(), RowError> {
    for word in words {
        put_word(bytes, word)?;
    }
    Ok(())
}

/// Appends words to bytes, each followed by a blank. The one error is that of memory.
pub fn put_all(bytes: &mut Vec<u8>, words: &[Vec<u8>]) -> Result<(), RowError> {
    for word in words {
        put_word(bytes, word)?;
    }
    Ok(())
}

/// Appends a number and a blank to bytes. The one error is that of memory.
pub fn put_number_word(bytes: &mut Vec<u8>, number: usize) -> Result<(), RowError> {
    put_number(bytes, number)?;
    bytes.extend_from_slice(b" ")?;
    Ok(())
}

// Appends what a word of a row stands for to bytes. `""` is no byte.
fn put_row_word(bytes: &mut Vec<u8>, word: &str, turn: usize) -> Result<(), RowError> {
    if word == "\"\"" {
        return Ok(());
    }
    put_text(bytes, word, turn)
}

/// The bytes that a word of a row stands for. `""` is none.
pub fn word_bytes(alloc: Global, word: &str, turn: usize) -> Result<Vec<u8>, RowError> {
    let mut bytes = Vec::new(alloc);
    put_row_word(&mut bytes, word, turn)?;
    Ok(bytes)
}

// Appends the bytes that a word stands for to those of other words.
fn push_word(words: &mut Vec<Vec<u8>>, word: &str, turn: usize) -> Result<(), RowError> {
    let bytes = word_bytes(*words.allocator(), word, turn)?;
    words.push(bytes)?;
    Ok(())
}

/// The bytes that each word of a line stands for.
pub fn words_of(alloc: Global, line: &str, turn: usize) -> Result<Vec<Vec<u8>>, RowError> {
    let mut words = Vec::new(alloc);
    for word in line.split_whitespace() {
        push_word(&mut words, word, turn)?;
    }
    Ok(words)
}

// Appends what a word of a row stands for to bytes, and a blank.
fn put_word_of_row(bytes: &mut Vec<u8>, word: &str, turn: usize) -> Result<(), RowError> {
    put_row_word(bytes, word, turn)?;
    bytes.extend_from_slice(b" ")?;
    Ok(())
}

/// Appends what the words of a line stand for to bytes, each followed by a blank.
pub fn put_words(bytes: &mut Vec<u8>, line: &str, turn: usize) -> Result<(), RowError> {
    for word in line.split_whitespace() {
        put_word_of_row(bytes, word, turn)?;
    }
    Ok(())
}
