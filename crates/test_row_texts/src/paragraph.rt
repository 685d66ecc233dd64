//! The paragraphs of a file of rows.

use crate::bytes::put_text;
use crate::row_error::RowError;
use crate::words::{put_words, word_bytes};
use aa_text_files::Files;
use std::alloc::Global;

/// A line of a paragraph, with the bytes below it after `|` and `.`.
#[derive(Drop)]
pub struct Part<'a> {
    /// The number of the line, from 1 on.
    pub line: usize,
    /// The line; an empty one where bytes begin the paragraph.
    pub head: &'a str,
    /// The bytes.
    pub bytes: Vec<u8>,
}

// The text of a line of bytes that begins with this sign and mostly a blank.
fn text_behind(sign: char, line: &str) -> Option<&str> {
    let text = line.strip_prefix(sign)?;
    match text.strip_prefix(' ') {
        Some(text) => Some(text),
        None => Some(text),
    }
}

// Begins a part.
fn push_part<'a>(parts: &mut Vec<Part<'a>>, line: usize, head: &'a str) -> Result<(), RowError> {
    let bytes = Vec::new(*parts.allocator());
    parts.push(Part { line, head, bytes })?;
    Ok(())
}

// Appends what a text of a row stands for, and its ending, to bytes.
fn put_ended(bytes: &mut Vec<u8>, text: &str, end: &[u8]) -> Result<(), RowError> {
    put_text(bytes, text, 0)?;
    bytes.extend_from_slice(end)?;
    Ok(())
}

// Appends a line of bytes to those of the last part. A first part has them where there is none.
fn put_bytes(
    parts: &mut Vec<Part<'_>>,
    line: usize,
    text: &str,
    end: &[u8],
) -> Result<(), RowError> {
    if parts.is_empty() {
        push_part(parts, line, "")?;
    }
    match parts.last_mut() {
        Some(part) => put_ended(&mut part.bytes, text, end),
        None => Ok(()),
    }
}

// Appends a line to the parts of a paragraph.
fn put_line<'a>(parts: &mut Vec<Part<'a>>, number: usize, line: &'a str) -> Result<(), RowError> {
    if line.is_empty() || line.starts_with('#') {
        return Ok(());
    }
    if let Some(text) = text_behind('|', line) {
        return put_bytes(parts, number, text, b"\n");
    }
    match text_behind('.', line) {
        Some(text) => put_bytes(parts, number, text, b""),
        None => push_part(parts, number, line),
    }
}

/// The parts of a paragraph, whose first line has a number.
pub fn read_parts(alloc: Global, paragraph: &str, first: usize) -> Result<Vec<Part<'_>>, RowError> {
    let mut parts = Vec::new(alloc);
    for (at, line) in paragraph.lines().enumerate() {
        put_line(&mut parts, first.saturating_add(at), line)?;
    }
    Ok(parts)
}

/// Whether a paragraph has the files of all paragraphs below it, up to the next of that kind.
pub fn is_common(parts: &[Part<'_>]) -> bool {
    match parts {
        [first, ..] => first.head == "common",
        [] => false,
    }
}

// Hands in a file.
fn take_file(files: &mut Files, name: Vec<u8>, bytes: Vec<u8>) -> Result<(), RowError> {
    match files.insert(name, bytes) {
        Ok(()) => Ok(()),
        Err(_) => Err(RowError::BadFile),
    }
}

// Hands in the file of a part, where it has one.
fn take_part(alloc: Global, files: &mut Files, part: &Part<'_>) -> Result<(), RowError> {
    match part.head.strip_prefix("file ") {
        Some(name) => {
            let name = word_bytes(alloc, name, 0)?;
            let bytes = Vec::from_slice(alloc, &part.bytes)?;
            take_file(files, name, bytes)
        }
        None => Ok(()),
    }
}

/// Hands in the files that parts have. A file that can't be handed in can't be read.
pub fn take_files(alloc: Global, files: &mut Files, parts: &[Part<'_>]) -> Result<(), RowError> {
    for part in parts {
        take_part(alloc, files, part)?;
    }
    Ok(())
}

// Appends the words of a line to bytes, and a line feed.
fn put_row_line(bytes: &mut Vec<u8>, line: &str) -> Result<(), RowError> {
    put_words(bytes, line, 0)?;
    bytes.extend_from_slice(b"\n")?;
    Ok(())
}

/// Appends the lines of parts to bytes, without those that name files and the question: each word is followed by a blank, and each line by a line
/// feed.
pub fn put_lines(bytes: &mut Vec<u8>, parts: &[Part<'_>]) -> Result<(), RowError> {
    for part in parts {
        if !part.head.starts_with("file ") && !part.head.starts_with("splice ") {
            put_row_line(bytes, part.head)?;
        }
    }
    Ok(())
}

/// The text after this word in the first line that begins with it, and the bytes below that line. Parts without such a line can't be read.
pub fn find<'a, 'b>(parts: &'a [Part<'b>], word: &str) -> Result<(&'b str, &'a [u8]), RowError> {
    for part in parts {
        if let Some(rest) = part.head.strip_prefix(word) {
            return Ok((rest, part.bytes.as_slice()));
        }
    }
    Err(RowError::MissingLine)
}
