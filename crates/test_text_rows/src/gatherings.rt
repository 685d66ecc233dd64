//! Rows of files that are gathered from a disk.

use aa_start::{FileSystem, GatherFault, gather};
use aa_text::Files;
use std::alloc::Global;
use std::io::{self, ErrorKind, Read};
use std::str;
use test_row_texts::{
    Part, RowError, Tally, number_of, put_each, put_word, put_words, question_of, split_at,
    words_of,
};

// What is left of a file, of which a read gives at most so many bytes, and at whose end a read may fail.
#[derive(Drop)]
struct Stored<'a> {
    rest: &'a [u8],
    most: usize,
    is_broken: bool,
}

impl Read for Stored<'_> {
    fn read(&mut self, buffer: &mut [u8]) -> io::Result<usize> {
        if self.rest.is_empty() && self.is_broken {
            return Err(io::Error::from(ErrorKind::Unsupported));
        }
        let count = self.most.min(self.rest.len()).min(buffer.len());
        let (piece, rest) = self.rest.split_at(count);
        buffer[..count].copy_from_slice(piece);
        self.rest = rest;
        Ok(count)
    }
}

// A disk of the files that the lines of a paragraph have, each of which gives at most so many bytes a read.
#[derive(Drop)]
struct Disk<'a> {
    parts: &'a [Part<'a>],
    most: usize,
}

impl<'a> Disk<'a> {
    // The file of a line that names this path: `file PATH`, or `broken PATH` where a read after its bytes fails.
    fn stored(&self, part: &'a Part<'a>, path: &str) -> Option<Stored<'a>> {
        let (kind, name) = part.head.split_once(' ')?;
        if name != path || (kind != "file" && kind != "broken") {
            return None;
        }
        Some(Stored {
            rest: part.bytes.as_slice(),
            most: self.most,
            is_broken: kind == "broken",
        })
    }
}

impl<'a> FileSystem for Disk<'a> {
    ghost use Rattle.aa_start.specs.Known.{nothing_known};

    type File = Stored<'a>;

    ghost known = { λ _. nothing_known };

    fn open(&self, path: &str) -> io::Result<Stored<'a>> {
        for part in self.parts {
            if let Some(file) = self.stored(part, path) {
                return Ok(file);
            }
        }
        Err(io::Error::from(ErrorKind::NotFound))
    }

    fn read_piece(
        &self,
        _path: &str,
        file: &mut Stored<'a>,
        piece: &mut [u8],
    ) -> io::Result<usize> {
        file.read(piece)
    }
}

// The name that a word is.
fn name_of(alloc: Global, word: &[u8]) -> Result<String, RowError> {
    match str::from_utf8(word) {
        Ok(name) => Ok(String::from_str(alloc, name)?),
        Err(_) => Err(RowError::NoSuchFileRow),
    }
}

// The names that words are.
fn names_of(alloc: Global, words: &[Vec<u8>]) -> Result<Vec<String>, RowError> {
    let mut names = Vec::new(alloc);
    for word in words {
        names.push(name_of(alloc, word)?)?;
    }
    Ok(names)
}

// Appends the name of what was taken to an answer, and its bytes: `folder` where it has none.
fn put_file(answered: &mut Vec<u8>, files: &Files, name: &[u8]) -> Result<(), RowError> {
    put_word(answered, name)?;
    put_word(answered, files.bytes(name).unwrap_or(b"folder"))
}

// Appends all that was taken to an answer.
fn put_files(answered: &mut Vec<u8>, files: &Files) -> Result<(), RowError> {
    for place in 0..files.len() {
        put_file(answered, files, files.name(place).unwrap_or(b"none"))?;
    }
    Ok(())
}

// Appends what became of names to an answer.
fn put_gathered(
    answered: &mut Vec<u8>,
    disk: &Disk<'_>,
    folder: &str,
    names: Vec<String>,
) -> Result<(), RowError> {
    match gather(disk, *answered.allocator(), folder, names) {
        Ok(files) => put_files(answered, &files),
        Err(GatherFault::Untaken(name)) => {
            put_each(answered, &[b"untaken".as_slice(), name.as_bytes()])
        }
        Err(GatherFault::Memory) => Err(RowError::Memory),
    }
}

// Appends the answer to `MOST FOLDER NAME..`.
fn put_answered(
    answered: &mut Vec<u8>,
    parts: &[Part<'_>],
    question: &str,
) -> Result<(), RowError> {
    let (most, rest) = split_at(question, " ")?;
    let (folder, names) = split_at(rest, " ")?;
    let most = number_of(most)?;
    let words = words_of(*answered.allocator(), names, 0)?;
    let names = names_of(*answered.allocator(), &words)?;
    put_gathered(answered, &Disk { parts, most }, folder, names)
}

// Asks a row over the files of its paragraph.
fn ask_line(tally: &mut Tally, parts: &[Part<'_>], line: &str) -> Result<(), RowError> {
    let (question, wanted) = question_of(line);
    put_words(&mut tally.wanted, wanted, 0)?;
    put_answered(&mut tally.answered, parts, question)?;
    tally.settle("gather")
}

/// Asks the rows of a paragraph: its lines `gather`.
pub fn ask_gathering_rows(tally: &mut Tally, parts: &[Part<'_>]) -> Result<(), RowError> {
    for part in parts {
        if let Some(line) = part.head.strip_prefix("gather ") {
            tally.begin(part.line);
            ask_line(tally, parts, line)?;
        }
    }
    Ok(())
}
