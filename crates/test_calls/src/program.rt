//! The whole program, over words, files and streams in memory.

use aa_set::{FromRead, ToWrite};
use aa_start::FileSystem;
use aaset_program::start;
use std::alloc::{AllocError, Global};
use std::io::{self, ErrorKind, Read};
use std::test::Fail;

// A file system of one file, at `/srv/web`.
#[derive(Drop)]
struct Served;

impl FileSystem for Served {
    ghost use Rattle.aa_start.specs.Known.{nothing_known};

    type File = &'static [u8];

    ghost known = { λ _. nothing_known };

    fn open(&self, path: &str) -> io::Result<&'static [u8]> {
        match path {
            "/srv/web" => Ok(b"profile web { /srv/** r, }\n"),
            _ => Err(io::Error::from(ErrorKind::NotFound)),
        }
    }

    fn read_piece(
        &self,
        _path: &str,
        file: &mut &'static [u8],
        piece: &mut [u8],
    ) -> io::Result<usize> {
        file.read(piece)
    }
}

// What the program is started with, and what is seen of it.
#[derive(Clone, Copy)]
struct Row {
    words: &'static [&'static str],
    input: &'static [u8],
    output: &'static [u8],
    errors: &'static [u8],
    status: u8,
}

// Whether the program answers as a row says.
fn is_answered(alloc: Global, row: Row) -> Result<bool, AllocError> {
    let mut words = Vec::new(alloc);
    for word in row.words {
        words.push(String::from_str(alloc, word)?)?;
    }
    let mut input = FromRead::new(row.input);
    let mut output = ToWrite::new(Vec::new(alloc));
    let mut errors = ToWrite::new(Vec::new(alloc));
    let status = start(
        alloc,
        Ok(words),
        &Served,
        &mut input,
        &mut output,
        &mut errors,
    );
    Ok(
        status == row.status
            && output.into_inner().as_slice() == row.output
            && errors.into_inner().as_slice() == row.errors,
    )
}

const ROWS: [Row; 6] = [
    Row {
        words: &["aaset", "-C", "-b", "/srv", "web"],
        input: b"add web\nlist\n",
        output: b"ok\nprofiles 1\n\"web\" complain\n",
        errors: b"",
        status: 0,
    },
    Row {
        words: &["aaset", "-b", "/srv", "web"],
        input: b"add web\nlist\nundo 2\n",
        output: b"ok\nprofiles 1\n\"web\" enforce\nrefused 63 NothingToUndo\n",
        errors: b"",
        status: 1,
    },
    Row {
        words: &["aaset", "/srv/web", "web"],
        input: b"list\n",
        output: b"",
        errors: b"aaset: cannot take web\n",
        status: 2,
    },
    Row {
        words: &["aaset", "local/", "local/"],
        input: b"list\n",
        output: b"",
        errors: b"aaset: cannot take local/\n",
        status: 2,
    },
    Row {
        words: &["aaset"],
        input: b"list\n",
        output: b"",
        errors: b"aaset: bad arguments\n",
        status: 2,
    },
    Row {
        words: &["aaset", "--version", "web"],
        input: b"list\n",
        output: b"aaset 0.1.0\n",
        errors: b"",
        status: 0,
    },
];

#[test]
fn the_program_answers(rt: HostRuntime) -> Result<(), Fail> {
    for row in ROWS {
        assert!(rt; is_answered(rt.alloc(), row)?);
    }
    Ok(())
}
