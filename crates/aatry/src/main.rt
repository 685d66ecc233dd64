//! Helps with AppArmor policy at a terminal: the real words, folders, files and streams, handed to `start`.
#![tactic(auto)]

mod disk;
mod pipes;
mod program;
mod questions;
mod reporting;
mod status;
mod streams;

use crate::disk::Disk;
use crate::pipes::{Muted, Piped};
use crate::streams::Streams;
use aa_set_commands::{FromRead, ToWrite};
use aa_start::RuntimeFiles;
use aatry_folder::{Fault, RuntimeFolders};
use aatry_hints::{ColorWish, Painted, WithWish, is_colored, wished};
use aatry_test::RuntimeStore;
use std::alloc::Global;
use std::cell::Cell;
use std::env::VarError;
use std::io::IsTerminal;
use std::process::ExitCode;
use std::rt::Env;
use std::{env, io};

// The words that the program was started with, its own name first.
fn words_of_start<R: Env + AllocGlobal>(rt: &R) -> Result<Vec<String>, Fault> {
    match env::args(rt) {
        Ok(words) => words.collect(rt.alloc()).map_err(|_| Fault::NoMemory),
        Err(error) => Err(crate::status::fault_of_words(&error)),
    }
}

// What was read of the words of the start.
#[derive(Drop)]
struct ReadWords {
    // When lines are to be in colours.
    wish: ColorWish,
    // The words without that, or the fault that keeps them from being read.
    words: Result<Vec<String>, Fault>,
    // All words, where what they say of colours is misread.
    misread: Option<Vec<String>>,
}

// Words that can't be read, with all of them where it is colours that are misread.
fn unread(fault: Fault, misread: Option<Vec<String>>) -> ReadWords {
    ReadWords {
        wish: ColorWish::Never,
        words: Err(fault),
        misread,
    }
}

// What words say of colours, and the words without that.
fn wished_words(alloc: Global, words: Vec<String>) -> ReadWords {
    match wished(alloc, &words) {
        Ok(Some(WithWish { wish, words })) => ReadWords {
            wish,
            words: Ok(words),
            misread: None,
        },
        Ok(None) => unread(Fault::BadArguments, Some(words)),
        Err(_) => unread(Fault::NoMemory, None),
    }
}

// The same of the words that the program was started with.
fn started<R: Env + AllocGlobal>(rt: &R) -> ReadWords {
    match words_of_start(rt) {
        Ok(words) => wished_words(rt.alloc(), words),
        Err(fault) => unread(fault, None),
    }
}

// Whether the environment says that a terminal takes colours: `NO_COLOR` isn't set, or is empty, and `TERM` isn't `dumb`.
fn takes_colors<R: Env + AllocGlobal>(rt: &R) -> bool {
    let forbids = match env::var(rt, "NO_COLOR") {
        Ok(value) => !value.is_empty(),
        Err(VarError::NotPresent) => false,
        Err(_) => true,
    };
    let is_dumb = match env::var(rt, "TERM") {
        Ok(value) => value.as_str() == "dumb",
        Err(_) => false,
    };
    !forbids && !is_dumb
}

// What a session writes before it reads a line; nothing where no terminal is there to see it.
fn prompt(is_terminal: bool) -> &'static [u8] {
    if is_terminal { b"aatry> " } else { b"" }
}

fn main(rt: HostRuntime) -> ExitCode {
    let ReadWords {
        wish,
        words,
        misread,
    } = started(&rt);
    let colors = is_colored(wish, rt.stdout().is_terminal() && takes_colors(&rt));
    let reader = rt.reader();
    let prompt = prompt(reader.is_terminal());
    let is_closed = Cell::new(false);
    let mut streams = Streams {
        input: FromRead::new(reader),
        output: ToWrite::new(Painted::new(
            Piped::new(io::writer(&rt), &is_closed),
            rt.alloc(),
            colors,
        )),
        errors: ToWrite::new(Muted::new(rt.stderr(), &is_closed)),
    };
    if let Some(words) = misread {
        let status = crate::program::report_words(rt.alloc(), &words, &mut streams.errors);
        return ExitCode::from(status);
    }
    let mut disk = Disk {
        folders: RuntimeFolders::new(&rt),
        files: RuntimeFiles::new(&rt),
        store: RuntimeStore::new(&rt),
    };
    let status = crate::program::start(rt.alloc(), words, &mut disk, prompt, &mut streams);
    ExitCode::from(status)
}
