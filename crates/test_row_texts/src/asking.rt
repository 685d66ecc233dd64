//! Asks the rows of the files that a program's arguments name.

use crate::paragraph::{Part, is_common, read_parts};
use crate::row_error::RowError;
use crate::tally::Tally;
use anyhow::{Context, Result, ensure};
use std::rt::{Env, Files};
use std::{env, fs};

/// What asks rows.
pub trait Asks {
    /// Asks the rows of a paragraph of a file of this kind. `common` has the files of all paragraphs up to the next of that kind. A
    /// row that isn't one of its kind can't be read.
    fn ask(
        &self,
        tally: &mut Tally,
        kind: &str,
        common: &[Part<'_>],
        parts: &[Part<'_>],
    ) -> Result<(), RowError>;
}

// The name of a file of rows without its folder and what follows its first dot.
fn kind_of(name: &str) -> &str {
    let file = match name.rsplit_once('/') {
        Some((_, file)) => file,
        None => name,
    };
    match file.split_once('.') {
        Some((kind, _)) => kind,
        None => file,
    }
}

// Asks the rows of a paragraph at a line, or keeps it for those below it.
fn ask_paragraph<'a, A: Asks>(
    asks: &A,
    tally: &mut Tally,
    kind: &str,
    common: &mut Vec<Part<'a>>,
    paragraph: &'a str,
    line: usize,
) -> Result<(), RowError> {
    tally.reach(line);
    let parts = read_parts(tally.alloc(), paragraph, line)?;
    if is_common(&parts) {
        *common = parts;
        return Ok(());
    }
    asks.ask(tally, kind, common, &parts)
}

// Asks all rows of a text.
fn ask_text<A: Asks>(asks: &A, tally: &mut Tally, kind: &str, text: &str) -> Result<(), RowError> {
    let mut common = Vec::new(tally.alloc());
    let mut line: usize = 1;
    for paragraph in text.split("\n\n") {
        ask_paragraph(asks, tally, kind, &mut common, paragraph, line)?;
        line = line
            .saturating_add(paragraph.lines().count())
            .saturating_add(1);
    }
    Ok(())
}

// Prints the wrong rows of a file, and how many there are.
fn print_tally<R: Print>(rt: &R, name: &str, tally: &Tally) -> Result<()> {
    println!(rt;
        "{}{name}: {} rows, {} wrong",
        tally.report(),
        tally.rows(),
        tally.wrong()
    )?;
    Ok(())
}

// Asks all rows of a file's text: returns how many were answered otherwise.
fn ask_rows<R: Print + AllocGlobal, A: Asks>(
    rt: &R,
    asks: &A,
    name: &str,
    text: &str,
) -> Result<usize> {
    let mut tally = Tally::new(rt.alloc());
    let asked = ask_text(asks, &mut tally, kind_of(name), text);
    asked.context(format_args!("{name}, line {}", tally.line()))?;
    print_tally(rt, name, &tally)?;
    Ok(tally.wrong())
}

// Asks all rows of a file: returns how many were answered otherwise.
fn ask_file<R: Files + Print + AllocGlobal, A: Asks>(
    rt: &R,
    asks: &A,
    name: &str,
) -> Result<usize> {
    let text = fs::read_to_string(rt, name).context(format_args!("{name}"))?;
    ask_rows(rt, asks, name, text.as_str())
}

// That no row was answered otherwise.
fn none_wrong(wrong: usize) -> Result<()> {
    ensure!(wrong == 0, "{wrong} rows were answered otherwise");
    Ok(())
}

/// Asks the rows of the files that a program's arguments name, and prints a line for each file: how many rows it has, and how many of
/// them were answered otherwise. It is an error where a file or a row of it can't be read, and where a row was answered otherwise.
pub fn ask_files<R: Files + Env + Print + AllocGlobal, A: Asks>(rt: &R, asks: &A) -> Result<()> {
    let mut wrong: usize = 0;
    for name in env::args(rt)?.skip(1) {
        wrong = wrong.saturating_add(ask_file(rt, asks, name.as_str())?);
    }
    none_wrong(wrong)
}
