//! Lines of a log that make no question, by the reason.

ghost use Rattle.std.specs.Prelude.{◌≡◌, IfOk, OnOk, option_map, string_bytes, take};
ghost use Rattle.aatry_log_lines.specs.Lines.{seen_line};
ghost use Rattle.aatry_logs.specs.Apart.{apart_with, is_disconnected, is_interpreted, is_learning, is_unreadable, kept_line, kept_with, none_apart};
ghost use Rattle.aatry_logs.specs.Apart.{seen_apart, seen_kept, seen_lines};

use aatry_log_lines::LogLine;
use std::alloc::{AllocError, Global};

// How many of these lines are kept, and how many bytes of one.
const MOST_KEPT: usize = 10;

const LONGEST_TEXT: usize = 500;

/// A line of a log that is kept.
#[derive(Drop)]
pub struct KeptLine {
    /// The path of its log, where that is no standard input.
    pub file: Option<String>,
    /// Its number in its log, from 1.
    pub line: u64,
    /// Its first bytes, 500 at most.
    pub text: Vec<u8>,
}

/// Lines of one kind.
#[derive(Drop)]
pub struct LinesApart {
    /// How many there are, up to the greatest number.
    pub count: u64,
    /// The first of them, ten at most.
    pub first: Vec<KeptLine>,
}

impl LinesApart {
    /// No lines so far. It takes no memory.
    pub fn new(alloc: Global) -> LinesApart
        ensures { seen_apart result ≡ none_apart }
    {
        LinesApart {
            count: 0,
            first: Vec::new(alloc),
        }
    }
}

// The first `size` bytes of a line; all, where it has no more.
fn front(line: &[u8], size: usize) -> &[u8]
    ensures { result.now ≡ take size line.now }
{
    if line.len() <= size {
        line
    } else {
        &line[..size]
    }
}

// A copy of a path, if there is one.
fn copied(alloc: Global, file: Option<&str>) -> Result<Option<String>, AllocError>
    ensures { IfOk result (λ copied. option_map string_bytes copied ≡ option_map (λ path. path.now) file.entry) }
{
    match file {
        Some(path) => Ok(Some(String::from_str(alloc, path)?)),
        None => Ok(None),
    }
}

// What is kept of a line of a log, with its number.
fn kept_line(
    alloc: Global,
    file: Option<&str>,
    number: u64,
    line: &[u8],
) -> Result<KeptLine, AllocError>
    ensures { IfOk result (λ kept. seen_kept kept ≡ kept_line (option_map (λ path. path.now) file.entry) number line.now) }
{
    let text = Vec::from_slice(alloc, front(line, LONGEST_TEXT))?;
    Ok(KeptLine {
        file: copied(alloc, file)?,
        line: number,
        text,
    })
}

// Keeps one more line, where fewer than ten were kept.
fn keep(
    alloc: Global,
    file: Option<&str>,
    number: u64,
    line: &[u8],
    lines: &mut Vec<KeptLine>,
) -> Result<(), AllocError>
    ensures { OnOk result (seen_lines lines.new.items
        ≡ kept_with (seen_lines lines.old.items) (kept_line (option_map (λ path. path.now) file.entry) number line.now)) }
{
    if lines.len() < MOST_KEPT {
        lines.push(kept_line(alloc, file, number, line)?)?;
    }
    Ok(())
}

/// Counts a line of a log, with its number, among `lines`, if it is one of these, and keeps it where fewer than ten were kept.
///
/// # Errors
///
/// Where memory runs out. The lines are as before then.
pub fn note(
    alloc: Global,
    is_one: bool,
    file: Option<&str>,
    number: u64,
    line: &[u8],
    lines: &mut LinesApart,
) -> Result<(), AllocError>
    ensures { OnOk result (seen_apart lines.new
        ≡ apart_with is_one (seen_apart lines.old) (kept_line (option_map (λ path. path.now) file.entry) number line.now)) }
{
    if !is_one {
        return Ok(());
    }
    keep(alloc, file, number, line, &mut lines.first)?;
    lines.count = lines.count.saturating_add(1);
    Ok(())
}

/// Whether a line can't be read. It takes no memory.
pub fn is_unreadable(told: &LogLine<'_>) -> bool
    ensures { result ≡ is_unreadable (seen_line told.now) }
{
    match told {
        LogLine::Unreadable | LogLine::Interpreted => true,
        LogLine::Asks(_) | LogLine::OtherRequest | LogLine::Disconnected => false,
        LogLine::Learning | LogLine::NoRequest => false,
    }
}

/// Whether a line can't be read since its values are interpreted. It takes no memory.
pub fn is_interpreted(told: &LogLine<'_>) -> bool
    ensures { result ≡ is_interpreted (seen_line told.now) }
{
    match told {
        LogLine::Interpreted => true,
        LogLine::Asks(_) | LogLine::OtherRequest | LogLine::Disconnected => false,
        LogLine::Learning | LogLine::NoRequest | LogLine::Unreadable => false,
    }
}

/// Whether a line has a request for a file of which the kernel knew no whole path. It takes no memory.
pub fn is_disconnected(told: &LogLine<'_>) -> bool
    ensures { result ≡ is_disconnected (seen_line told.now) }
{
    match told {
        LogLine::Disconnected => true,
        LogLine::Asks(_) | LogLine::OtherRequest | LogLine::Learning => false,
        LogLine::NoRequest | LogLine::Unreadable | LogLine::Interpreted => false,
    }
}

/// Whether a line has a request of a learning profile. It takes no memory.
pub fn is_learning(told: &LogLine<'_>) -> bool
    ensures { result ≡ is_learning (seen_line told.now) }
{
    match told {
        LogLine::Learning => true,
        LogLine::Asks(_) | LogLine::OtherRequest | LogLine::Disconnected => false,
        LogLine::NoRequest | LogLine::Unreadable | LogLine::Interpreted => false,
    }
}
