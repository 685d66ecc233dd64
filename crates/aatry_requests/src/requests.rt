//! The requests of a log, or of a file of questions.

ghost use Rattle.std.specs.Prelude.{◌≡◌, false, IfOk, OnOk};
ghost use Rattle.std.specs.List.{list_any};
ghost use Rattle.aa_set_commands.specs.Lines.{is_line_feed, lines};
ghost use Rattle.aatry_requests.specs.Gathering.{gathered, nothing, seen_requests, with_lines, with_told, with_told_at};
ghost use Rattle.aatry_log_lines.specs.Lines.{seen_line};
ghost use Rattle.aatry_requests.specs.Sources.{told_in};

use crate::sources::{Source, told_in};
use crate::tallies::Tallies;
use aa_set_commands::first_line;
use aatry_log_lines::LogLine;
use std::alloc::{AllocError, Global};

/// The requests of a log, or of a file of questions.
#[derive(Drop)]
pub struct Requests<'a> {
    /// The questions, each once, in the order in which they first occurred.
    pub tallies: Tallies<'a>,
    /// How many lines there were.
    pub lines: u64,
    /// How many of them make a question.
    pub asked: u64,
    /// How many hold a request of a kind that no question asks.
    pub others: u64,
    /// How many can't be read.
    pub unreadable: u64,
}

impl<'a> Requests<'a> {
    /// No requests so far. It takes no memory.
    pub fn new(alloc: Global) -> Requests<'a>
        ensures { seen_requests result ≡ nothing }
    {
        Requests {
            tallies: Tallies::new(alloc),
            lines: 0,
            asked: 0,
            others: 0,
            unreadable: 0,
        }
    }

    /// Counts a line that holds this, logged at a time in seconds since 1970 where that is known.
    ///
    /// # Errors
    ///
    /// Where memory runs out. The line may be counted then, and its question isn't.
    pub fn note(
        &mut self,
        alloc: Global,
        told: LogLine<'a>,
        time: Option<u64>,
    ) -> Result<(), AllocError>
        ensures { OnOk result (seen_requests self.new ≡ with_told_at (seen_requests self.old) (seen_line told.entry) time) }
    {
        self.lines = self.lines.saturating_add(1);
        match told {
            LogLine::Asks(question) => {
                self.asked = self.asked.saturating_add(1);
                self.tallies.count(alloc, question, time)?;
            }
            LogLine::OtherRequest | LogLine::Disconnected | LogLine::Learning => {
                self.others = self.others.saturating_add(1);
            }
            LogLine::NoRequest => {}
            LogLine::Unreadable | LogLine::Interpreted => {
                self.unreadable = self.unreadable.saturating_add(1);
            }
        }
        Ok(())
    }

    // Takes one more line of a source.
    fn take(&mut self, alloc: Global, source: Source, line: &'a [u8]) -> Result<(), AllocError>
        ensures { OnOk result (seen_requests self.new ≡ with_told (seen_requests self.old) (told_in source line.now)) }
    {
        let told = told_in(alloc, source, line)?;
        self.note(alloc, told, None)
    }

    // Takes what follows the last line feed: the last line, or nothing.
    fn take_last(&mut self, alloc: Global, source: Source, rest: &'a [u8]) -> Result<(), AllocError>
        requires { list_any is_line_feed rest.now ≡ false }
        ensures { OnOk result (seen_requests self.new ≡ with_lines source (seen_requests self.old) (lines rest.now)) }
    {
        if rest.is_empty() {
            return Ok(());
        }
        self.take(alloc, source, rest)
    }
}

/// The requests of a text's lines. Questions borrow their names from the text, except those that it has in hexadecimal; each is kept once, with the
/// bytes by which it is printed.
///
/// # Errors
///
/// Where memory runs out.
pub fn gather(alloc: Global, source: Source, text: &[u8]) -> Result<Requests<'_>, AllocError>
    ensures { IfOk result (λ requests. seen_requests requests ≡ gathered source text.now) }
{
    let mut requests = Requests::new(alloc);
    let mut rest = text;
    while let Some((line, behind)) = first_line(rest) {
        requests.take(alloc, source, line)?;
        rest = behind;
    }
    requests.take_last(alloc, source, rest)?;
    Ok(requests)
}
