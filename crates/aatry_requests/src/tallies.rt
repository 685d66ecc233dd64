//! Questions, how often each occurred, and when.

ghost use Rattle.std.specs.Prelude.{◌≡◌, [], OnErr, OnOk, length, option_map, slice_get};
ghost use Rattle.aatry_log_lines.specs.LoggedQuestions.{seen_logged};
ghost use Rattle.aatry_requests.specs.Tallies.{counted_with};
ghost use Rattle.aatry_requests.specs.SeenTallies.{seen_tally};
ghost use Rattle.aatry_requests.specs.code.Entries.{count_under};

use crate::spans::{Span, widened};
use crate::texts::push_question;
use aatry_log_lines::LoggedQuestion;
use indexmap::IndexMap;
use std::alloc::{AllocError, Global};
use std::marker::Model;

/// A question, how often it occurred, and when.
#[derive(Drop)]
pub struct Tally<'a> {
    /// The question.
    pub question: LoggedQuestion<'a>,
    /// How often it occurred, up to the greatest number.
    pub times: u64,
    /// When it occurred first and last, of the times that are known, if one is.
    pub span: Option<Span>,
}

// How often something occurred, and when first and last.
#[derive(Clone, Copy)]
pub struct Count {
    pub times: u64,
    pub span: Option<Span>,
}

/// Questions in the order in which they first occurred, each once.
#[derive(Drop)]
pub struct Tallies<'a> {
    by_text: IndexMap<Vec<u8>, Tally<'a>>,
}

impl<'a> Model for Tallies<'a> {
    ghost use Rattle.std.specs.Prelude.{List};
    ghost use Rattle.aatry_requests.specs.Tallies.{Tally as SeenTally};
    ghost use Rattle.aatry_requests.specs.SeenTallies.{AreUnderTexts, seen_entries};

    ghost Value = { List SeenTally };

    ghost view = { λ t. seen_entries t.by_text.entries };

    ghost invariant = { λ t. AreUnderTexts t.by_text.entries };
}

// How often and when the question of a text occurred, with once more.
fn count_with(by_text: &IndexMap<Vec<u8>, Tally<'_>>, text: &[u8], time: Option<u64>) -> Count
    ensures { result ≡ count_under time text.now by_text.now.entries }
{
    match by_text.get(text) {
        Some(tally) => Count {
            times: tally.times.saturating_add(1),
            span: widened(time, tally.span),
        },
        None => Count {
            times: 1,
            span: widened(time, None),
        },
    }
}

impl<'a> Tallies<'a> {
    /// No questions. It takes no memory.
    pub fn new(alloc: Global) -> Tallies<'a>
        ensures { result ≡ [] }
    {
        Tallies {
            by_text: IndexMap::new(alloc),
        }
    }

    /// Counts a question that occurred, at a time in seconds since 1970 where that is known.
    ///
    /// # Errors
    ///
    /// Where memory runs out. The tallies are as before then.
    pub fn count(
        &mut self,
        alloc: Global,
        question: LoggedQuestion<'a>,
        time: Option<u64>,
    ) -> Result<(), AllocError>
        ensures counted { OnOk result (self.new ≡ counted_with (seen_logged question.entry) time self.old) }
        ensures unchanged { OnErr result (self.new ≡ self.old) }
    {
        let mut text = Vec::new(alloc);
        push_question(&mut text, &question.question())?;
        let count = count_with(&self.by_text, &text, time);
        let tally = Tally {
            question,
            times: count.times,
            span: count.span,
        };
        self.by_text.insert(text, tally)?;
        Ok(())
    }

    /// How many questions there are. It takes no memory.
    pub fn len(&self) -> usize
        ensures { result ≡ length self.now }
    {
        self.by_text.len()
    }

    /// The tally at an index, from 0, if there are as many. It takes no memory.
    pub fn get(&self, place: usize) -> Option<&Tally<'a>>
        ensures { option_map (λ tally. seen_tally tally.now) result ≡ slice_get self.now place }
    {
        match self.by_text.get_index(place) {
            Some((_, tally)) => Some(tally),
            None => None,
        }
    }
}
