//! How many choices of values texts have, where the number of values of each name is known.

ghost use Rattle.std.specs.Prelude.{◌≡◌, ℕ, List};
ghost use Rattle.aa_text_expansion.specs.Choices.{choice_count};
ghost use Rattle.aa_text_expansion.specs.Counting.{CountsChoices, CountsChoicesWithin, counted, counted_words};
ghost use Rattle.aa_text_expansion.specs.code.TextParts.{parts_of};

use crate::parts::{TextPart, first_part};
use aa_bytes::Sequence;

/// Counts stop at this number.
pub const MOST_COUNTED: usize = 16_385;

/// Numbers of values by name.
pub trait Counts {
    // The number is a function of the name.
    ghost counts: { Self → List ℕ → ℕ };

    /// How many values a name has.
    fn count_of(&self, name: &[u8]) -> usize
        ensures { result ≡ counts self.now name.now };
}

// How many choices of values a part of a text has.
fn count_part<C: Counts>(counts: &C, part: TextPart<'_>) -> usize
    ensures { result ≡ choice_count (C.counts counts.now) (parts_of part.entry) }
{
    match part {
        TextPart::Text(_) => 1,
        TextPart::Name(name) => counts.count_of(name),
        TextPart::Unclosed => 0,
    }
}

/// How many choices of values for its names a text has, where that is less than 16,385, and else 16,385. A text that doesn't close a name has none.
/// It takes no memory.
pub fn count_text<C: Counts>(counts: &C, text: &[u8]) -> usize
    ensures value { result ≡ counted (C.counts counts.now) text.now }
    // Where the numbers are those of values, up to 16,385, the result is that of choices, up to 16,385.
    ensures right { CountsChoices (C.counts counts.now) text.now result }
{
    let mut so_far: usize = 1;
    let mut rest = text;
    while let Some((part, after)) = first_part(rest) {
        let times = count_part(counts, part);
        so_far = so_far.saturating_mul(times).min(MOST_COUNTED);
        rest = after;
    }
    so_far
}

/// How many choices of values words have together, where that is less than 16,385, and else 16,385. It takes no memory.
pub fn count_words<C: Counts>(counts: &C, words: &[Sequence<u8>]) -> usize
    ensures value { result ≡ counted_words (C.counts counts.now) words.now }
    ensures right { CountsChoicesWithin (C.counts counts.now) words.now result }
{
    let mut so_far: usize = 0;
    for word in words {
        let more = count_text(counts, word.as_slice());
        so_far = so_far.saturating_add(more).min(MOST_COUNTED);
    }
    so_far
}
