//! Times, as words name them.

ghost use Rattle.std.specs.Prelude.{◌≡◌, ◌<◌, IfSome, take};
ghost use Rattle.aatry_words.specs.Named.{has_form, moment_by, moment_in, number_at, seconds_of, stands_at, time_named, written_time};
ghost use Rattle.aatry_words.specs.Numbers.{end_of_times};

use crate::moments::Moment;
use crate::numbers::number_of;

// Whether a byte is at an index of a word, unless the word ends before it.
fn stands_at(byte: u8, place: usize, word: &[u8]) -> bool
    ensures { result ≡ stands_at byte place word.now }
{
    word.len() <= place || word[place] == byte
}

// Whether a word has the form of a day, of one with hour and minute, or of one with the second too.
fn has_form(word: &[u8]) -> bool
    ensures { result ≡ has_form word.now }
{
    (word.len() == 10 || word.len() == 16 || word.len() == 19)
        && stands_at(b'-', 4, word)
        && stands_at(b'-', 7, word)
        && stands_at(b' ', 10, word)
        && stands_at(b':', 13, word)
        && stands_at(b':', 16, word)
}

// The first `count` bytes; all, where there are fewer.
fn at_most(text: &[u8], count: usize) -> &[u8]
    ensures { result.now ≡ take count text.now }
{
    if text.len() <= count {
        text
    } else {
        &text[..count]
    }
}

// The number of some digits at an index of a word: 0 where the word ends before them.
fn number_at(place: usize, digits: usize, word: &[u8]) -> Option<u64>
    ensures value { result ≡ number_at place digits word.now }
    ensures small { IfSome result (λ number. number < end_of_times) }
{
    if word.len() <= place {
        return Some(0);
    }
    number_of(at_most(&word[place..], digits))
}

// The moment of six numbers, if each is given.
fn moment_by(
    year: Option<u64>,
    month: Option<u64>,
    day: Option<u64>,
    hour: Option<u64>,
    minute: Option<u64>,
    second: Option<u64>,
) -> Option<Moment>
    ensures { result ≡ moment_by year month day hour minute second }
{
    Some(Moment {
        year: year?,
        month: month?,
        day: day?,
        hour: hour?,
        minute: minute?,
        second: second?,
    })
}

// The moment of the numbers of a word.
fn moment_in(word: &[u8]) -> Option<Moment>
    ensures { result ≡ moment_in word.now }
{
    moment_by(
        number_at(0, 4, word),
        number_at(5, 2, word),
        number_at(8, 2, word),
        number_at(11, 2, word),
        number_at(14, 2, word),
        number_at(17, 2, word),
    )
}

// The seconds to a moment, where the calendar and the clock have it.
fn seconds_of(moment: Moment) -> Option<u64>
    ensures { result ≡ seconds_of moment }
{
    if moment.is_moment() {
        Some(moment.seconds_to())
    } else {
        None
    }
}

// The time of a word that has the form of a moment.
fn written_time(word: &[u8]) -> Option<u64>
    ensures { result ≡ written_time word.now }
{
    if !has_form(word) {
        return None;
    }
    seconds_of(moment_in(word)?)
}

/// The time that a word names, as seconds since 1970: `@` with these in decimal digits, or a moment in UTC, as `2026-11-28`, `2026-11-28 10:20` or
/// `2026-11-28 10:20:30`. `None` where it names none: another form, a moment that the calendar or the clock doesn't have, or one before 1970 or
/// after 9999. It takes no memory.
pub fn time_named(word: &[u8]) -> Option<u64>
    ensures { result ≡ time_named word.now }
{
    match word {
        [b'@', digits @ ..] => number_of(digits),
        _ => written_time(word),
    }
}
