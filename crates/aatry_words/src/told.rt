//! Times, as they are printed.

ghost use Rattle.std.specs.Prelude.{◌≡◌, ◌++◌, OnOk};
ghost use Rattle.aatry_words.specs.Told.{clock_text, date_text, last_digit, four_digits, time_text, two_digits};

use crate::moments::{Moment, moment_of};
use std::alloc::AllocError;

// The last digit of a number.
fn last_digit(number: u64) -> u8
    ensures { result ≡ last_digit number }
{
    b'0' + (number % 10) as u8
}

// Appends a separator and the last two digits of a number to a text.
fn push_two(out: &mut Vec<u8>, ahead: &[u8], number: u64) -> Result<(), AllocError>
    ensures { OnOk result (out.new.items ≡ out.old.items ++ ahead.now ++ two_digits number) }
{
    out.extend_from_slice(ahead)?;
    out.extend_from_slice(&[last_digit(number / 10), last_digit(number)])
}

// Appends the last four digits of a number to a text.
fn push_four(out: &mut Vec<u8>, number: u64) -> Result<(), AllocError>
    ensures { OnOk result (out.new.items ≡ out.old.items ++ four_digits number) }
{
    push_two(out, b"", number / 100)?;
    push_two(out, b"", number)
}

// Appends a day to a text.
fn push_date(out: &mut Vec<u8>, moment: &Moment) -> Result<(), AllocError>
    ensures { OnOk result (out.new.items ≡ out.old.items ++ date_text moment.now) }
{
    push_four(out, moment.year)?;
    push_two(out, b"-", moment.month)?;
    push_two(out, b"-", moment.day)
}

// Appends a time of the day to a text.
fn push_clock(out: &mut Vec<u8>, moment: &Moment) -> Result<(), AllocError>
    ensures { OnOk result (out.new.items ≡ out.old.items ++ clock_text moment.now) }
{
    push_two(out, b"", moment.hour)?;
    push_two(out, b":", moment.minute)?;
    push_two(out, b":", moment.second)
}

/// Appends a time to a text, given by its seconds since 1970, in UTC: `2026-11-28 10:20:30`.
///
/// # Errors
///
/// Where memory runs out. A beginning may have been appended then.
pub fn push_time(out: &mut Vec<u8>, seconds: u64) -> Result<(), AllocError>
    ensures { OnOk result (out.new.items ≡ out.old.items ++ time_text seconds) }
{
    let moment = moment_of(seconds);
    push_date(out, &moment)?;
    out.push(b' ')?;
    push_clock(out, &moment)
}
