//! The stamps of lines.

ghost use Rattle.std.specs.Prelude.{◌≡◌, ◌≤◌, length, option_map};
ghost use Rattle.std.specs.List.{position_or_len};
ghost use Rattle.aatry_log_lines.specs.Stamps.{is_dot, seconds_of, stamp_in, time_in};

use crate::pairs::value_of;
use aa_bytes::length_while;
use aatry_words::number_of;

// How many bytes are before the first dot; all, where there is none.
fn size_before_dot(text: &[u8]) -> usize
    ensures value { result ≡ position_or_len is_dot text.now }
    ensures within { result ≤ length text.now }
{
    length_while(text, |byte| byte != b'.')
}

// What follows the opening of a line's first stamp as the kernel writes it, or else as auditd does.
fn stamp_in(line: &[u8]) -> Option<&[u8]>
    ensures { option_map (λ stamp. stamp.now) result ≡ stamp_in line.now }
{
    match value_of(line, b"audit(") {
        Some(stamp) => Some(stamp),
        None => value_of(line, b"msg=audit("),
    }
}

// The seconds of a stamp.
fn seconds_of(stamp: &[u8]) -> Option<u64>
    ensures { result ≡ seconds_of stamp.now }
{
    let size = size_before_dot(stamp);
    if size < stamp.len() {
        number_of(&stamp[..size])
    } else {
        None
    }
}

/// When a line was logged that has a stamp `audit(SECONDS.MILLISECONDS:SERIAL)`: the seconds since 1970, of a time before the year 10000; else
/// `None`. It takes no memory.
pub fn time_in(line: &[u8]) -> Option<u64>
    ensures { result ≡ time_in line.now }
{
    seconds_of(stamp_in(line)?)
}
