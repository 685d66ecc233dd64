//! Numbers in decimal digits.

ghost use Rattle.std.specs.Prelude.{◌≡◌, ◌<◌, ◌≤◌, IfSome};
ghost use Rattle.aatry_words.specs.Numbers.{end_of_times, is_digit, number_of, with_digit, with_more};

// The first second of the year 10000.
const END: u64 = 253_402_300_800;

// Whether a byte is a decimal digit.
fn is_digit(byte: u8) -> bool
    ensures { result ≡ is_digit byte }
{
    b'0' <= byte && byte <= b'9'
}

// A number with one more digit at its end.
fn with_digit(number: u64, digit: u8) -> u64
    requires small { number < end_of_times }
    requires digit { 48 ≤ digit }
    ensures { result ≡ with_digit number digit }
{
    number * 10 + (digit - b'0') as u64
}

// A number with one more byte at its end, if that is a digit, and the number is before the end of times.
fn one_more(number: u64, digit: u8) -> Option<u64>
    requires { number < end_of_times }
    ensures value { result ≡ with_more number digit }
    ensures small { IfSome result (λ more. more < end_of_times) }
{
    if !is_digit(digit) {
        return None;
    }
    let more = with_digit(number, digit);
    if more < END { Some(more) } else { None }
}

/// The number of a text of decimal digits, of which there is at least one; `None` where another byte is among them, or where it is 253,402,300,800
/// or more, the first second of the year 10000. It takes no memory.
pub fn number_of(text: &[u8]) -> Option<u64>
    ensures value { result ≡ number_of text.now }
    ensures small { IfSome result (λ number. number < end_of_times) }
{
    if text.is_empty() {
        return None;
    }
    let mut number = 0;
    for digit in text {
        number = one_more(number, *digit)?;
    }
    Some(number)
}
