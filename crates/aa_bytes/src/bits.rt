//! Sets of bits, each bit with a number: in words of 64 bits, and in one byte.

ghost use Rattle.std.specs.Prelude.{◌≡◌, ℕ, ◌*◌, ◌<◌, ◌==◌, ◌||◌, ◌&&◌, not, length};
ghost use Rattle.aa_bytes.specs.Bits.{byte_has_bit, has_bit};

/// Whether the bit of a number is set.
pub fn has_bit(words: &[u64], number: usize) -> bool
    requires { number < 64 * length words.now }
    ensures { result ≡ has_bit words.now number }
{
    words[number / 64] & (1 << (number % 64)) != 0
}

/// Sets the bit of a number.
pub fn set_bit(words: &mut [u64], number: usize)
    requires { number < 64 * length words.old }
    ensures { (other : ℕ) → has_bit words.new other ≡ (other == number || has_bit words.old other) }
{
    words[number / 64] |= 1 << (number % 64);
}

/// Clears the bit of a number.
pub fn clear_bit(words: &mut [u64], number: usize)
    requires { number < 64 * length words.old }
    ensures { (other : ℕ) → has_bit words.new other ≡ (not (other == number) && has_bit words.old other) }
{
    words[number / 64] &= !(1 << (number % 64));
}

/// Whether the bit of a number, from 0 to 7, is set in a byte.
pub fn byte_has_bit(byte: u8, number: u8) -> bool
    requires { number < 8 }
    ensures { result ≡ byte_has_bit byte number }
{
    byte & (1 << number) != 0
}

/// The byte with the bit of a number, from 0 to 7, set as well.
pub fn byte_with_bit(byte: u8, number: u8) -> u8
    requires { number < 8 }
    ensures { (other : ℕ) → byte_has_bit result other ≡ (other == number || byte_has_bit byte other) }
{
    byte | (1 << number)
}
