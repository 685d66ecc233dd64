//! Prefixes of texts, and which bytes a text holds.

ghost use Rattle.std.specs.Prelude.{◌≡◌, ◌<◌, ◌≤◌, ℕ, Bool, length, drop, IsTrue};
ghost use Rattle.std.specs.List.{prefix_len};
ghost use Rattle.aa_bytes.specs.Texts.{begins_with, begins_with_byte, has_byte};

/// Whether `text` begins with `front`. It takes no memory.
pub fn begins_with(front: &[u8], text: &[u8]) -> bool
    ensures value { result ≡ begins_with front.now text.now }
    ensures within { IsTrue result → length front.now ≤ length text.now }
{
    text.starts_with(front)
}

/// Whether `text` begins with this byte. It takes no memory; `O(1)`.
pub fn begins_with_byte(byte: u8, text: &[u8]) -> bool
    ensures value { result ≡ begins_with_byte byte text.now }
    ensures within { IsTrue result → 0 < length text.now }
{
    match text {
        [first, ..] => *first == byte,
        [] => false,
    }
}

/// Whether `text` holds this byte. It takes no memory; `O(n)` in the length of the text.
pub fn has_byte(byte: u8, text: &[u8]) -> bool
    ensures { result ≡ has_byte byte text.now }
{
    text.iter().any(|other| *other == byte)
}

/// What follows the first `size` bytes of a text: nothing where the text has no more than these. It takes no memory; `O(1)`.
pub fn behind(size: usize, text: &[u8]) -> &[u8]
    ensures { result.now ≡ drop size text.now }
{
    if size < text.len() {
        &text[size..]
    } else {
        &[]
    }
}

/// How many bytes a text has before the first that doesn't pass a test: the text's length where all pass. It takes no memory but what the test does.
pub fn length_while<F: Fn(u8) -> bool>(text: &[u8], passes: F) -> usize
    requires { F.IsAlwaysCallable passes }
    // The result is the length of the longest prefix whose bytes all pass, for each test in definitions that the call computes.
    ensures value { (test : ℕ → Bool)
        → ((b : ℕ) (r : Bool) → b < 256 → F.post passes b r → r ≡ test b)
        → result ≡ prefix_len test text.now }
    ensures within { result ≤ length text.now }
{
    for (at, byte) in text.iter().enumerate() {
        if !passes(*byte) {
            return at;
        }
    }
    text.len()
}
