//! Sets of bytes as bit maps.

ghost use Rattle.std.specs.Prelude.{◌≡◌, ℕ, ◌==◌, ◌||◌, false};
ghost use Rattle.aa_bytes.specs.ByteMaps.{in_map};

use crate::bits::{has_bit, set_bit};

/// A set of bytes as a bit map: one bit for each of the 256 bytes, 32 bytes in all. Zero may be in it.
#[derive(Clone, Copy)]
pub struct ByteMap {
    words: [u64; 4],
}

impl ByteMap {
    /// The empty set.
    pub fn new() -> ByteMap
        ensures { (byte : ℕ) → in_map result byte ≡ false }
    {
        ByteMap { words: [0; 4] }
    }

    /// Adds a byte to the set.
    pub fn insert(&mut self, byte: u8)
        ensures { (other : ℕ) → in_map self.new other ≡ (other == byte || in_map self.old other) }
    {
        set_bit(&mut self.words, byte as usize);
    }

    /// Whether a byte is in the set.
    pub fn has(&self, byte: u8) -> bool
        ensures { result ≡ in_map self.now byte }
    {
        has_bit(&self.words, byte as usize)
    }
}
