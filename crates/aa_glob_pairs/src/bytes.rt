//! The bytes of a step.

ghost use Rattle.std.specs.Prelude.{◌≡◌, Decides};
ghost use Rattle.aa_glob_pairs.specs.Bytes.{BothHave, in_bytes, IsShared};

use aa_bytes::{ByteMap, is_inside};

/// The set of the bytes of a step.
#[derive(Clone, Copy)]
pub enum Bytes {
    /// This one.
    One(u8),
    /// The bytes within a segment of a path: all but zero and `/`.
    Inside,
    /// All but zero.
    Any,
    /// The bytes of this set.
    Set(ByteMap),
}

impl Bytes {
    // Whether a byte is in the set.
    fn has(&self, byte: u8) -> bool
        ensures { result ≡ in_bytes self.now byte }
    {
        match self {
            Bytes::One(own) => byte == *own,
            Bytes::Inside => is_inside(byte),
            Bytes::Any => byte != 0,
            Bytes::Set(map) => map.has(byte),
        }
    }
}

/// Whether two steps share a byte.
pub fn share(first: &Bytes, second: &Bytes) -> bool
    ensures { Decides result (IsShared first.now second.now) }
{
    match first {
        Bytes::One(byte) => second.has(*byte),
        _ => share_some(first, second),
    }
}

// Whether two steps share a byte, where the first has more bytes than one.
fn share_some(first: &Bytes, second: &Bytes) -> bool
    ensures { Decides result (IsShared first.now second.now) }
{
    match second {
        Bytes::One(byte) => first.has(*byte),
        _ => share_any(first, second),
    }
}

// Whether two steps share a byte, found byte by byte.
fn share_any(first: &Bytes, second: &Bytes) -> bool
    ensures { Decides result (IsShared first.now second.now) }
{
    for byte in 0..255 {
        if both_have(first, second, byte) {
            return true;
        }
    }
    both_have(first, second, 255)
}

// Whether both have the byte.
fn both_have(first: &Bytes, second: &Bytes, byte: u8) -> bool
    ensures { Decides result (BothHave first.now second.now byte) }
{
    first.has(byte) && second.has(byte)
}
