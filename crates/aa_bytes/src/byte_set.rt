//! Sets of bytes that an item of a pattern matches one of.

ghost use Rattle.std.specs.Prelude.{◌≡◌};
ghost use Rattle.aa_bytes.specs.ByteSets.{is_inside, has, is_listed, lists};

use crate::sequence::Sequence;

/// A range of a class: the bytes from `first` to `last`, both included.
#[derive(Clone, Copy, Debug, PartialEq, Eq)]
pub struct ByteRange {
    /// The first byte.
    pub first: u8,
    /// The last byte.
    pub last: u8,
}

/// A set of bytes, in which zero never is.
#[derive(Drop)]
pub enum ByteSet {
    /// The bytes that may stand within a segment of a path: all but `/`.
    Inside,
    /// A class: the bytes that it lists or, where it is negated, those that it doesn't list.
    Class {
        /// Whether the class begins with `^`, and so stands for the bytes that it doesn't list.
        negated: bool,
        /// The ranges that it lists, in the order of the text.
        ranges: Sequence<ByteRange>,
    },
}

impl ByteRange {
    /// Whether the byte is in the range.
    pub fn lists(self, byte: u8) -> bool
        ensures { result ≡ lists byte self }
    {
        self.first <= byte && byte <= self.last
    }
}

impl ByteSet {
    /// Whether the byte is in the set. It takes no memory; `O(n)` in the number of ranges of a class.
    pub fn has(&self, byte: u8) -> bool
        ensures { result ≡ has self.now byte }
    {
        match self {
            ByteSet::Inside => is_inside(byte),
            ByteSet::Class { negated, ranges } => {
                byte != 0 && *negated != is_listed(ranges.as_slice(), byte)
            }
        }
    }
}

fn is_listed(ranges: &[ByteRange], byte: u8) -> bool
    ensures { result ≡ is_listed byte ranges.now }
{
    ranges.iter().any(|range| range.lists(byte))
}

/// Whether the byte may stand within a segment of a path: it is neither zero nor `/`.
pub fn is_inside(byte: u8) -> bool
    ensures { result ≡ is_inside byte }
{
    byte != 0 && byte != b'/'
}
