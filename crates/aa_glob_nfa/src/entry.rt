//! The entry of a state: what it takes to enter it.

use aa_bytes::ByteMap;

/// What it takes to enter a state from one that leads to it, and to stay in it.
#[derive(Clone, Copy)]
pub enum Entry {
    /// No byte.
    Free,
    /// This byte.
    Byte(u8),
    /// A byte within a segment of a path: any but zero and `/`.
    Inside,
    /// A byte of this set.
    Class(ByteMap),
    /// No byte to enter. Each byte within a segment of a path stays in the state.
    Star,
    /// No byte to enter. Each byte but zero stays in the state.
    DoubleStar,
}
