//! How much may be read.

/// How many bytes may be read in all for one file with its includes, each file counted as often as it is entered. So no file may have more.
pub const MOST_BYTES: usize = 16_777_216;
