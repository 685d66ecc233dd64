//! The disk, as the program reads and writes it.

/// The disk, as the program reads and writes it.
#[derive(Drop)]
pub struct Disk<F, D, T> {
    /// Where the members of folders are read from.
    pub folders: F,
    /// Where files are read from.
    pub files: D,
    /// Where transcripts are replaced, where a test is to accept what is told.
    pub store: T,
}
