//! Why arguments don't ask for a run.

/// Why arguments don't ask for a run.
#[derive(Drop)]
pub enum ArgumentFault {
    /// Help was asked for: its text, with the last line feed.
    Help(String),
    /// The version was asked for: the line with it, with its line feed.
    Version(String),
    /// The arguments ask for something that doesn't exist, or lack something that is required.
    Bad,
    /// Memory ran out.
    Memory,
}
