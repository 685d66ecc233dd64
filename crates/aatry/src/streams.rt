//! The streams of the program.

/// The streams of the program.
#[derive(Drop)]
pub struct Streams<S, W, E> {
    /// Standard input, from which a session takes its lines.
    pub input: S,
    /// Standard output, on which stands what is told.
    pub output: W,
    /// Standard error, on which a fault is reported, and what is noted beside what is told.
    pub errors: E,
}
