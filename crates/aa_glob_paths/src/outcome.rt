//! Patterns that match a path together.

/// The places of some patterns, in rising order, and one of the shortest paths that they match and no others.
#[derive(Debug, Drop)]
pub struct Outcome {
    pub places: Vec<usize>,
    pub path: Vec<u8>,
}
