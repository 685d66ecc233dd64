//! Tokens of several files.

use crate::cut::Token;

/// A token, and the file from which it is.
#[derive(Clone, Copy, Debug)]
pub struct Spliced<'a> {
    /// The index of the file among the files.
    pub file: usize,
    /// The token.
    pub token: Token<'a>,
}
