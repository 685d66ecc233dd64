//! Parts of one kind, one after the other.

use aa_text_tokens::Spliced;

/// Tokens that weren't read yet.
#[derive(Clone, Copy)]
pub struct Rest<'a> {
    /// The tokens.
    pub tokens: &'a [Spliced<'a>],
}

/// What comes next in a list of parts.
#[derive(Drop)]
pub enum Next<T> {
    /// An item of the list.
    Item(T),
    /// Something that isn't kept.
    Nothing,
    /// The end of the list.
    End,
}
