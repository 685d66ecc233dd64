//! How the text of a file is cut.

use aa_text::{CutFault, TokenKind, tokens};
use std::alloc::Global;

/// The words of a text, each in a line of its own. Texts in quotes, commas, braces and comments are none.
pub fn word_lines(alloc: Global, text: &[u8]) -> Result<Vec<u8>, CutFault> {
    let mut lines = Vec::new(alloc);
    for token in tokens(alloc, text)? {
        if token.kind == TokenKind::Word {
            lines.extend_from_slice(token.text)?;
            lines.push(b'\n')?;
        }
    }
    Ok(lines)
}
