//! How names are written.

use aa_bytes::push_text;
use std::alloc::{AllocError, Global};

/// Two names: one stands between quotes, the other, which has a blank in it, in hexadecimal.
pub fn written_names(alloc: Global) -> Result<Vec<u8>, AllocError> {
    let mut line = Vec::new(alloc);
    push_text(&mut line, b"/srv/www")?;
    line.push(b' ')?;
    push_text(&mut line, b"/srv/a b")?;
    Ok(line)
}
