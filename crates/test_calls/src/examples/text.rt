//! What a text stands for in which a variable is named.

use aa_text::{TextError, Variables};
use std::alloc::Global;

/// What `@{WEB}/*.html` stands for where `@{WEB}` is `/srv/www` or `/srv/ftp`: a text for each.
pub fn expansions(alloc: Global) -> Result<Vec<Vec<u8>>, TextError> {
    let mut variables = Variables::new(alloc);
    variables.define(b"WEB", &[b"/srv/www", b"/srv/ftp"])?;
    variables.expand(b"@{WEB}/*.html")
}
