//! What is wrong with words that make no question about all paths.

use crate::words::{letters_of, whose_of};
use aatry_report::push_shown;
use std::alloc::{AllocError, Global};

// Appends that an access is none.
fn push_bad_access(access: &str, out: &mut Vec<u8>) -> Result<(), AllocError> {
    out.extend_from_slice(
        b"ACCESS must be one or more of the letters r w a l k m x, none twice, not ",
    )?;
    push_shown(out, access.as_bytes())
}

// Appends that a word says nothing of owners.
fn push_bad_owner(owned: &str, out: &mut Vec<u8>) -> Result<(), AllocError> {
    out.extend_from_slice(b"OWNED must be owner, other or any, not ")?;
    push_shown(out, owned.as_bytes())
}

// Appends that a pattern is none.
fn push_bad_pattern(pattern: &str, out: &mut Vec<u8>) -> Result<(), AllocError> {
    out.extend_from_slice(b"PATTERN is not valid in a rule: ")?;
    push_shown(out, pattern.as_bytes())
}

// Appends the first thing that is wrong with words.
fn push_fault(words: &[String], out: &mut Vec<u8>) -> Result<(), AllocError> {
    let [access, owned, pattern, ..] = words else {
        return out.extend_from_slice(b"never and always require ACCESS, OWNED and PATTERN");
    };
    if letters_of(access.as_bytes()).is_none() {
        return push_bad_access(access.as_str(), out);
    }
    if whose_of(owned.as_bytes()).is_none() {
        return push_bad_owner(owned.as_str(), out);
    }
    push_bad_pattern(pattern.as_str(), out)
}

/// The line that says what is wrong with words that make no question about all paths: that they are too few, the access, the owner, or else the
/// pattern.
///
/// # Errors
///
/// Where memory runs out.
pub fn paths_fault(alloc: Global, words: &[String]) -> Result<Vec<u8>, AllocError> {
    let mut line = Vec::from_slice(alloc, b"aatry: ")?;
    push_fault(words, &mut line)?;
    line.push(b'\n')?;
    Ok(line)
}
