//! What the words ask for with which the program was started.

use aa_start::plan;
use std::alloc::{AllocError, Global};

// The words, as the system hands them over.
fn texts(alloc: Global, words: &[&str]) -> Result<Vec<String>, AllocError> {
    let mut texts = Vec::new(alloc);
    for word in words {
        texts.push(String::from_str(alloc, word)?)?;
    }
    Ok(texts)
}

/// The folder below which the words ask to look for files, if they ask for a run.
pub fn folder(alloc: Global, words: &[&str]) -> Option<String> {
    let words = texts(alloc, words).ok()?;
    Some(plan(alloc, &words).ok()?.base)
}
