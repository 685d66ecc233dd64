//! Texts that name no variable, as most do: each is its one expansion.

ghost use Rattle.std.specs.Prelude.{◌≡◌, ◌∷◌, [], IfOk, take};
ghost use Rattle.aa_text_expansion.specs.Joining.{most_kept, texts_of};
ghost use Rattle.aa_text_variables.specs.ExpansionLaws.{names_nothing};

use aa_text_expansion::{MOST_KEPT, has_missing};
use std::alloc::{AllocError, Global};

/// Whether a text names no variable and opens no name. It takes no memory.
pub(super) fn names_nothing(text: &[u8]) -> bool
    ensures { result ≡ names_nothing text.now }
{
    !has_missing(text, |_| true)
}

/// The list of a text alone, cut off after its first 4,097 bytes.
pub(super) fn alone(alloc: Global, text: &[u8]) -> Result<Vec<Vec<u8>>, AllocError>
    ensures { IfOk result (λ texts. texts_of texts ≡ take most_kept text.now ∷ []) }
{
    let mut texts = Vec::with_capacity(alloc, 1)?;
    let copy = Vec::from_slice(alloc, &text[..text.len().min(MOST_KEPT)])?;
    texts.push(copy)?;
    Ok(texts)
}
