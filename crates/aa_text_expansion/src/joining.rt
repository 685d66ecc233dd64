//! Texts joined, and cut off where no more of them is of use.

ghost use Rattle.std.specs.Prelude.{◌≡◌, ◌++◌, OnOk, take};
ghost use Rattle.aa_text_expansion.specs.Joining.{most_kept};

use std::alloc::AllocError;

/// How many bytes of a text are kept at most.
pub const MOST_KEPT: usize = 4_097;

/// Appends bytes to a text, and cuts it off after its first 4,097 bytes.
///
/// # Errors
///
/// Where memory runs out. Nothing is promised then about the text.
pub fn put_behind(text: &mut Vec<u8>, bytes: &[u8]) -> Result<(), AllocError>
    ensures { OnOk result (text.new.items ≡ take most_kept (text.old.items ++ bytes.now)) }
{
    text.truncate(MOST_KEPT);
    let room = MOST_KEPT - text.len();
    text.extend_from_slice(&bytes[..bytes.len().min(room)])?;
    Ok(())
}
