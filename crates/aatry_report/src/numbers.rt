//! Numbers, as they are printed.

ghost use Rattle.std.specs.Prelude.{◌≡◌, ◌++◌, OnOk};
ghost use Rattle.std.specs.Fmt.{decimal};

use itoa::Buffer;
use std::alloc::AllocError;

/// Appends words to a text, followed by a number in decimal.
///
/// # Errors
///
/// Where memory runs out. The words may have been appended then.
pub fn push_number(out: &mut Vec<u8>, words: &str, number: usize) -> Result<(), AllocError>
    ensures { OnOk result (out.new.items ≡ out.old.items ++ words.now ++ decimal number) }
{
    let mut digits = Buffer::new();
    out.extend_from_slice(words.as_bytes())?;
    out.extend_from_slice(digits.format(number).as_bytes())?;
    Ok(())
}
