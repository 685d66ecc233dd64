//! Letters in words.

ghost use Rattle.std.specs.Prelude.{◌≡◌, ◌++◌, OnOk};
ghost use Rattle.aatry_claims.specs.Letters.{letter_words, word_of};

use aa_profile_data::Perms;
use bitflags::Flags;
use std::alloc::AllocError;

// Appends the word of a letter to a text, if it is among some, with the separator before it, if an earlier letter is among them.
fn push_word(
    letters: Perms,
    letter: Perms,
    earlier: u8,
    word: &str,
    between: &str,
    out: &mut Vec<u8>,
) -> Result<(), AllocError>
    ensures { OnOk result (out.new.items ≡ out.old.items ++ word_of letters.0 letter.0 earlier word.now between.now) }
{
    if !letters.intersects(letter) {
        return Ok(());
    }
    if letters.intersects(Perms::from_bits_retain(earlier)) {
        out.extend_from_slice(between.as_bytes())?;
    }
    out.extend_from_slice(word.as_bytes())?;
    Ok(())
}

/// Appends letters to a text, in words: what they allow.
///
/// # Errors
///
/// Where memory runs out. A beginning may have been appended then.
#[tactic(auto, unfolding(crate::specs::Letters::letter_words))]
pub fn push_letter_words(letters: Perms, between: &str, out: &mut Vec<u8>) -> Result<(), AllocError>
    ensures { OnOk result (out.new.items ≡ out.old.items ++ letter_words letters.0 between.now) }
{
    push_word(letters, Perms::READ, 0, "read", between, out)?;
    push_word(letters, Perms::WRITE, 1, "write", between, out)?;
    push_word(letters, Perms::APPEND, 3, "append to", between, out)?;
    push_word(letters, Perms::LINK, 7, "link to", between, out)?;
    push_word(letters, Perms::LOCK, 15, "lock", between, out)?;
    push_word(letters, Perms::MAP, 31, "map", between, out)?;
    push_word(letters, Perms::EXEC, 63, "start", between, out)
}
