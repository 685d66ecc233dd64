//! The masks of requests for files.

ghost use Rattle.std.specs.Prelude.{◌≡◌, ◌<◌, option_map, IfSome};
ghost use Rattle.aa_profile_data.specs.Access.{asked_letters, bit_of};
ghost use Rattle.aatry_words.specs.Masks.{asked_letter, is_mask, is_mask_letter, needs_meant, needs_of_mask};

use aa_profile_data::Perms;
use bitflags::Flags;

// Whether a letter is in masks only.
fn is_mask_letter(letter: u8) -> bool
    ensures { result ≡ is_mask_letter letter }
{
    letter == b'c' || letter == b'd'
}

// The letter of an access for a letter of a mask.
fn asked_letter(letter: u8) -> u8
    ensures { result ≡ asked_letter letter }
{
    if is_mask_letter(letter) { b'w' } else { letter }
}

/// The need that a letter of a mask stands for, if it is known. It takes no memory.
pub fn need_of(letter: u8) -> Option<Perms>
    ensures { option_map (λ need. need.0) result ≡ bit_of (asked_letter letter) }
{
    Perms::of_letter(asked_letter(letter))
}

/// The needs that a mask stands for, if it has a letter and each is known. It takes no memory.
pub fn needs_of_mask(mask: &[u8]) -> Option<Perms>
    ensures needs { option_map (λ needs. needs.0) result ≡ needs_of_mask mask.now }
    ensures known { IfSome result (λ needs. needs.0 < asked_letters) }
{
    if mask.is_empty() {
        return None;
    }
    let mut set = Perms::empty();
    for letter in mask {
        set = set.union(need_of(*letter)?);
    }
    Some(set)
}

/// Whether an access has a letter that is in masks only. It takes no memory.
pub fn is_mask(access: &[u8]) -> bool
    ensures { result ≡ is_mask access.now }
{
    access.iter().any(|letter| is_mask_letter(*letter))
}

/// The needs of an access that may be written as the kernel writes masks, with `c` for a file that is created and `d` for one that is deleted: where
/// it has one of these, the needs of the mask (`needs_of_mask`), and else those of the letters, none of which may be repeated
/// (`aa_profile_data::Perms::of_letters`). `None` where no request needs such letters. It takes no memory.
pub fn needs_meant(access: &[u8]) -> Option<Perms>
    ensures needs { option_map (λ needs. needs.0) result ≡ needs_meant access.now }
    ensures known { IfSome result (λ needs. needs.0 < asked_letters) }
{
    if is_mask(access) {
        needs_of_mask(access)
    } else {
        Perms::of_letters(access)
    }
}
