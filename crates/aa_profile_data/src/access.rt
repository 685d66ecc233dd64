//! Sets of access letters.

ghost use Rattle.std.specs.Prelude.{⊤, ◌≡◌, ◌<◌, ◌++◌, [], ◌∷◌, codes, flat_map, IfSome, OnOk};
ghost use Rattle.std.specs.Option.{option_map};
ghost use Rattle.aa_profile_data.specs.Access.{asked_letters, bit_of, covered, letter_in, letters_of, needs_of, told_bit};

use bitflags::{Flag, Flags, bitflag_items};
use std::alloc::AllocError;

/// A set of the access letters `r w a l k m x` of a rule or a request: read, write, append, link, lock, map into
/// memory as code, and execute (apparmor.d(5), "File Permission Access Modes").
#[derive(Clone, Copy, PartialEq, Eq, Debug)]
pub struct Perms(u8);

bitflag_items! {
    impl Perms: u8 {
        const READ = 1;
        const WRITE = 2;
        const APPEND = 4;
        const LINK = 8;
        const LOCK = 16;
        const MAP = 32;
        const EXEC = 64;
    }
}

impl Flags for Perms {
    type Bits = u8;

    ghost exact = { ⊤ };

    ghost table = { (codes "READ", 1) ∷ (codes "WRITE", 2) ∷ (codes "APPEND", 4) ∷ (codes "LINK", 8)
        ∷ (codes "LOCK", 16) ∷ (codes "MAP", 32) ∷ (codes "EXEC", 64) ∷ [] };

    ghost set_of = { λ p. p.0 };

    fn flags<'a>() -> &'a [Flag<Perms>] {
        Perms::FLAGS
    }

    fn bits(&self) -> u8 {
        self.0
    }

    fn from_bits_retain(bits: u8) -> Perms {
        Perms(bits)
    }
}

impl Perms {
    /// The set of one letter of `r w a l k m`; `None` for any other byte. A rule has `x` by its exec word, and a question by its kind.
    pub fn of_letter(letter: u8) -> Option<Perms>
        ensures { option_map (λ p. p.0) result ≡ bit_of letter }
    {
        match letter {
            b'r' => Some(Perms::READ),
            b'w' => Some(Perms::WRITE),
            b'a' => Some(Perms::APPEND),
            b'l' => Some(Perms::LINK),
            b'k' => Some(Perms::LOCK),
            b'm' => Some(Perms::MAP),
            _ => None,
        }
    }

    /// The set of the letters of `r w a l k m` that a request needs: at least one, each known and none twice; `None` for other texts. It takes no
    /// memory.
    pub fn of_letters(letters: &[u8]) -> Option<Perms>
        ensures needs { option_map (λ p. p.0) result ≡ needs_of letters.now }
        ensures known { IfSome result (λ p. p.0 < asked_letters) }
    {
        if letters.is_empty() {
            return None;
        }
        let mut set = Perms::empty();
        for letter in letters {
            let letter = Perms::of_letter(*letter)?;
            if set.contains(letter) {
                return None;
            }
            set = set.union(letter);
        }
        Some(set)
    }

    /// What a rule with these letters covers: each letter itself, and with `w` also `a`.
    pub fn covered(self) -> Perms
        ensures { result.0 ≡ covered self.0 }
    {
        if self.contains(Perms::WRITE) {
            self.union(Perms::APPEND)
        } else {
            self
        }
    }

    // Appends a letter to a text, if the set has it.
    fn push_letter(self, letter: u8, text: &mut Vec<u8>) -> Result<(), AllocError>
        ensures { OnOk result (text.new.items ≡ text.old.items ++ letter_in self.0 letter) }
    {
        if let Some(one) = told_letter(letter) {
            if self.contains(one) {
                text.push(letter)?;
            }
        }
        Ok(())
    }

    // Appends those of some letters to a text that the set has, in their order.
    fn push_letters_among(self, letters: &[u8], text: &mut Vec<u8>) -> Result<(), AllocError>
        ensures { OnOk result (text.new.items ≡ text.old.items ++ flat_map (letter_in self.0) letters.now) }
    {
        let mut rest = letters;
        while let [letter, more @ ..] = rest {
            self.push_letter(*letter, text)?;
            rest = more;
        }
        Ok(())
    }

    /// Appends the letters of the set to a text, in the order `r w a l k m x`.
    ///
    /// # Errors
    ///
    /// Where memory runs out.
    pub fn push_letters(self, text: &mut Vec<u8>) -> Result<(), AllocError>
        ensures { OnOk result (text.new.items ≡ text.old.items ++ letters_of self.0) }
    {
        self.push_letters_among(b"rwalkmx", text)
    }
}

// The set of one letter of `r w a l k m x`; `None` for any other byte.
pub fn told_letter(letter: u8) -> Option<Perms>
    ensures { option_map (λ p. p.0) result ≡ told_bit letter }
{
    if letter == b'x' {
        Some(Perms::EXEC)
    } else {
        Perms::of_letter(letter)
    }
}
