//! The access of a file rule, as it is written.

ghost use Rattle.std.specs.Prelude.{◌≡◌, ◌<◌, IfSome, length};
ghost use Rattle.std.specs.Option.{option_map};
ghost use Rattle.aa_profile_data.specs.WrittenAccess.{access_with, has_two_words, nothing_written, with_letter, with_word};
ghost use Rattle.aa_profile_data.specs.code.Beginnings.{first_word, seen_read, word_of_three, word_of_two};

use crate::access::{Perms, told_letter};
use crate::exec_word::ExecWord;
use bitflags::Flags;

/// What the text of a file rule's access says.
#[derive(Clone, Copy)]
pub struct WrittenAccess {
    /// Its letters; a bare `x` is among them.
    pub letters: Perms,
    /// Its exec word; the first where there are several.
    pub word: Option<ExecWord>,
    /// Whether a later exec word differs from that one.
    pub differs: bool,
}

// No access.
fn nothing_written() -> WrittenAccess
    ensures { result ≡ nothing_written }
{
    WrittenAccess {
        letters: Perms::empty(),
        word: None,
        differs: false,
    }
}

// The exec word of three bytes with which a text begins, and what follows it.
fn word_of_three(text: &[u8]) -> Option<(ExecWord, &[u8])>
    ensures read { option_map seen_read result ≡ word_of_three text.now }
    ensures shorter { IfSome result (λ read. length read.1.now < length text.now) }
{
    let [a, b, c, behind @ ..] = text else {
        return None;
    };
    let word = ExecWord::of_text(&[*a, *b, *c])?;
    Some((word, behind))
}

// The exec word of two bytes with which a text begins, and what follows it.
fn word_of_two(text: &[u8]) -> Option<(ExecWord, &[u8])>
    ensures read { option_map seen_read result ≡ word_of_two text.now }
    ensures shorter { IfSome result (λ read. length read.1.now < length text.now) }
{
    let [a, b, behind @ ..] = text else {
        return None;
    };
    let word = ExecWord::of_text(&[*a, *b])?;
    Some((word, behind))
}

// The exec word with which a text begins, of three bytes or else of two, and what follows it.
fn first_word(text: &[u8]) -> Option<(ExecWord, &[u8])>
    ensures read { option_map seen_read result ≡ first_word text.now }
    ensures shorter { IfSome result (λ read. length read.1.now < length text.now) }
{
    match word_of_three(text) {
        Some(read) => Some(read),
        None => word_of_two(text),
    }
}

impl WrittenAccess {
    // With one more letter.
    fn with_letter(self, letter: Perms) -> WrittenAccess
        ensures { result ≡ with_letter self letter.0 }
    {
        WrittenAccess {
            letters: self.letters.union(letter),
            ..self
        }
    }

    // With one more exec word.
    fn with_word(self, word: ExecWord) -> WrittenAccess
        ensures { result ≡ with_word self word }
    {
        match self.word {
            None => WrittenAccess {
                word: Some(word),
                ..self
            },
            Some(first) => WrittenAccess {
                differs: self.differs || !first.is_same(word),
                ..self
            },
        }
    }

    /// What a text says: the letters, bare `x` and exec words of which it is written, one after the other; `None` where it isn't written of such
    /// parts. The law `what_accesses_say` says so of the parts, and that no text is written of them in two ways. It takes no memory.
    #[tactic(auto, using(crate::proofs::WrittenLemmas::read_first, crate::proofs::WrittenLemmas::letter_first))]
    pub fn of_text(text: &[u8]) -> Option<WrittenAccess>
        ensures { result ≡ access_with nothing_written text.now }
    {
        let mut written = nothing_written();
        let mut rest = text;
        while let [first, behind @ ..] = rest {
            if let Some((word, more)) = first_word(rest) {
                written = written.with_word(word);
                rest = more;
            } else {
                written = written.with_letter(told_letter(*first)?);
                rest = behind;
            }
        }
        Some(written)
    }

    /// Whether it has two different exec words, where a bare `x` counts as one.
    pub fn has_two_words(self) -> bool
        ensures { result ≡ has_two_words self }
    {
        self.differs || (self.word.is_some() && self.letters.contains(Perms::EXEC))
    }
}
