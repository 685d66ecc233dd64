//! The words of a question about all paths.

ghost use Rattle.std.specs.Prelude.{◌≡◌, ◌<◌, map, option_map};
ghost use Rattle.aatry_claims.specs.Words.{letter_of, letters_of, path_words, seen_words, whose_of, with_letter};

use aa_explain_paths::Whose;
use aa_profile_data::Perms;
use bitflags::Flags;

/// The words of a question about all paths, as read.
#[derive(Clone, Copy)]
pub struct PathWords<'a> {
    /// The letters that are asked for.
    pub letters: Perms,
    /// Whose files are meant.
    pub whose: Whose,
    /// The pattern, as it is written.
    pub pattern: &'a [u8],
    /// The full names of those who are asked about; where there is none, all are.
    pub whom: &'a [&'a [u8]],
}

// The set of one letter, `x` among them.
fn letter_of(letter: u8) -> Option<Perms>
    ensures { option_map (λ p. p.0) result ≡ letter_of letter }
{
    if letter == b'x' {
        Some(Perms::EXEC)
    } else {
        Perms::of_letter(letter)
    }
}

// A set with one letter more, if that isn't in it already.
fn with_letter(set: Perms, letter: u8) -> Option<Perms>
    ensures { option_map (λ p. p.0) result ≡ with_letter set.0 letter }
{
    let letter = letter_of(letter)?;
    if set.intersects(letter) {
        return None;
    }
    Some(set.union(letter))
}

/// The letters of a word: at least one, each known and none twice; else `None`.
pub fn letters_of(word: &[u8]) -> Option<Perms>
    ensures { option_map (λ p. p.0) result ≡ letters_of word.now }
{
    if word.is_empty() {
        return None;
    }
    let mut set = Perms::empty();
    let mut rest = word;
    while let [letter, behind @ ..] = rest {
        set = with_letter(set, *letter)?;
        rest = behind;
    }
    Some(set)
}

/// Whose files a word means.
pub fn whose_of(word: &[u8]) -> Option<Whose>
    ensures { result ≡ whose_of word.now }
{
    if word == b"owner".as_slice() {
        Some(Whose::Owner)
    } else if word == b"other".as_slice() {
        Some(Whose::Other)
    } else if word == b"any".as_slice() {
        Some(Whose::Any)
    } else {
        None
    }
}

/// The words of a question about all paths: the letters of `r w a l k m x` that are asked for, whose files are meant, `owner`, `other` or `any`, a
/// pattern, and the full names of those who are asked about. `None` where the words make no such question. It takes no memory.
pub fn path_words<'a>(words: &'a [&'a [u8]]) -> Option<PathWords<'a>>
    ensures { option_map seen_words result ≡ path_words (map (λ word. word.now) words.now) }
{
    let [access, owned, pattern, whom @ ..] = words else {
        return None;
    };
    let letters = letters_of(access)?;
    let whose = whose_of(owned)?;
    Some(PathWords {
        letters,
        whose,
        pattern,
        whom,
    })
}
