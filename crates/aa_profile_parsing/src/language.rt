//! The languages of policy.

ghost use Rattle.std.specs.Prelude.{◌≡◌};
ghost use Rattle.aa_profile_parsing.specs.Languages.{language_named, word_of};

/// The language by which policy is read.
#[derive(Clone, Copy, Debug, PartialEq, Eq)]
pub enum Language {
    /// The language of AppArmor 3.
    Three,
    /// The language of AppArmor 4, which has all of language 3 and more.
    Four,
}

impl Language {
    /// The language of a word, which is its number in ASCII digits; `None` where no language has it. It takes no memory.
    pub fn named(word: &[u8]) -> Option<Language>
        ensures { result ≡ language_named word.now }
    {
        if word == b"3".as_slice() {
            Some(Language::Three)
        } else if word == b"4".as_slice() {
            Some(Language::Four)
        } else {
            None
        }
    }

    /// The word of the language: its number.
    pub fn word(self) -> &'static str
        ensures { result.now ≡ word_of self }
    {
        match self {
            Language::Three => "3",
            Language::Four => "4",
        }
    }
}
