//! Why a text is refused as a pattern.

ghost use Rattle.std.specs.Prelude.{◌≡◌};
ghost use Rattle.aa_glob_syntax.specs.PatternError.{name_of, number_of, words_of};
ghost use Rattle.aa_glob_syntax.specs.declared.pattern_error.PatternError.TheVariants.{Memory};

use std::alloc::{AllocError, AllocFailed};
use std::error::Error;
use std::fmt::{self, Display, Formatter, Write};

/// Why a text is no pattern. `docs/policy.md` has the rules, and the order in which they are checked.
#[derive(Clone, Copy, Debug, PartialEq, Eq)]
pub enum PatternError {
    /// The first byte isn't `/`, or there is none.
    NotAbsolute,
    /// A class has no `]` that closes it.
    UnclosedClass,
    /// A class lists no byte.
    EmptyClass,
    /// The first byte of a range is greater than its last.
    BadRange,
    /// A group has no `}` that closes it.
    UnclosedGroup,
    /// A `}` closes no group.
    StrayClose,
    /// A group has only one alternative.
    FewAlternatives,
    /// A backslash comes at the end, or before a letter or digit.
    BadEscape,
    /// The text is longer than 4,096 bytes.
    TooLong,
    /// More than 16 groups are nested in one another.
    TooDeep,
    /// The text holds a zero byte.
    ZeroByte,
    /// Memory ran out.
    Memory,
}

impl PatternError {
    /// The number of the refusal: 1 to 11, or 99 where memory ran out.
    pub fn number(self) -> u8
        ensures { result ≡ number_of self }
    {
        match self {
            PatternError::NotAbsolute => 1,
            PatternError::UnclosedClass => 2,
            PatternError::EmptyClass => 3,
            PatternError::BadRange => 4,
            PatternError::UnclosedGroup => 5,
            PatternError::StrayClose => 6,
            PatternError::FewAlternatives => 7,
            PatternError::BadEscape => 8,
            PatternError::TooLong => 9,
            PatternError::TooDeep => 10,
            PatternError::ZeroByte => 11,
            PatternError::Memory => 99,
        }
    }

    /// The name of the refusal, in ASCII letters.
    pub fn name(self) -> &'static str
        ensures { result.now ≡ name_of self }
    {
        match self {
            PatternError::NotAbsolute => "NotAbsolute",
            PatternError::UnclosedClass => "UnclosedClass",
            PatternError::EmptyClass => "EmptyClass",
            PatternError::BadRange => "BadRange",
            PatternError::UnclosedGroup => "UnclosedGroup",
            PatternError::StrayClose => "StrayClose",
            PatternError::FewAlternatives => "FewAlternatives",
            PatternError::BadEscape => "BadEscape",
            PatternError::TooLong => "TooLong",
            PatternError::TooDeep => "TooDeep",
            PatternError::ZeroByte => "ZeroByte",
            PatternError::Memory => "Memory",
        }
    }

    /// What is wrong, in words for users.
    pub fn words(self) -> &'static str
        ensures { result.now ≡ words_of self }
    {
        match self {
            PatternError::NotAbsolute => "the pattern doesn't begin with a slash",
            PatternError::UnclosedClass => "a class of the pattern isn't closed",
            PatternError::EmptyClass => "a class of the pattern lists no byte",
            PatternError::BadRange => "a range of the pattern ends before it begins",
            PatternError::UnclosedGroup => "a group of the pattern isn't closed",
            PatternError::StrayClose => "a brace of the pattern closes no group",
            PatternError::FewAlternatives => "a group of the pattern has one alternative alone",
            PatternError::BadEscape =>
                "a backslash of the pattern stands before a letter, a digit or the end",
            PatternError::TooLong => "the pattern is longer than 4,096 bytes",
            PatternError::TooDeep => "the groups of the pattern are nested too deep",
            PatternError::ZeroByte => "the pattern holds a zero byte",
            PatternError::Memory => "no memory is left",
        }
    }
}

// In words, as `words` has them.
impl Display for PatternError {
    ghost use Rattle.std.specs.Prelude.{Some};
    ghost use Rattle.aa_glob_syntax.specs.PatternError.{words_of};

    ghost output = { λ refusal. Some (words_of refusal) };

    fn fmt<W: Write>(&self, f: &mut Formatter<W>) -> fmt::Result {
        f.write_str(self.words())
    }
}

impl Error for PatternError {}

impl From<AllocError> for PatternError {
    ghost from_gives = { λ _ refusal. refusal ≡ Memory };

    fn from(_: AllocError) -> Self {
        PatternError::Memory
    }
}

impl<T: Drop> From<AllocFailed<T>> for PatternError {
    ghost from_gives = { λ _ refusal. refusal ≡ Memory };

    fn from(_: AllocFailed<T>) -> Self {
        PatternError::Memory
    }
}
