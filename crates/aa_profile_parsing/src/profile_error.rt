//! Why a profile's file is refused, and where.

ghost use Rattle.std.specs.Prelude.{◌≡◌};
ghost use Rattle.aa_profile_parsing.specs.ProfileError.{name_of, number_of, placed, plain};
ghost use Rattle.aa_profile_parsing.specs.declared.profile_error.ProfileRefusal.TheVariants.{Memory};

use crate::fault::GrammarRefusal;
use crate::grammar_error::GrammarError;
use aa_glob_syntax::PatternError;
use aa_text_files::{Place, TextError, TextRefusal, write_error};
use std::alloc::{AllocError, AllocFailed};
use std::error::Error;
use std::fmt::{self, Display, Formatter, Write};

/// What is wrong with a profile's file. `docs/commands.md` has the table of numbers and names.
#[derive(Clone, Copy, Debug, PartialEq, Eq)]
pub enum ProfileRefusal {
    /// A pattern of the file is refused, and why.
    Pattern(PatternError),
    /// The file's text or one of its variables is refused.
    Text(TextRefusal),
    /// The file's grammar is refused.
    Grammar(GrammarRefusal),
    /// A file has more than 16,384 rules, each expansion of a pattern counted.
    TooManyRules,
    /// The exec rules of a profile, child or hat have more than 8,192 states, which are the different beginnings of their patterns (language 4).
    ManyStates,
    /// Two rules lead a program of one path to different profiles.
    ExecConflict,
    /// Memory ran out, at whatever layer: none of the refusals above is that of memory where it was made by `from`.
    Memory,
}

/// Why a profile's file is refused, and where.
#[derive(Clone, Copy, Debug, PartialEq, Eq)]
pub struct ProfileError {
    /// What is wrong.
    pub refusal: ProfileRefusal,
    /// The place of the fault, if it has one in a file.
    pub place: Option<Place>,
}

/// A refusal without a place.
pub fn plain(refusal: ProfileRefusal) -> ProfileError
    ensures { result ≡ plain refusal }
{
    ProfileError {
        refusal,
        place: None,
    }
}

/// A refusal at a place. `Memory` has none.
pub fn placed(refusal: ProfileRefusal, place: Place) -> ProfileError
    ensures { result ≡ placed refusal place }
{
    if refusal == ProfileRefusal::Memory {
        return plain(refusal);
    }
    ProfileError {
        refusal,
        place: Some(place),
    }
}

impl ProfileRefusal {
    /// The number of the refusal: 1 to 10, 20 to 30, 40 to 55, 72, 73, or 99.
    pub fn number(self) -> u8
        ensures { result ≡ number_of self }
    {
        match self {
            ProfileRefusal::Pattern(error) => error.number(),
            ProfileRefusal::Text(refusal) => refusal.number(),
            ProfileRefusal::Grammar(refusal) => refusal.number(),
            ProfileRefusal::TooManyRules => 30,
            ProfileRefusal::ManyStates => 73,
            ProfileRefusal::ExecConflict => 55,
            ProfileRefusal::Memory => 99,
        }
    }

    /// The name of the refusal, as the variant is written in its layer.
    pub fn name(self) -> &'static str
        ensures { result.now ≡ name_of self }
    {
        match self {
            ProfileRefusal::Pattern(error) => error.name(),
            ProfileRefusal::Text(refusal) => refusal.name(),
            ProfileRefusal::Grammar(refusal) => refusal.name(),
            ProfileRefusal::TooManyRules => "TooManyRules",
            ProfileRefusal::ManyStates => "ManyStates",
            ProfileRefusal::ExecConflict => "ExecConflict",
            ProfileRefusal::Memory => "Memory",
        }
    }
}

impl ProfileError {
    /// The number of its refusal.
    pub fn number(self) -> u8
        ensures { result ≡ number_of self.refusal }
    {
        self.refusal.number()
    }

    /// The name of its refusal.
    pub fn name(self) -> &'static str
        ensures { result.now ≡ name_of self.refusal }
    {
        self.refusal.name()
    }
}

// Its name, which `docs/commands.md` explains.
impl Display for ProfileRefusal {
    ghost use Rattle.std.specs.Prelude.{Some};

    ghost output = { λ refusal. Some (name_of refusal) };

    fn fmt<W: Write>(&self, f: &mut Formatter<W>) -> fmt::Result {
        f.write_str(self.name())
    }
}

impl Display for ProfileError {
    ghost use Rattle.std.specs.Prelude.{Some};
    ghost use Rattle.aa_text_files.specs.TextError.{error_text};

    ghost output = { λ error. Some (error_text (number_of error.refusal) (name_of error.refusal) error.place) };

    fn fmt<W: Write>(&self, f: &mut Formatter<W>) -> fmt::Result {
        write_error(f, self.number(), self.name(), self.place)
    }
}

impl Error for ProfileError {}

impl From<PatternError> for ProfileRefusal {
    ghost use Rattle.aa_profile_parsing.specs.ProfileError.{refusal_of_pattern};

    ghost from_gives = { λ error refusal. refusal ≡ refusal_of_pattern error };

    fn from(error: PatternError) -> Self {
        match error {
            PatternError::Memory => ProfileRefusal::Memory,
            // No file that is read holds a zero byte.
            PatternError::ZeroByte => ProfileRefusal::Text(TextRefusal::ZeroByte),
            other => ProfileRefusal::Pattern(other),
        }
    }
}

impl From<TextRefusal> for ProfileRefusal {
    ghost use Rattle.aa_profile_parsing.specs.ProfileError.{refusal_of_text};

    ghost from_gives = { λ text refusal. refusal ≡ refusal_of_text text };

    fn from(refusal: TextRefusal) -> Self {
        match refusal {
            TextRefusal::Memory => ProfileRefusal::Memory,
            other => ProfileRefusal::Text(other),
        }
    }
}

impl From<TextError> for ProfileError {
    ghost use Rattle.aa_profile_parsing.specs.ProfileError.{error_of_text};

    ghost from_gives = { λ error told. told ≡ error_of_text error };

    fn from(error: TextError) -> Self {
        ProfileError {
            refusal: ProfileRefusal::from(error.refusal),
            place: error.place,
        }
    }
}

impl From<GrammarRefusal> for ProfileRefusal {
    ghost use Rattle.aa_profile_parsing.specs.ProfileError.{refusal_of_grammar};

    ghost from_gives = { λ grammar refusal. refusal ≡ refusal_of_grammar grammar };

    fn from(refusal: GrammarRefusal) -> Self {
        match refusal {
            GrammarRefusal::Memory => ProfileRefusal::Memory,
            other => ProfileRefusal::Grammar(other),
        }
    }
}

impl From<GrammarError> for ProfileError {
    ghost use Rattle.aa_profile_parsing.specs.ProfileError.{error_of_grammar};

    ghost from_gives = { λ error told. told ≡ error_of_grammar error };

    fn from(error: GrammarError) -> Self {
        ProfileError {
            refusal: ProfileRefusal::from(error.refusal),
            place: error.place,
        }
    }
}

impl From<AllocError> for ProfileError {
    ghost from_gives = { λ _ refusal. refusal ≡ plain Memory };

    fn from(_: AllocError) -> Self {
        plain(ProfileRefusal::Memory)
    }
}

impl<T: Drop> From<AllocFailed<T>> for ProfileError {
    ghost from_gives = { λ _ refusal. refusal ≡ plain Memory };

    fn from(_: AllocFailed<T>) -> Self {
        plain(ProfileRefusal::Memory)
    }
}
