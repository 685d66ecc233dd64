//! The first fault of a file's grammar, as callers see it.

ghost use Rattle.std.specs.Prelude.{◌≡◌};

use crate::fault::{Fault, GrammarRefusal};
use aa_text_files::{Place, write_error};
use std::error::Error;
use std::fmt::{self, Display, Formatter, Write};

/// The first fault of a file's grammar.
#[derive(Clone, Copy, Debug, PartialEq, Eq)]
pub struct GrammarError {
    /// What is wrong.
    pub refusal: GrammarRefusal,
    /// The place of the token at which it is reported; `None` where the tokens ran out outside of a block, where the file has no profile, and where
    /// memory ran out.
    pub place: Option<Place>,
}

impl Display for GrammarError {
    ghost use Rattle.std.specs.Prelude.{Some};
    ghost use Rattle.aa_text_files.specs.TextError.{error_text};
    ghost use Rattle.aa_profile_parsing.specs.GrammarRefusal.{name_of, number_of};

    ghost output = { λ error. Some (error_text (number_of error.refusal) (name_of error.refusal) error.place) };

    fn fmt<W: Write>(&self, f: &mut Formatter<W>) -> fmt::Result {
        write_error(f, self.refusal.number(), self.refusal.name(), self.place)
    }
}

impl Error for GrammarError {}

// The error for a fault.
impl From<Fault> for GrammarError {
    ghost use Rattle.aa_profile_parsing.specs.GrammarError.{told};

    ghost from_gives = { λ fault error. error ≡ told fault };

    fn from(fault: Fault) -> GrammarError {
        match fault {
            Fault::At { refusal, place } => GrammarError {
                refusal,
                place: Some(place),
            },
            Fault::RanOut => GrammarError {
                refusal: GrammarRefusal::BadToken,
                place: None,
            },
            Fault::Memory => GrammarError {
                refusal: GrammarRefusal::Memory,
                place: None,
            },
        }
    }
}
