//! Why a command is refused.

ghost use Rattle.std.specs.Prelude.{◌≡◌};
ghost use Rattle.aa_set_commands.specs.Refusal.{name_of, number_of, plain, refusal_of_profile};
ghost use Rattle.aa_set_commands.specs.declared.refusal.RefusalKind.TheVariants.{Memory};

use aa_profile_parsing::{ProfileError, ProfileRefusal};
use aa_text_files::{Place, write_error};
use std::alloc::{AllocError, AllocFailed};
use std::error::Error;
use std::fmt::{self, Display, Formatter, Write};

/// What is wrong with a command, a question or a file. `docs/commands.md` has the table of numbers and names.
#[derive(Clone, Copy, Debug, PartialEq, Eq)]
pub enum RefusalKind {
    /// A file that the command names is refused, and why.
    File(ProfileRefusal),
    /// A profile of the name is loaded already.
    Exists,
    /// No profile, child or hat of the name is loaded.
    Absent,
    /// A profile of the name is disabled.
    Disabled,
    /// Fewer changes can be undone than were asked for.
    NothingToUndo,
    /// Fewer changes can be redone than were asked for.
    NothingToRedo,
    /// The line is no command.
    BadCommand,
    /// The line is longer than 65,536 bytes.
    LineTooLong,
    /// The access letters, the owner's word or the path of a question aren't valid, or a mark can't have its name.
    BadRequest,
    /// No policy set is marked by the name.
    NoMark,
    /// Memory ran out, with a file or without one: no `File` is that of memory where it was made by `from`.
    Memory,
}

/// Why a command or a question is refused. After a refusal the policy set and its history are unchanged.
#[derive(Clone, Copy, Debug, PartialEq, Eq)]
pub struct Refusal {
    /// What is wrong.
    pub refusal: RefusalKind,
    /// The place of the fault, if it is in a file and has one there.
    pub place: Option<Place>,
}

/// A refusal without a place.
pub fn plain(refusal: RefusalKind) -> Refusal
    ensures { result ≡ plain refusal }
{
    Refusal {
        refusal,
        place: None,
    }
}

impl RefusalKind {
    /// The number in replies, 1 to 99.
    pub fn number(self) -> u8
        ensures { result ≡ number_of self }
    {
        match self {
            RefusalKind::File(refusal) => refusal.number(),
            RefusalKind::Exists => 60,
            RefusalKind::Absent => 61,
            RefusalKind::Disabled => 62,
            RefusalKind::NothingToUndo => 63,
            RefusalKind::NothingToRedo => 64,
            RefusalKind::BadCommand => 65,
            RefusalKind::LineTooLong => 66,
            RefusalKind::BadRequest => 67,
            RefusalKind::NoMark => 68,
            RefusalKind::Memory => 99,
        }
    }

    /// The name in replies, in ASCII letters.
    pub fn name(self) -> &'static str
        ensures { result.now ≡ name_of self }
    {
        match self {
            RefusalKind::File(refusal) => refusal.name(),
            RefusalKind::Exists => "Exists",
            RefusalKind::Absent => "Absent",
            RefusalKind::Disabled => "Disabled",
            RefusalKind::NothingToUndo => "NothingToUndo",
            RefusalKind::NothingToRedo => "NothingToRedo",
            RefusalKind::BadCommand => "BadCommand",
            RefusalKind::LineTooLong => "LineTooLong",
            RefusalKind::BadRequest => "BadRequest",
            RefusalKind::NoMark => "NoMark",
            RefusalKind::Memory => "Memory",
        }
    }
}

impl Refusal {
    /// The number of what is wrong.
    pub fn number(self) -> u8
        ensures { result ≡ number_of self.refusal }
    {
        self.refusal.number()
    }

    /// The name of what is wrong.
    pub fn name(self) -> &'static str
        ensures { result.now ≡ name_of self.refusal }
    {
        self.refusal.name()
    }
}

// Its name, which `docs/commands.md` explains.
impl Display for RefusalKind {
    ghost use Rattle.std.specs.Prelude.{Some};

    ghost output = { λ kind. Some (name_of kind) };

    fn fmt<W: Write>(&self, f: &mut Formatter<W>) -> fmt::Result {
        f.write_str(self.name())
    }
}

impl Display for Refusal {
    ghost use Rattle.std.specs.Prelude.{Some};
    ghost use Rattle.aa_text_files.specs.TextError.{error_text};

    ghost output = { λ refusal. Some (error_text (number_of refusal.refusal) (name_of refusal.refusal) refusal.place) };

    fn fmt<W: Write>(&self, f: &mut Formatter<W>) -> fmt::Result {
        write_error(f, self.number(), self.name(), self.place)
    }
}

impl Error for Refusal {}

impl From<ProfileRefusal> for RefusalKind {
    ghost use Rattle.aa_set_commands.specs.Refusal.{kind_of_profile};

    ghost from_gives = { λ refusal kind. kind ≡ kind_of_profile refusal };

    fn from(refusal: ProfileRefusal) -> Self {
        match refusal {
            ProfileRefusal::Memory => RefusalKind::Memory,
            other => RefusalKind::File(other),
        }
    }
}

impl From<ProfileError> for Refusal {
    ghost from_gives = { λ error refusal. refusal ≡ refusal_of_profile error };

    fn from(error: ProfileError) -> Self {
        Refusal {
            refusal: RefusalKind::from(error.refusal),
            place: error.place,
        }
    }
}

impl From<AllocError> for Refusal {
    ghost from_gives = { λ _ refusal. refusal ≡ plain Memory };

    fn from(_: AllocError) -> Self {
        plain(RefusalKind::Memory)
    }
}

impl<T: Drop> From<AllocFailed<T>> for Refusal {
    ghost from_gives = { λ _ refusal. refusal ≡ plain Memory };

    fn from(_: AllocFailed<T>) -> Self {
        plain(RefusalKind::Memory)
    }
}
