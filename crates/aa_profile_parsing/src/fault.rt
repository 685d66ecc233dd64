//! Why a part of a file's grammar can't be read.

ghost use Rattle.std.specs.Prelude.{◌≡◌};
ghost use Rattle.aa_text_tokens.specs.SeenSplicedTokens.{seen_spliced};
ghost use Rattle.aa_profile_parsing.specs.GrammarRefusal.{name_of, number_of};
ghost use Rattle.aa_profile_parsing.specs.Tokens.{place_of};
ghost use Rattle.aa_profile_parsing.specs.declared.fault.Fault.TheVariants.{At, Memory};

use crate::token::place_of;
use aa_text_files::Place;
use aa_text_tokens::Spliced;
use std::alloc::{AllocError, AllocFailed};

/// What is wrong in the grammar of a file.
#[derive(Clone, Copy, Debug, PartialEq, Eq)]
pub enum GrammarRefusal {
    /// A token that the grammar doesn't take at its place.
    BadToken,
    /// A block that isn't closed.
    OpenBlock,
    /// A flag that isn't known, or two different modes.
    BadFlag,
    /// An access with something that is neither an access letter nor an exec word.
    BadAccess,
    /// The letters `w` and `a` in one access.
    WriteAppend,
    /// Two different exec words in one access, where a bare `x` counts as one.
    TwoExec,
    /// An exec word in a deny rule, or a bare `x` in another.
    ExecQualifier,
    /// A target in a rule that may have none.
    TargetWithoutExec,
    /// A word of a capability rule that is no capability.
    BadCapability,
    /// A word of a network rule that is no domain, type or protocol, or that may not come there.
    BadNetwork,
    /// A second profile of a name, or a second child or hat of a name in one profile.
    TwiceNamed,
    /// A child within a child.
    NestedChild,
    /// An assignment after a profile.
    LateAssignment,
    /// A file without a profile.
    NoProfile,
    /// A name that a profile, child, hat or target may not have.
    BadName,
    /// Something that AppArmor has and isn't read here.
    LeftOut,
    /// Memory ran out.
    Memory,
}

impl GrammarRefusal {
    /// The number of the refusal: 40 to 54, 72, or 99.
    pub fn number(self) -> u8
        ensures { result ≡ number_of self }
    {
        match self {
            GrammarRefusal::BadToken => 40,
            GrammarRefusal::OpenBlock => 41,
            GrammarRefusal::BadFlag => 42,
            GrammarRefusal::BadAccess => 43,
            GrammarRefusal::WriteAppend => 44,
            GrammarRefusal::TwoExec => 45,
            GrammarRefusal::ExecQualifier => 46,
            GrammarRefusal::TargetWithoutExec => 47,
            GrammarRefusal::BadCapability => 48,
            GrammarRefusal::BadNetwork => 49,
            GrammarRefusal::TwiceNamed => 50,
            GrammarRefusal::NestedChild => 51,
            GrammarRefusal::LateAssignment => 52,
            GrammarRefusal::NoProfile => 53,
            GrammarRefusal::BadName => 54,
            GrammarRefusal::LeftOut => 72,
            GrammarRefusal::Memory => 99,
        }
    }

    /// The name of the refusal, as the variant is written.
    pub fn name(self) -> &'static str
        ensures { result.now ≡ name_of self }
    {
        match self {
            GrammarRefusal::BadToken => "BadToken",
            GrammarRefusal::OpenBlock => "OpenBlock",
            GrammarRefusal::BadFlag => "BadFlag",
            GrammarRefusal::BadAccess => "BadAccess",
            GrammarRefusal::WriteAppend => "WriteAppend",
            GrammarRefusal::TwoExec => "TwoExec",
            GrammarRefusal::ExecQualifier => "ExecQualifier",
            GrammarRefusal::TargetWithoutExec => "TargetWithoutExec",
            GrammarRefusal::BadCapability => "BadCapability",
            GrammarRefusal::BadNetwork => "BadNetwork",
            GrammarRefusal::TwiceNamed => "TwiceNamed",
            GrammarRefusal::NestedChild => "NestedChild",
            GrammarRefusal::LateAssignment => "LateAssignment",
            GrammarRefusal::NoProfile => "NoProfile",
            GrammarRefusal::BadName => "BadName",
            GrammarRefusal::LeftOut => "LeftOut",
            GrammarRefusal::Memory => "Memory",
        }
    }
}

/// Why a part of a file can't be read.
#[derive(Clone, Copy, Debug, PartialEq, Eq)]
pub enum Fault {
    /// A refusal, at the first token, from the left, that the grammar doesn't take at its place.
    At {
        /// What is wrong.
        refusal: GrammarRefusal,
        /// The place where that token begins.
        place: Place,
    },
    /// The tokens ran out within the part.
    RanOut,
    /// Memory ran out.
    Memory,
}

/// A refusal at a token.
pub fn refusal_at(refusal: GrammarRefusal, token: Spliced<'_>) -> Fault
    ensures { result ≡ At refusal (place_of (seen_spliced token.entry)) }
{
    Fault::At {
        refusal,
        place: place_of(token),
    }
}

impl From<AllocError> for Fault {
    ghost from_gives = { λ _ fault. fault ≡ Memory };

    fn from(_: AllocError) -> Self {
        Fault::Memory
    }
}

impl<T: Drop> From<AllocFailed<T>> for Fault {
    ghost from_gives = { λ _ fault. fault ≡ Memory };

    fn from(_: AllocFailed<T>) -> Self {
        Fault::Memory
    }
}
