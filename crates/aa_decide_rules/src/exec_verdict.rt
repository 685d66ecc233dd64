//! The answer to the start of a program, as plain data.

use crate::verdict::Verdict;

/// The base of a stack.
#[derive(Clone, Copy, Debug, PartialEq, Eq)]
pub enum StackBase {
    /// A profile in force, or a child or hat of it.
    Profile {
        /// The profile's slot.
        slot: usize,
        /// The index of the child or hat among its children; `None` where it is the profile itself.
        child: Option<usize>,
    },
    /// No profile.
    Unconfined,
}

/// Under which profile a program runs that is started.
#[derive(Clone, Copy, Debug, PartialEq, Eq)]
pub enum ExecTo<'a> {
    /// Under a profile in force, or a child or hat of it.
    Profile {
        /// The profile's slot.
        slot: usize,
        /// The index of the child or hat among its children; `None` where it is the profile itself.
        child: Option<usize>,
    },
    /// Under no profile.
    Unconfined,
    /// Under several profiles at once: a stack.
    Stack {
        /// Its base, if it has one.
        base: Option<StackBase>,
        /// The full names of its other members, as a target names them, with `//&` between them (`first_member` of `aa_profile_data`).
        members: &'a [u8],
    },
    /// The start is let through in complain mode alone, with the answer `Complain`.
    Null,
    /// The program isn't started: the answer is `Deny` or `Refuse`.
    Nowhere,
}

/// The answer to the start of a program.
#[derive(Clone, Copy, Debug)]
pub struct ExecVerdict<'a> {
    /// The answer, and how it is logged; the mask is `x`.
    pub verdict: Verdict,
    /// Under which profile the program runs.
    pub to: ExecTo<'a>,
    /// Whether its environment is scrubbed.
    pub scrub: bool,
}
