//! How an answer changes.

ghost use Rattle.std.specs.Prelude.{◌≡◌};
ghost use Rattle.aa_explain_changes.specs.Changes.{change_between, is_change, same_answer, same_log, same_or, same_tag};

use aa_decide_rules::{Answer, Tag, Verdict};
use bitflags::Flags;

/// How the answer to a letter of a file changes.
#[derive(Clone, Copy)]
pub enum Change {
    /// The answer doesn't change.
    Same,
    /// The letter is allowed now.
    Gained,
    /// The letter isn't allowed any more.
    Lost,
    /// The letter is allowed before and now, or neither: it is logged differently, or denied where it was refused, or the reverse.
    Otherwise,
}

/// The answers of both sides of a change of rules to a request.
#[derive(Clone, Copy)]
pub struct Answers {
    /// The answer before.
    pub old: Verdict,
    /// The answer now.
    pub new: Verdict,
}

impl Change {
    /// Whether the answer changes. It takes no memory.
    pub fn is_change(self) -> bool
        ensures { result ≡ is_change self }
    {
        match self {
            Change::Same => false,
            Change::Gained | Change::Lost | Change::Otherwise => true,
        }
    }
}

// Whether two answers are the same.
fn same_answer(one: Answer, other: Answer) -> bool
    ensures { result ≡ same_answer one other }
{
    match (one, other) {
        (Answer::Allow, Answer::Allow) => true,
        (Answer::Deny, Answer::Deny) => true,
        (Answer::Refuse, Answer::Refuse) => true,
        (Answer::Complain, Answer::Complain) => true,
        _ => false,
    }
}

// Whether the audit lines of two answers begin alike, or neither has one.
fn same_tag(one: Option<Tag>, other: Option<Tag>) -> bool
    ensures { result ≡ same_tag one other }
{
    match (one, other) {
        (None, None) => true,
        (Some(Tag::Denied), Some(Tag::Denied)) => true,
        (Some(Tag::Allowed), Some(Tag::Allowed)) => true,
        (Some(Tag::Audit), Some(Tag::Audit)) => true,
        _ => false,
    }
}

// Whether two answers are logged alike.
fn same_log(one: Verdict, other: Verdict) -> bool
    ensures { result ≡ same_log one other }
{
    same_tag(one.tag, other.tag) && one.mask.bits() == other.mask.bits()
}

// No change, where two equal answers are logged alike, or it doesn't matter how they are logged.
fn same_or(quiet: bool, one: Verdict, other: Verdict) -> Change
    ensures { result ≡ same_or quiet one other }
{
    if quiet || same_log(one, other) {
        Change::Same
    } else {
        Change::Otherwise
    }
}

/// How one answer changes into another; `quiet` says whether it doesn't matter how they are logged. It takes no memory.
pub fn change_between(quiet: bool, old: Verdict, new: Verdict) -> Change
    ensures { result ≡ change_between quiet old new }
{
    match (old.answer, new.answer) {
        (Answer::Allow, Answer::Allow) => same_or(quiet, old, new),
        (Answer::Allow, _) => Change::Lost,
        (_, Answer::Allow) => Change::Gained,
        (one, other) => {
            if same_answer(one, other) {
                same_or(quiet, old, new)
            } else {
                Change::Otherwise
            }
        }
    }
}
