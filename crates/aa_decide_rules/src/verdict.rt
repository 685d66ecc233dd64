//! The answer to a request, and how it is logged, as plain data.

ghost use Rattle.std.specs.Prelude.{◌≡◌};
ghost use Rattle.aa_decide_rules.specs.Answer.{answer_word};

use aa_profile_data::Perms;

/// The answer to a request, by a word of its own in the reply.
#[derive(Clone, Copy, Debug, PartialEq, Eq)]
pub enum Answer {
    /// The rules allow each need, and deny none.
    Allow,
    /// A rule denies some need, in any mode.
    Deny,
    /// Some need is neither allowed nor denied, in enforce mode.
    Refuse,
    /// Some need is neither allowed nor denied, in complain mode, where it is allowed.
    Complain,
}

impl Answer {
    /// The word for it in replies, in ASCII letters.
    pub fn word(self) -> &'static str
        ensures { result.now ≡ answer_word self }
    {
        match self {
            Answer::Allow => "allow",
            Answer::Deny => "deny",
            Answer::Refuse => "refuse",
            Answer::Complain => "complain",
        }
    }
}

/// The word with which the audit line of an answer begins.
#[derive(Clone, Copy, Debug, PartialEq, Eq)]
pub enum Tag {
    /// The request was denied or refused.
    Denied,
    /// The request was let through in complain mode alone.
    Allowed,
    /// The request was allowed by rules that are audited.
    Audit,
}

/// The answer to a request, and how it is logged.
#[derive(Clone, Copy, Debug)]
pub struct Verdict {
    /// The answer.
    pub answer: Answer,
    /// The word with which its audit line begins; `None` where it isn't logged.
    pub tag: Option<Tag>,
    /// The letters in the audit line; none for a request that isn't for a file.
    pub mask: Perms,
}
