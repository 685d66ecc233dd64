//! The answers of a policy set.

ghost use Rattle.std.specs.Prelude.{◌≡◌, IfOk};
ghost use Rattle.aa_set_commands.specs.Question.{IsWellFormed, seen_question};
ghost use Rattle.aatry_diff.specs.Answers.{answer};

use aa_bytes::Sequence;
use aa_set_commands::{Question, RefusalKind};
use aa_set_manager::Manager;
use std::alloc::{AllocError, Global};

/// The answer of a policy set to a question, as it is printed, or `absent` where the asker doesn't exist. What the policy set remembers of the
/// question doesn't change its answers.
///
/// # Errors
///
/// Where memory runs out.
pub fn answer(
    alloc: Global,
    manager: &mut Manager,
    question: &Question<'_>,
) -> Result<Sequence<u8>, AllocError>
    requires { IsWellFormed question.now }
    ensures value { IfOk result (λ text. text ≡ answer manager.old.machine.now (seen_question question.entry.now)) }
    ensures unchanged { manager.new ≡ manager.old }
{
    match manager.answer(question) {
        Ok(told) => Ok(told.text),
        Err(refusal) if refusal.refusal == RefusalKind::Memory => Err(AllocError),
        Err(_) => Ok(Sequence::from_vec(Vec::from_slice(alloc, b"absent")?)),
    }
}
