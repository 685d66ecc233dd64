//! A question to a policy, and the answer for each asker.

ghost use Rattle.std.specs.Prelude.{◌≡◌, IfErr, IfOk, Ok};
ghost use Rattle.aa_decide_ready.specs.Slots.{filled};
ghost use Rattle.aa_explain.specs.Leads.{seen_destination};
ghost use Rattle.aa_set_commands.specs.Refusal.{IsRefusalOf};
ghost use Rattle.aatry_who.specs.Sought.{answer_to, led, seen_sought, started_by};

use aa_decide::{Answer, ExecTo, IndexedSlots, exec_by};
use aa_set_answers::{Answered, access_answer, exec_answer, find_asker};
use aa_set_commands::{Question, Refusal};
use aatry_policy::FolderParts;
use aatry_requests::rule_request;
use std::alloc::{AllocError, Global};

/// A question, whose asker is no one in particular, and the policy of a folder.
#[derive(Drop)]
pub struct Sought<'a> {
    /// The profiles, children and hats of the folder, with where their rules are written.
    pub folder: &'a FolderParts<'a>,
    /// The slots of its policy set.
    pub slots: IndexedSlots<'a>,
    /// The question.
    pub question: &'a Question<'a>,
}

/// The answer to the question with this full name as the asker.
///
/// # Errors
///
/// `Absent` where nothing of the name is loaded, and `Memory` where memory ran out.
pub fn answer_to(alloc: Global, sought: &Sought<'_>, name: &[u8]) -> Result<Answered, Refusal>
    ensures answered { IfOk result (λ told. answer_to (seen_sought sought.now) name.now ≡ Ok told) }
    ensures refused { IfErr result (IsRefusalOf (answer_to (seen_sought sought.now) name.now)) }
{
    match sought.question {
        Question::Exec { owned, path, .. } => {
            exec_answer(alloc, &sought.slots, name, *owned, path)
        }
        _ => access_answer(alloc, &sought.slots, name, &rule_request(sought.question)),
    }
}

// Under which profile the program of a path runs that a full name starts, if that is loaded.
fn started_by<'a>(
    alloc: Global,
    slots: &IndexedSlots<'a>,
    name: &[u8],
    owned: bool,
    path: &[u8],
) -> Result<Option<ExecTo<'a>>, AllocError>
    ensures { IfOk result (λ to. seen_destination slots.now to ≡ started_by (filled slots.now) name.now owned path.now) }
{
    match find_asker(slots, name) {
        None => Ok(None),
        Some(asker) => Ok(Some(exec_by(alloc, slots, asker, owned, path)?.to)),
    }
}

/// Under which profile the program runs that a full name starts, where the question is about the start of a program and its answer is that it is
/// allowed.
///
/// # Errors
///
/// Where memory runs out.
pub fn led<'a>(
    alloc: Global,
    sought: &Sought<'a>,
    name: &[u8],
    answer: Option<Answer>,
) -> Result<Option<ExecTo<'a>>, AllocError>
    ensures { IfOk result (λ to. seen_destination sought.now.slots to ≡ led (seen_sought sought.now) name.now answer) }
{
    match (sought.question, answer) {
        (Question::Exec { owned, path, .. }, Some(Answer::Allow)) => {
            started_by(alloc, &sought.slots, name, *owned, path)
        }
        _ => Ok(None),
    }
}
