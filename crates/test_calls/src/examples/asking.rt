//! What a policy set answers a question.

use aa_set::{Manager, Question, Refusal};

/// The reply to whether the profile `web` lets a file of another owner be written: the answer, and below it the
/// line that logs it, if it is logged.
pub fn write_reply(manager: &Manager, path: &[u8]) -> Result<Vec<u8>, Refusal> {
    let question = Question::read(&[b"file", b"web", b"w", b"other", path])?;
    manager.ask(&question)
}
