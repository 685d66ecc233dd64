//! Questions by their askers, and by the requests that they make of rules.

ghost use Rattle.std.specs.Prelude.{◌≡◌};
ghost use Rattle.aa_profile_data.specs.SeenRequests.{request_of};
ghost use Rattle.aa_set_answers.specs.Answers.{who_asks};
ghost use Rattle.aa_set_commands.specs.Question.{seen_question};
ghost use Rattle.aatry_requests.specs.Questions.{rule_request};

use aa_profile_data::{Perms, Request};
use aa_set_commands::Question;

/// The request that a question makes of rules: for the start of a program, whether it may be started at all.
pub fn rule_request<'a>(question: &Question<'a>) -> Request<'a>
    ensures { request_of result ≡ rule_request (seen_question question.entry.now) }
{
    match question {
        Question::File {
            needs,
            owned,
            path,
            ..
        } => Request::File {
            needs: *needs,
            owned: *owned,
            path,
        },
        Question::Exec { owned, path, .. } => Request::File {
            needs: Perms::EXEC,
            owned: *owned,
            path,
        },
        Question::Cap { number, .. } => Request::Cap(*number),
        Question::Net { domain, kind, .. } => Request::Net {
            domain: *domain,
            kind: *kind,
        },
    }
}

/// The asker of a question.
pub fn who_asks<'a>(question: &Question<'a>) -> &'a [u8]
    ensures { result.now ≡ who_asks (seen_question question.entry.now) }
{
    match question {
        Question::File { who, .. } => who,
        Question::Exec { who, .. } => who,
        Question::Cap { who, .. } => who,
        Question::Net { who, .. } => who,
    }
}
