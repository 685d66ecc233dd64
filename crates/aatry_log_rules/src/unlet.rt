//! Requests for which there is no rule to add, as they are printed.

ghost use Rattle.std.specs.Prelude.{◌≡◌, ◌++◌, OnOk};
ghost use Rattle.aa_set_commands.specs.Question.{seen_question};
ghost use Rattle.aatry_log_rules.specs.SeenWanted.{seen_wanted};
ghost use Rattle.aatry_log_rules.specs.Unlet.{file_question, no_rule_told, question_of, reason_words, unlet_text};

use crate::finding::NoRule;
use crate::wanted::Wanted;
use aa_profile_data::{Perms, Request};
use aa_set_commands::Question;
use aatry_report::{Field, Teller, tell};
use aatry_requests::push_question;
use std::alloc::AllocError;

// The words that say why there is no rule.
fn reason_words(reason: NoRule) -> &'static str
    ensures { result.now ≡ reason_words reason }
{
    match reason {
        NoRule::Denied => "a rule denies it",
        NoRule::InTheWay => "a rule is in the way",
        NoRule::Unwritten => "its rule can't be written",
    }
}

// The question for a file: with `x` alone whether its program may be started.
fn file_question<'t>(who: &'t [u8], needs: Perms, owned: bool, path: &'t [u8]) -> Question<'t>
    ensures { seen_question result ≡ file_question who.now needs.0 owned path.now }
{
    if needs == Perms::EXEC {
        return Question::Exec { who, owned, path };
    }
    Question::File {
        who,
        needs,
        owned,
        path,
    }
}

/// The question of a wanted request.
pub fn question_of<'t>(wanted: &Wanted<'t>) -> Question<'t>
    ensures { seen_question result ≡ question_of (seen_wanted wanted.now) }
{
    let who = wanted.who;
    match wanted.request {
        Request::File { needs, owned, path } => file_question(who, needs, owned, path),
        Request::Cap(number) => Question::Cap { who, number },
        Request::Net { domain, kind } => Question::Net { who, domain, kind },
    }
}

// Appends a question for which there is no rule to add to a text, by the reason, in words, and how often it was asked.
#[tactic(auto, unfolding(crate::specs::Unlet::no_rule_told))]
fn push_no_rule<'x>(
    teller: Teller,
    reason: &'x str,
    question: &'x [u8],
    times: usize,
    out: &mut Vec<u8>,
) -> Result<(), AllocError>
    ensures { OnOk result (out.new.items ≡ out.old.items ++ no_rule_told teller.form reason.now question.now times) }
{
    tell(
        teller,
        "no_rule",
        &[
            Field::Words("# "),
            Field::Word("reason", reason),
            Field::Words(": "),
            Field::Plain("question", question),
            Field::Words(", asked "),
            Field::Times("times", times),
        ],
        out,
    )
}

/// Appends a question for which there is no rule to add to a text, with the reason, and how often it was asked: a comment, or a record of the kind
/// `no_rule`, with the texts `question` and `reason` and the number `times`.
///
/// # Errors
///
/// Where memory runs out. A beginning may have been appended then.
pub fn push_unlet(
    teller: Teller,
    reason: NoRule,
    question: &Question<'_>,
    times: u64,
    out: &mut Vec<u8>,
) -> Result<(), AllocError>
    ensures { OnOk result (out.new.items ≡ out.old.items ++ unlet_text teller.form reason (seen_question question.entry.now) times) }
{
    let mut text = Vec::new(teller.alloc);
    push_question(&mut text, question)?;
    push_no_rule(teller, reason_words(reason), &text, times as usize, out)
}
