//! The question as which the line of a log was read.

ghost use Rattle.std.specs.Prelude.{◌≡◌, ◌++◌, OnOk, map, string_bytes};
ghost use Rattle.aa_set_commands.specs.Question.{seen_question};
ghost use Rattle.aatry_why.specs.Asks.{asked_text, asks_of, asks_text};

use aa_set_commands::Question;
use aatry_report::{Field, Teller, tell};
use aatry_requests::push_question;
use std::alloc::AllocError;

// Appends a question to a text, by its text.
#[tactic(auto, unfolding(crate::specs::Asks::asked_text))]
fn push_asked_text<'x>(teller: Teller, text: &'x [u8], out: &mut Vec<u8>) -> Result<(), AllocError>
    ensures { OnOk result (out.new.items ≡ out.old.items ++ asked_text teller.form text.now) }
{
    tell(
        teller,
        "request",
        &[Field::Words("# asks: "), Field::Plain("question", text)],
        out,
    )
}

// Appends a question to a text.
fn push_text(teller: Teller, question: &Question<'_>, out: &mut Vec<u8>) -> Result<(), AllocError>
    ensures { OnOk result (out.new.items ≡ out.old.items ++ asks_text teller.form (seen_question question.entry.now)) }
{
    let mut text = Vec::new(teller.alloc);
    push_question(&mut text, question)?;
    push_asked_text(teller, &text, out)
}

/// Appends the question of words to a text, where they are one word, the line of a log: a comment with the words in which `why` takes it, or a
/// record of the kind `request` with these as `question`.
///
/// # Errors
///
/// Where memory runs out. A beginning may have been appended then.
pub fn push_asks(
    teller: Teller,
    words: &[String],
    question: &Question<'_>,
    out: &mut Vec<u8>,
) -> Result<(), AllocError>
    ensures { OnOk result (out.new.items ≡ out.old.items
        ++ asks_of teller.form (map string_bytes words.now) (seen_question question.entry.now)) }
{
    match words {
        [_] => push_text(teller, question, out),
        _ => Ok(()),
    }
}
