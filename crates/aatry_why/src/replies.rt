//! Replies to questions, as they are reported.

ghost use Rattle.std.specs.Prelude.{◌≡◌, ◌++◌, OnOk};
ghost use Rattle.aa_set_answers.specs.Answers.{lines_of};
ghost use Rattle.aatry_why.specs.Why.{audit_line, is_lacking, refused_alone, refused_near, refused_text, reply_text};

use aa_bytes::{Sequence, length_while};
use aa_decide::Answer;
use aa_set_answers::Answered;
use aa_set_commands::Refusal;
use aatry_report::{Field, Form, Teller, tell};
use std::alloc::AllocError;

/// Whether no rule allows some of the request's needs, or nothing confines the asker.
pub fn is_lacking(answer: Option<Answer>) -> bool
    ensures { result ≡ is_lacking answer }
{
    match answer {
        None => true,
        Some(Answer::Allow | Answer::Deny) => false,
        Some(Answer::Refuse | Answer::Complain) => true,
    }
}

// The line that logs an answer, without its line feed; empty where it isn't logged.
fn audit_line(told: &Answered) -> &[u8]
    ensures { result.now ≡ audit_line told.now }
{
    let logged = told.logged.as_slice();
    &logged[..length_while(logged, |byte| byte != b'\n')]
}

// Appends the lines of the answer to a question to a text.
fn push_lines(told: &Answered, out: &mut Vec<u8>) -> Result<(), AllocError>
    ensures { OnOk result (out.new.items ≡ out.old.items ++ lines_of told.now) }
{
    out.extend_from_slice(told.text.as_slice())?;
    out.push(b'\n')?;
    out.extend_from_slice(told.logged.as_slice())
}

/// Appends the answer to a question to a text: the lines of the reply, or a record of the answer and the line that logs it.
///
/// # Errors
///
/// Where memory runs out. A beginning may have been appended then.
pub fn push_reply(teller: Teller, told: &Answered, out: &mut Vec<u8>) -> Result<(), AllocError>
    ensures { OnOk result (out.new.items ≡ out.old.items ++ reply_text teller.form told.now) }
{
    match teller.form {
        Form::Lines => push_lines(told, out),
        Form::Records => tell(
            teller,
            "answer",
            &[
                Field::Member("answer", told.text.as_slice()),
                Field::Member("audit", audit_line(told)),
            ],
            out,
        ),
    }
}

// Appends the refusal of a question to a text, by its number and its name.
#[tactic(auto, unfolding(crate::specs::Why::refused_alone))]
fn push_refused_alone<'x>(
    teller: Teller,
    number: usize,
    name: &'x str,
    out: &mut Vec<u8>,
) -> Result<(), AllocError>
    ensures { OnOk result (out.new.items ≡ out.old.items ++ refused_alone teller.form number name.now) }
{
    tell(
        teller,
        "refused",
        &[
            Field::Words("refused "),
            Field::Number("number", number),
            Field::Words(" "),
            Field::Word("refusal", name),
        ],
        out,
    )
}

// Appends the same, and below it the name that may have been meant.
#[tactic(auto, unfolding(crate::specs::Why::refused_near))]
fn push_refused_near<'x>(
    teller: Teller,
    number: usize,
    name: &'x str,
    near: &'x [u8],
    out: &mut Vec<u8>,
) -> Result<(), AllocError>
    ensures { OnOk result (out.new.items ≡ out.old.items ++ refused_near teller.form number name.now near.now) }
{
    tell(
        teller,
        "refused",
        &[
            Field::Words("refused "),
            Field::Number("number", number),
            Field::Words(" "),
            Field::Word("refusal", name),
            Field::Words("\ndid you mean "),
            Field::Quoted("near", near),
            Field::Words("?"),
        ],
        out,
    )
}

/// Appends the refusal of a question to a text, with the name that may have been meant, if there is one.
///
/// # Errors
///
/// Where memory runs out. A beginning may have been appended then.
pub fn push_refused(
    teller: Teller,
    refusal: Refusal,
    meant: &Option<Sequence<u8>>,
    out: &mut Vec<u8>,
) -> Result<(), AllocError>
    ensures { OnOk result (out.new.items ≡ out.old.items ++ refused_text teller.form refusal meant.now) }
{
    let number = refusal.number() as usize;
    match meant {
        None => push_refused_alone(teller, number, refusal.name(), out),
        Some(name) => push_refused_near(teller, number, refusal.name(), name.as_slice(), out),
    }
}
