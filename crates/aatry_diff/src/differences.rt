//! The report on questions whose answers differ between two policy sets.

ghost use Rattle.std.specs.Prelude.{◌≡◌, ◌++◌, OnOk};
ghost use Rattle.aa_set_commands.specs.Question.{seen_question};
ghost use Rattle.aatry_diff.specs.Differences.{causes, difference_text, question_told, told_differences, told_question};
ghost use Rattle.aatry_diff.specs.Folders.{seen_folders};
ghost use Rattle.aatry_diff.specs.SeenDifferences.{seen_difference, seen_differences};

use crate::finding::Difference;
use crate::folders::BothFolders;
use aa_set_commands::Question;
use aatry_report::{Field, Teller, tell};
use aatry_requests::{push_question, rule_request, who_asks};
use aatry_shared::push_causes;
use std::alloc::AllocError;

// Appends a question to a text, by the answers before and after, and how often it occurred, in words and as a number.
fn push_question_told<'x>(
    teller: Teller,
    question: &'x [u8],
    before: &'x [u8],
    after: &'x [u8],
    times: usize,
    out: &mut Vec<u8>,
) -> Result<(), AllocError>
    ensures { OnOk result (out.new.items
        ≡ out.old.items ++ question_told teller.form question.now before.now after.now times) }
{
    tell(
        teller,
        "question",
        &[
            Field::Plain("question", question),
            Field::Words(": "),
            Field::Plain("before", before),
            Field::Words(" -> "),
            Field::Plain("after", after),
            Field::Words(" ("),
            Field::Times("times", times),
            Field::Words(")"),
        ],
        out,
    )
}

// Appends a question, its answers and how often it occurred to a text.
fn push_told(
    teller: Teller,
    difference: &Difference<'_, '_>,
    out: &mut Vec<u8>,
) -> Result<(), AllocError>
    ensures { OnOk result (out.new.items ≡ out.old.items ++ told_question teller.form (seen_difference difference.now)) }
{
    let mut question = Vec::new(teller.alloc);
    push_question(&mut question, &difference.tally.question.question())?;
    push_question_told(
        teller,
        &question,
        difference.before.as_slice(),
        difference.after.as_slice(),
        difference.tally.times as usize,
        out,
    )
}

// Appends the rules that lead to only one of the answers to a question to a text.
fn push_causes_of(
    teller: Teller,
    folders: &BothFolders<'_>,
    question: &Question<'_>,
    out: &mut Vec<u8>,
) -> Result<(), AllocError>
    ensures { OnOk result (out.new.items ≡ out.old.items ++ causes teller.form (seen_folders folders.now) (seen_question question.entry.now)) }
{
    push_causes(
        teller,
        &folders.old,
        &folders.new,
        who_asks(question),
        &rule_request(question),
        out,
    )
}

// Appends the report on a question whose answers differ to a text.
fn push_difference(
    teller: Teller,
    folders: &BothFolders<'_>,
    difference: &Difference<'_, '_>,
    out: &mut Vec<u8>,
) -> Result<(), AllocError>
    ensures { OnOk result (out.new.items ≡ out.old.items ++ difference_text teller.form (seen_folders folders.now) (seen_difference difference.now)) }
{
    push_told(teller, difference, out)?;
    push_causes_of(teller, folders, &difference.tally.question.question(), out)
}

/// Appends each of some questions whose answers differ between two policy sets to a text: the question, the answer before and after, and how often
/// it occurred. It is followed by the rules that lead to only one of the answers, as they are in the folders of the policy sets
/// (`aatry_shared::push_causes`). That is a line, or a record of the kind `question` with the texts `question`, `before` and `after` and the number
/// `times`.
///
/// # Errors
///
/// Where memory runs out. Some questions may have been appended then.
pub fn push_differences(
    teller: Teller,
    folders: &BothFolders<'_>,
    differences: &[Difference<'_, '_>],
    out: &mut Vec<u8>,
) -> Result<(), AllocError>
    ensures { OnOk result (out.new.items ≡ out.old.items ++ told_differences teller.form (seen_folders folders.now) (seen_differences differences.now)) }
{
    let mut rest = differences;
    while let [difference, behind @ ..] = rest {
        push_difference(teller, folders, difference, out)?;
        rest = behind;
    }
    Ok(())
}
