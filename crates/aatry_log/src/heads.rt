//! The heading of a request.

ghost use Rattle.std.specs.Prelude.{◌≡◌, ◌++◌, IfOk, OnOk};
ghost use Rattle.aatry_log.specs.Requests.{head_text, last_text, spanned_text, timeless_told, times_told};
ghost use Rattle.aatry_requests.specs.SeenTallies.{seen_tally};
ghost use Rattle.aatry_words.specs.Told.{time_text};

use aatry_report::{Field, Teller, tell};
use aatry_requests::{Span, Tally, push_question};
use aatry_words::push_time;
use std::alloc::{AllocError, Global};

// Appends the last time to a text, where it differs from the first.
fn push_last(out: &mut Vec<u8>, span: Span) -> Result<(), AllocError>
    ensures { OnOk result (out.new.items ≡ out.old.items ++ last_text span) }
{
    if span.first == span.last {
        return Ok(());
    }
    out.extend_from_slice(b" to ")?;
    push_time(out, span.last)
}

// A time, as it is told.
fn time_text(alloc: Global, time: u64) -> Result<Vec<u8>, AllocError>
    ensures { IfOk result (λ text. text.items ≡ time_text time) }
{
    let mut text = Vec::new(alloc);
    push_time(&mut text, time)?;
    Ok(text)
}

// Appends the heading of a request to a text, by how often it occurred, its first time, what is printed after that, its last time, and its question.
#[tactic(auto, unfolding(crate::specs::Requests::times_told))]
fn push_times_told<'x>(
    teller: Teller,
    times: usize,
    first: &'x [u8],
    behind: &'x [u8],
    last: &'x [u8],
    question: &'x [u8],
    out: &mut Vec<u8>,
) -> Result<(), AllocError>
    ensures { OnOk result (out.new.items
        ≡ out.old.items ++ times_told teller.form times first.now behind.now last.now question.now) }
{
    tell(
        teller,
        "request",
        &[
            Field::Times("times", times),
            Field::Words(" ("),
            Field::Plain("first", first),
            Field::Bytes(behind),
            Field::Member("last", last),
            Field::Words("): "),
            Field::Plain("question", question),
        ],
        out,
    )
}

// Appends the heading of a request to a text, which occurred in this span, by how often, and its question.
fn push_spanned(
    teller: Teller,
    times: usize,
    span: Span,
    question: &[u8],
    out: &mut Vec<u8>,
) -> Result<(), AllocError>
    ensures { OnOk result (out.new.items ≡ out.old.items ++ spanned_text teller.form times span question.now) }
{
    let first = time_text(teller.alloc, span.first)?;
    let last = time_text(teller.alloc, span.last)?;
    let mut behind = Vec::new(teller.alloc);
    push_last(&mut behind, span)?;
    push_times_told(teller, times, &first, &behind, &last, question, out)
}

// Appends the heading of a request to a text, by how often it occurred, and its question.
#[tactic(auto, unfolding(crate::specs::Requests::timeless_told))]
fn push_timeless<'x>(
    teller: Teller,
    times: usize,
    question: &'x [u8],
    out: &mut Vec<u8>,
) -> Result<(), AllocError>
    ensures { OnOk result (out.new.items ≡ out.old.items ++ timeless_told teller.form times question.now) }
{
    tell(
        teller,
        "request",
        &[
            Field::Times("times", times),
            Field::Words(": "),
            Field::Plain("question", question),
        ],
        out,
    )
}

/// Appends the heading of a request to a text: a line with how often it occurred, when, and its question, or a record of the kind `request` with the
/// text `question`, the number `times`, and the texts `first` and `last` where times are known.
///
/// # Errors
///
/// Where memory runs out. A beginning may have been appended then.
pub fn push_head(teller: Teller, tally: &Tally<'_>, out: &mut Vec<u8>) -> Result<(), AllocError>
    ensures { OnOk result (out.new.items ≡ out.old.items ++ head_text teller.form (seen_tally tally.now)) }
{
    let times = tally.times as usize;
    let mut question = Vec::new(teller.alloc);
    push_question(&mut question, &tally.question.question())?;
    match tally.span {
        None => push_timeless(teller, times, &question, out),
        Some(span) => push_spanned(teller, times, span, &question, out),
    }
}
