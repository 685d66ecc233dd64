//! Answers before and after a change, as they are told.

ghost use Rattle.std.specs.Prelude.{◌≡◌, ◌++◌, IfOk, OnOk};
ghost use Rattle.aatry_diff_paths.specs.Telling.{answer_text, is_otherwise, log_text, mask_text, tells_logs};

use aa_decide_rules::{Tag, Verdict};
use aa_explain_changes::{Answers, Change, change_between};
use aa_profile_data::Perms;
use bitflags::Flags;
use std::alloc::{AllocError, Global};

// Appends that an answer is logged to a text, and which letters of a file.
fn push_mask(mask: Perms, out: &mut Vec<u8>) -> Result<(), AllocError>
    ensures { OnOk result (out.new.items ≡ out.old.items ++ mask_text mask.0) }
{
    if !mask.intersects(Perms::from_bits_retain(127)) {
        return out.extend_from_slice(b", logged");
    }
    out.extend_from_slice(b", logged ")?;
    mask.push_letters(out)
}

// Appends how an answer is logged.
fn push_log(tag: Option<Tag>, mask: Perms, out: &mut Vec<u8>) -> Result<(), AllocError>
    ensures { OnOk result (out.new.items ≡ out.old.items ++ log_text tag mask.0) }
{
    match tag {
        None => out.extend_from_slice(b", not logged"),
        Some(_) => push_mask(mask, out),
    }
}

// Whether a change is neither to allow nor to allow no more.
fn is_otherwise(change: Change) -> bool
    ensures { result ≡ is_otherwise change }
{
    match change {
        Change::Otherwise => true,
        Change::Same | Change::Gained | Change::Lost => false,
    }
}

/// Whether it is to be told how two answers are logged: where both allow, or neither does.
pub fn tells_logs(answers: Answers) -> bool
    ensures { result ≡ tells_logs answers }
{
    is_otherwise(change_between(false, answers.old, answers.new))
}

/// An answer in a word, and how it is logged, where that is to be told.
///
/// # Errors
///
/// Where memory runs out.
pub fn answer_text(alloc: Global, logs: bool, verdict: Verdict) -> Result<Vec<u8>, AllocError>
    ensures { IfOk result (λ text. text.items ≡ answer_text logs verdict) }
{
    let mut text = Vec::from_slice(alloc, verdict.answer.word().as_bytes())?;
    if logs {
        push_log(verdict.tag, verdict.mask, &mut text)?;
    }
    Ok(text)
}
