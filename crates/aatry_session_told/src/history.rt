//! The texts of a session's changes, and the history that they make.

ghost use Rattle.std.specs.Prelude.{◌≡◌, ◌+◌, ◌<◌, ◌^◌, ◌++◌, IfOk, OnOk};
ghost use Rattle.aa_history.specs.SeenMarks.{seen_marks};
ghost use Rattle.aa_set_commands.specs.Command.{seen_change};
ghost use Rattle.aatry_report.specs.Shown.{shown};
ghost use Rattle.aatry_session_told.specs.History.{behind_number, change_line, change_text, history_lines, history_text, mark_line, mark_lines};

use crate::moves::texts_behind;
use aa_bytes::Sequence;
use aa_history::Mark;
use aa_set_commands::PolicyChange;
use aatry_report::push_shown;
use itoa::Buffer;
use std::alloc::{AllocError, Global};

// Appends a word and a name to a text.
fn push_named(out: &mut Vec<u8>, word: &str, name: &[u8]) -> Result<(), AllocError>
    ensures { OnOk result (out.new.items ≡ out.old.items ++ word.now ++ shown name.now) }
{
    out.extend_from_slice(word.as_bytes())?;
    push_shown(out, name)
}

// Appends the text of a change to another: the words of its command.
fn push_change(out: &mut Vec<u8>, change: PolicyChange<'_>) -> Result<(), AllocError>
    ensures { OnOk result (out.new.items ≡ out.old.items ++ change_text (seen_change change.entry)) }
{
    match change {
        PolicyChange::Add(file) => push_named(out, "add ", file),
        PolicyChange::Replace(file) => push_named(out, "replace ", file),
        PolicyChange::Remove(file) => push_named(out, "remove ", file),
        PolicyChange::Enforce(name) => push_named(out, "enforce ", name),
        PolicyChange::Complain(name) => push_named(out, "complain ", name),
        PolicyChange::Disable(name) => push_named(out, "disable ", name),
    }
}

/// The text of a change: the words of its command.
///
/// # Errors
///
/// Where memory runs out.
pub fn text_of(alloc: Global, change: PolicyChange<'_>) -> Result<Sequence<u8>, AllocError>
    ensures { IfOk result (λ text. text ≡ change_text (seen_change change.entry)) }
{
    let mut text = Vec::new(alloc);
    push_change(&mut text, change)?;
    Ok(Sequence::from_vec(text))
}

// The words between the number of a change and its text.
fn behind_number(before: usize, done: usize) -> &'static str
    ensures { result.now ≡ behind_number before done }
{
    if before < done { " " } else { " undone: " }
}

// Appends the line of a change to a text.
fn push_change_line(
    out: &mut Vec<u8>,
    before: usize,
    done: usize,
    text: &[u8],
) -> Result<(), AllocError>
    requires { before + 1 < 2 ^ 64 }
    ensures { OnOk result (out.new.items ≡ out.old.items ++ change_line before done text.now) }
{
    let mut digits = Buffer::new();
    out.extend_from_slice(digits.format(before + 1).as_bytes())?;
    out.extend_from_slice(behind_number(before, done).as_bytes())?;
    out.extend_from_slice(text)?;
    out.push(b'\n')?;
    Ok(())
}

// Appends the line of a mark to a text.
fn push_mark_line(out: &mut Vec<u8>, name: &[u8]) -> Result<(), AllocError>
    ensures { OnOk result (out.new.items ≡ out.old.items ++ mark_line name.now) }
{
    out.extend_from_slice(b"  mark ")?;
    push_shown(out, name)?;
    out.push(b'\n')?;
    Ok(())
}

// Appends the lines of those marks to a text that mark the set after so many changes past those of the loading.
fn push_mark_lines(
    out: &mut Vec<u8>,
    loaded: usize,
    number: usize,
    marks: &[Mark],
) -> Result<(), AllocError>
    ensures { OnOk result (out.new.items ≡ out.old.items ++ mark_lines loaded number (seen_marks marks.now)) }
{
    let mut rest = marks;
    while let [mark, behind @ ..] = rest {
        if mark.number.saturating_sub(loaded) == number {
            push_mark_line(out, &mark.name)?;
        }
        rest = behind;
    }
    Ok(())
}

// Appends the lines of changes to a text, the first `done` of which are done, the others undone.
fn push_lines(
    out: &mut Vec<u8>,
    loaded: usize,
    done: usize,
    marks: &[Mark],
    texts: &[Sequence<u8>],
) -> Result<(), AllocError>
    ensures { OnOk result (out.new.items ≡ out.old.items ++ history_lines loaded 0 done (seen_marks marks.now) texts.now) }
{
    let mut before = 0;
    let mut rest = texts;
    while let [text, behind @ ..] = rest {
        push_mark_lines(out, loaded, before, marks)?;
        push_change_line(out, before, done, text.as_slice())?;
        before += 1;
        rest = behind;
    }
    push_mark_lines(out, loaded, before, marks)
}

/// Appends the history to a text, as it begins after the changes that loaded the files, of which there are `loaded`: a line for each further change,
/// of all of which the first `done` are done, the others undone, followed by one for each mark of the policy set after it.
///
/// # Errors
///
/// Where memory runs out. A beginning may have been appended then.
pub fn push_history(
    out: &mut Vec<u8>,
    loaded: usize,
    done: usize,
    marks: &[Mark],
    texts: &[Sequence<u8>],
) -> Result<(), AllocError>
    ensures { OnOk result (out.new.items ≡ out.old.items ++ history_text loaded done (seen_marks marks.now) texts.now) }
{
    push_lines(
        out,
        loaded,
        done.saturating_sub(loaded),
        marks,
        texts_behind(texts, loaded),
    )
}
