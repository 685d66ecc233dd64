//! The report on lines of logs that make no question.

ghost use Rattle.std.specs.Prelude.{◌≡◌, ◌++◌, OnOk};
ghost use Rattle.aatry_log.specs.Apart.{apart_text, kept_text, line_text, numbered_told, placed_told};
ghost use Rattle.aatry_logs.specs.Apart.{seen_kept, seen_lines};
ghost use Rattle.aatry_logs.specs.LogRequests.{seen_logs};

use aatry_logs::{KeptLine, LogRequests};
use aatry_report::{Field, Teller, tell};
use std::alloc::AllocError;

// Appends a line of standard input to a text, by its number and its text, after the word of its kind.
#[tactic(auto, unfolding(crate::specs::Apart::numbered_told))]
fn push_numbered<'x>(
    teller: Teller,
    kind: &'x str,
    number: usize,
    text: &'x [u8],
    out: &mut Vec<u8>,
) -> Result<(), AllocError>
    ensures { OnOk result (out.new.items ≡ out.old.items ++ numbered_told teller.form kind.now number text.now) }
{
    tell(
        teller,
        kind,
        &[
            Field::Words("line "),
            Field::Number("line", number),
            Field::Words(": "),
            Field::Words(kind),
            Field::Words(": "),
            Field::Text("text", text),
        ],
        out,
    )
}

// Appends a line of a log to a text, by the path of the log too.
#[tactic(auto, unfolding(crate::specs::Apart::placed_told))]
fn push_placed<'x>(
    teller: Teller,
    kind: &'x str,
    file: &'x [u8],
    number: usize,
    text: &'x [u8],
    out: &mut Vec<u8>,
) -> Result<(), AllocError>
    ensures { OnOk result (out.new.items ≡ out.old.items ++ placed_told teller.form kind.now file.now number text.now) }
{
    tell(
        teller,
        kind,
        &[
            Field::Text("file", file),
            Field::Words(":"),
            Field::Number("line", number),
            Field::Words(": "),
            Field::Words(kind),
            Field::Words(": "),
            Field::Text("text", text),
        ],
        out,
    )
}

// Appends a kept line of a kind to a text.
fn push_told(
    teller: Teller,
    kind: &str,
    line: &KeptLine,
    out: &mut Vec<u8>,
) -> Result<(), AllocError>
    ensures { OnOk result (out.new.items ≡ out.old.items ++ line_text teller.form kind.now (seen_kept line.now)) }
{
    let number = line.line as usize;
    match &line.file {
        None => push_numbered(teller, kind, number, &line.text, out),
        Some(file) => push_placed(teller, kind, file.as_bytes(), number, &line.text, out),
    }
}

// Appends the kept lines of a kind to a text, in their order.
fn push_kept(
    teller: Teller,
    kind: &str,
    lines: &[KeptLine],
    out: &mut Vec<u8>,
) -> Result<(), AllocError>
    ensures { OnOk result (out.new.items ≡ out.old.items ++ kept_text teller.form kind.now (seen_lines lines.now)) }
{
    for line in lines {
        push_told(teller, kind, line, out)?;
    }
    Ok(())
}

/// Appends the lines of logs that make no question to a text: first those that can't be read, then those of which the kernel knew no whole path, and
/// then those of learning profiles. Each is a line with the path of its log, where that isn't standard input, its number in it, its kind and its
/// first bytes, as they are shown; or a record of the kind `unreadable`, `disconnected` or `learning` with the texts `file` and `text` and the
/// number `line`.
///
/// # Errors
///
/// Where memory runs out. A beginning may have been appended then.
pub fn push_apart(
    teller: Teller,
    logs: &LogRequests<'_>,
    out: &mut Vec<u8>,
) -> Result<(), AllocError>
    ensures { OnOk result (out.new.items ≡ out.old.items ++ apart_text teller.form (seen_logs logs.now)) }
{
    push_kept(teller, "unreadable", &logs.unreadable.first, out)?;
    push_kept(teller, "disconnected", &logs.disconnected.first, out)?;
    push_kept(teller, "learning", &logs.learning.first, out)
}
