//! The texts of replies, written to a writer without allocating.

ghost use Rattle.std.specs.Prelude.{◌≡◌, ◌++◌, true, OnOk, OnErr};
ghost use Rattle.std.specs.Fmt.{decimal};
ghost use Rattle.aa_text_files.specs.Files.{name_at};
ghost use Rattle.aa_set_commands.specs.Streams.{AppendsFront, WritesBehind};
ghost use Rattle.aa_set.specs.Reply.{place_text, refusal_text, reply_text};
ghost use Rattle.aa_bytes.specs.Quoting.{hexadecimal, written_text};

use aa_bytes::{are_shown, two_digits};
use aa_set_commands::{Failed, Refusal, Sink, write_behind};
use aa_set_manager::Reply;
use aa_text_files::{Files, Place};
use itoa::Buffer;

/// Writes a reply to a writer, after what waits to be written. It takes no memory. The places of refusals are in these files.
///
/// # Errors
///
/// `Failed` where the writer has a fault. A prefix of what waited, followed by the reply, is then written.
pub fn write_reply<W: Sink>(
    writer: &mut W,
    waiting: &mut Vec<u8>,
    files: &Files,
    reply: &Reply,
) -> Result<(), Failed>
    ensures ok { OnOk result
        (WritesBehind (W.written writer.old) (W.written writer.new) waiting.old.items waiting.new.items (reply_text files.now reply.now)) }
    ensures err { OnErr result (AppendsFront (W.written writer.old) (W.written writer.new) (waiting.old.items ++ (reply_text files.now reply.now))) }
    ensures flag { OnOk result (W.failed writer.new ≡ W.failed writer.old) }
    ensures fault { OnErr result (W.failed writer.new ≡ true) }
{
    match reply {
        Reply::Silent => write_behind(writer, waiting, b""),
        Reply::Done => write_behind(writer, waiting, b"ok\n"),
        Reply::Refused(refusal) => write_refusal(writer, waiting, files, *refusal),
        Reply::Answered(lines) => write_behind(writer, waiting, lines.as_slice()),
    }
}

// Writes the line of a refusal.
fn write_refusal<W: Sink>(
    writer: &mut W,
    waiting: &mut Vec<u8>,
    files: &Files,
    refusal: Refusal,
) -> Result<(), Failed>
    ensures ok { OnOk result
        (WritesBehind (W.written writer.old) (W.written writer.new) waiting.old.items waiting.new.items (refusal_text files.now refusal)) }
    ensures err { OnErr result (AppendsFront (W.written writer.old) (W.written writer.new) (waiting.old.items ++ (refusal_text files.now refusal))) }
    ensures flag { OnOk result (W.failed writer.new ≡ W.failed writer.old) }
    ensures fault { OnErr result (W.failed writer.new ≡ true) }
{
    write_behind(writer, waiting, b"refused ")?;
    write_number(writer, waiting, usize::from(refusal.number()))?;
    write_behind(writer, waiting, b" ")?;
    write_behind(writer, waiting, refusal.name().as_bytes())?;
    write_place(writer, waiting, files, refusal.place)?;
    write_behind(writer, waiting, b"\n")
}

// Writes a place after a blank: the file's name and the offset in bytes.
fn write_place<W: Sink>(
    writer: &mut W,
    waiting: &mut Vec<u8>,
    files: &Files,
    place: Option<Place>,
) -> Result<(), Failed>
    ensures ok { OnOk result
        (WritesBehind (W.written writer.old) (W.written writer.new) waiting.old.items waiting.new.items (place_text files.now place)) }
    ensures err { OnErr result (AppendsFront (W.written writer.old) (W.written writer.new) (waiting.old.items ++ (place_text files.now place))) }
    ensures flag { OnOk result (W.failed writer.new ≡ W.failed writer.old) }
    ensures fault { OnErr result (W.failed writer.new ≡ true) }
{
    let Some(place) = place else {
        return write_behind(writer, waiting, b"");
    };
    write_behind(writer, waiting, b" ")?;
    write_text(writer, waiting, file_name(files, place.file))?;
    write_behind(writer, waiting, b" ")?;
    write_number(writer, waiting, place.at)
}

// The name of the file at an index.
fn file_name(files: &Files, file: usize) -> &[u8]
    ensures { result.now ≡ name_at files.now file }
{
    match files.name(file) {
        Some(name) => name,
        None => b"",
    }
}

// Writes a text: in quotes, or in hexadecimal where one of its bytes isn't shown.
fn write_text<W: Sink>(writer: &mut W, waiting: &mut Vec<u8>, text: &[u8]) -> Result<(), Failed>
    ensures ok { OnOk result
        (WritesBehind (W.written writer.old) (W.written writer.new) waiting.old.items waiting.new.items (written_text text.now)) }
    ensures err { OnErr result (AppendsFront (W.written writer.old) (W.written writer.new) (waiting.old.items ++ (written_text text.now))) }
    ensures flag { OnOk result (W.failed writer.new ≡ W.failed writer.old) }
    ensures fault { OnErr result (W.failed writer.new ≡ true) }
{
    if !are_shown(text) {
        return write_hexadecimal(writer, waiting, text);
    }
    write_behind(writer, waiting, b"\"")?;
    write_behind(writer, waiting, text)?;
    write_behind(writer, waiting, b"\"")
}

// Writes bytes as two hexadecimal digits each.
fn write_hexadecimal<W: Sink>(
    writer: &mut W,
    waiting: &mut Vec<u8>,
    bytes: &[u8],
) -> Result<(), Failed>
    ensures ok { OnOk result
        (WritesBehind (W.written writer.old) (W.written writer.new) waiting.old.items waiting.new.items (hexadecimal bytes.now)) }
    ensures err { OnErr result (AppendsFront (W.written writer.old) (W.written writer.new) (waiting.old.items ++ (hexadecimal bytes.now))) }
    ensures flag { OnOk result (W.failed writer.new ≡ W.failed writer.old) }
    ensures fault { OnErr result (W.failed writer.new ≡ true) }
{
    for byte in bytes {
        write_behind(writer, waiting, &two_digits(*byte))?;
    }
    Ok(())
}

// Writes a number in decimal.
fn write_number<W: Sink>(writer: &mut W, waiting: &mut Vec<u8>, number: usize) -> Result<(), Failed>
    ensures ok { OnOk result
        (WritesBehind (W.written writer.old) (W.written writer.new) waiting.old.items waiting.new.items (decimal number)) }
    ensures err { OnErr result (AppendsFront (W.written writer.old) (W.written writer.new) (waiting.old.items ++ (decimal number))) }
    ensures flag { OnOk result (W.failed writer.new ≡ W.failed writer.old) }
    ensures fault { OnErr result (W.failed writer.new ≡ true) }
{
    let mut digits = Buffer::new();
    write_behind(writer, waiting, digits.format(number).as_bytes())
}
