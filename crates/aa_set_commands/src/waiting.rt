//! Replies that wait to be written, in a buffer that is allocated once, so that writing one takes no memory.
ghost use Rattle.std.specs.Prelude.{◌≡◌, ◌+◌, ◌≤◌, true, [], ◌++◌, length, vec_len, vec_capacity, OnOk, OnErr};
ghost use Rattle.std.specs.Io.KnownBytes.{Appends};
ghost use Rattle.aa_set_commands.specs.Streams.{AppendsFront, WritesBehind};

use crate::stream::{Failed, Sink};

/// Writes all of the bytes, in as many calls as the sink needs. It takes no memory.
///
/// # Errors
///
/// `Failed` where the sink has a fault. A prefix of the bytes is then written.
pub fn write_all<W: Sink>(writer: &mut W, bytes: &[u8]) -> Result<(), Failed>
    ensures ok { OnOk result (Appends (W.written writer.old) (W.written writer.new) bytes.now) }
    ensures flag { OnOk result (W.failed writer.new ≡ W.failed writer.old) }
    ensures err { OnErr result (AppendsFront (W.written writer.old) (W.written writer.new) bytes.now) }
    ensures fault { OnErr result (W.failed writer.new ≡ true) }
{
    let mut rest = bytes;
    while !rest.is_empty() {
        let taken = writer.write(rest)?;
        rest = &rest[taken..];
    }
    Ok(())
}

/// Writes all that waits, and empties the buffer, which keeps its capacity. It takes no memory.
///
/// # Errors
///
/// `Failed` where the sink has a fault. A prefix of what waited is then written, and nothing waits, so that no byte is written twice.
pub fn flush<W: Sink>(writer: &mut W, waiting: &mut Vec<u8>) -> Result<(), Failed>
    ensures ok { OnOk result (Appends (W.written writer.old) (W.written writer.new) waiting.old.items) }
    ensures flag { OnOk result (W.failed writer.new ≡ W.failed writer.old) }
    ensures err { OnErr result (AppendsFront (W.written writer.old) (W.written writer.new) waiting.old.items) }
    ensures fault { OnErr result (W.failed writer.new ≡ true) }
    ensures empty { waiting.new.items ≡ [] }
    ensures capacity { vec_capacity waiting.new ≡ vec_capacity waiting.old }
{
    let result = write_all(writer, waiting.as_slice());
    waiting.clear();
    result
}

/// Appends the bytes to those that wait. Where the buffer's capacity isn't enough, what waits is written first, and bytes that would never fit are
/// written at once. The buffer never grows: this takes no memory.
///
/// # Errors
///
/// `Failed` where the sink has a fault. A prefix of what waited and the bytes after it is then written, and nothing waits, so that no byte is
/// written twice.
pub fn write_behind<W: Sink>(
    writer: &mut W,
    waiting: &mut Vec<u8>,
    bytes: &[u8],
) -> Result<(), Failed>
    ensures ok { OnOk result (WritesBehind (W.written writer.old) (W.written writer.new)
        waiting.old.items waiting.new.items bytes.now) }
    ensures flag { OnOk result (W.failed writer.new ≡ W.failed writer.old) }
    ensures err { OnErr result (AppendsFront (W.written writer.old) (W.written writer.new)
        (waiting.old.items ++ bytes.now)) }
    ensures fault { OnErr result (W.failed writer.new ≡ true) }
    ensures dropped { OnErr result (waiting.new.items ≡ []) }
    ensures within { vec_len waiting.new ≤ vec_capacity waiting.old }
    ensures capacity { vec_capacity waiting.old ≤ vec_capacity waiting.new }
{
    if bytes.len() > waiting.capacity() - waiting.len() {
        flush(writer, waiting)?;
        if bytes.len() > waiting.capacity() {
            return write_all(writer, bytes);
        }
    }
    keep(waiting, bytes);
    Ok(())
}

// Appends the bytes to those that wait, where there is room for them.
fn keep(waiting: &mut Vec<u8>, bytes: &[u8])
    requires room { vec_len waiting.old + length bytes.now ≤ vec_capacity waiting.old }
    ensures items { waiting.new.items ≡ waiting.old.items ++ bytes.now }
    ensures capacity { vec_capacity waiting.old ≤ vec_capacity waiting.new }
{
    match waiting.extend_from_slice(bytes) {
        Ok(()) => {}
        Err(_) => unreachable!(),
    }
}
