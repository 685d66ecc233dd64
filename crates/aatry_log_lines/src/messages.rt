//! The messages of records of the system's journal.

ghost use Rattle.std.specs.Prelude.{◌≡◌, IfOk, option_map};
ghost use Rattle.aatry_log_lines.specs.Messages.{byte_of, bytes_of, message_by, message_in, message_listed, message_of, seen_message};
ghost use Rattle.serde_json.specs.Find.{as_array};
ghost use Rattle.serde_json.specs.View.{items_view, view};

use aa_bytes::begins_with_byte;
use serde_json::{Category, Value};
use std::alloc::{AllocError, Global};

/// The message of a line.
#[derive(Drop)]
pub enum Message {
    /// None: it is no record with a message.
    NoMessage,
    /// The message's bytes.
    Whole(Vec<u8>),
    /// A message that can't be read.
    Broken,
}

// The byte of a value that is the number of one.
fn byte_of(value: &Value) -> Option<u8>
    ensures { result ≡ byte_of (view value.now) }
{
    let number = value.as_u64()?;
    if number < 256 {
        Some(number as u8)
    } else {
        None
    }
}

// The bytes of some values, if each of them is a byte.
#[tactic(auto, using(crate::proofs::MessageLemmas::bytes_of_more, crate::proofs::MessageLemmas::bytes_of_none))]
fn bytes_of(alloc: Global, values: &[Value]) -> Result<Option<Vec<u8>>, AllocError>
    ensures { IfOk result (λ found. option_map (λ bytes. bytes.items) found ≡ bytes_of (items_view values.now)) }
{
    let mut bytes = Vec::with_capacity(alloc, values.len())?;
    let mut rest = values;
    while let [value, behind @ ..] = rest {
        let Some(byte) = byte_of(value) else {
            return Ok(None);
        };
        bytes.push(byte)?;
        rest = behind;
    }
    Ok(Some(bytes))
}

// The message of a value that is no text.
fn message_listed(alloc: Global, value: &Value) -> Result<Message, AllocError>
    ensures { IfOk result (λ message. seen_message message ≡ message_listed (as_array (view value.now))) }
{
    let Some(values) = value.as_array() else {
        return Ok(Message::NoMessage);
    };
    match bytes_of(alloc, values)? {
        Some(bytes) => Ok(Message::Whole(bytes)),
        None => Ok(Message::Broken),
    }
}

// The message of a value.
fn message_by(alloc: Global, value: &Value) -> Result<Message, AllocError>
    ensures { IfOk result (λ message. seen_message message ≡ message_by (view value.now)) }
{
    match value.as_str() {
        Some(text) => Ok(Message::Whole(Vec::from_slice(alloc, text.as_bytes())?)),
        None => message_listed(alloc, value),
    }
}

// The message of a record.
fn message_of(alloc: Global, value: &Value) -> Result<Message, AllocError>
    ensures { IfOk result (λ message. seen_message message ≡ message_of (view value.now)) }
{
    match value.get("MESSAGE") {
        Some(message) => message_by(alloc, message),
        None => Ok(Message::NoMessage),
    }
}

/// The message in a line that is a record of the system's journal, as `journalctl -o json` writes one: an object of JSON with a text by the name
/// `MESSAGE`, or with a list of the numbers of its bytes. A list that has something else can't be read. Any other line has none, and takes no memory
/// where it doesn't begin with `{`.
///
/// # Errors
///
/// Where memory runs out.
pub fn message_in(alloc: Global, line: &[u8]) -> Result<Message, AllocError>
    ensures { IfOk result (λ message. seen_message message ≡ message_in line.now) }
{
    if !begins_with_byte(b'{', line) {
        return Ok(Message::NoMessage);
    }
    match Value::from_slice(alloc, line) {
        Ok(value) => message_of(alloc, &value),
        Err(error) => match error.classify() {
            Category::Memory => Err(AllocError),
            _ => Ok(Message::NoMessage),
        },
    }
}
