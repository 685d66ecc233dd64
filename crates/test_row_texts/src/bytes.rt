//! The bytes that a text of a row stands for.

use crate::lines::split_at;
use crate::row_error::RowError;
use crate::words::number_of;

/// Appends a number to bytes. The one error is that of memory.
pub fn put_number(bytes: &mut Vec<u8>, number: usize) -> Result<(), RowError> {
    let digits = number.to_string(*bytes.allocator())?;
    bytes.extend_from_slice(digits.as_str().as_bytes())?;
    Ok(())
}

// Appends a number to bytes, and the text that follows it.
fn put_numbered(bytes: &mut Vec<u8>, number: usize, behind: &str) -> Result<(), RowError> {
    put_number(bytes, number)?;
    bytes.extend_from_slice(behind.as_bytes())?;
    Ok(())
}

// The byte of two digits that a text begins with, and what follows them.
fn split_byte(text: &str) -> Result<(u8, &str), RowError> {
    let Some((digits, behind)) = text.split_at_checked(2) else {
        return Err(RowError::BadSign);
    };
    match u8::from_str_radix(digits, 16) {
        Ok(byte) => Ok((byte, behind)),
        Err(_) => Err(RowError::BadSign),
    }
}

// Appends the byte with which a text begins to bytes, and the text that follows it.
fn put_byte(bytes: &mut Vec<u8>, text: &str) -> Result<(), RowError> {
    let (byte, behind) = split_byte(text)?;
    bytes.push(byte)?;
    bytes.extend_from_slice(behind.as_bytes())?;
    Ok(())
}

// Appends what a sign stands for to bytes, and the text that follows it. `#` is the number of the turn, `+` the number after it.
fn put_sign(bytes: &mut Vec<u8>, piece: &str, turn: usize) -> Result<(), RowError> {
    if let Some(behind) = piece.strip_prefix('#') {
        return put_numbered(bytes, turn, behind);
    }
    match piece.strip_prefix('+') {
        Some(behind) => put_numbered(bytes, turn.saturating_add(1), behind),
        None => put_byte(bytes, piece),
    }
}

// Appends a piece of a text to bytes: the first as it is, each other after the `%` of a sign.
fn put_piece(
    bytes: &mut Vec<u8>,
    piece: &str,
    turn: usize,
    is_first: bool,
) -> Result<(), RowError> {
    if !is_first {
        return put_sign(bytes, piece, turn);
    }
    bytes.extend_from_slice(piece.as_bytes())?;
    Ok(())
}

// Appends a text without repetitions to bytes.
fn put_plain(bytes: &mut Vec<u8>, text: &str, turn: usize) -> Result<(), RowError> {
    for (at, piece) in text.split('%').enumerate() {
        put_piece(bytes, piece, turn, at == 0)?;
    }
    Ok(())
}

// Appends a text to bytes so many times.
fn put_times(bytes: &mut Vec<u8>, text: &str, times: usize) -> Result<(), RowError> {
    for turn in 0..times {
        put_plain(bytes, text, turn)?;
    }
    Ok(())
}

// Appends what `TEXT*TIMES` stands for to bytes.
fn put_repeated(bytes: &mut Vec<u8>, inside: &str) -> Result<(), RowError> {
    match inside.rsplit_once('*') {
        Some((text, times)) => put_times(bytes, text, number_of(times)?),
        None => Err(RowError::NoTimes),
    }
}

// Appends what `TEXT*TIMES)` stands for to bytes, and the text that follows it.
fn put_repetition(bytes: &mut Vec<u8>, piece: &str, turn: usize) -> Result<(), RowError> {
    let (inside, behind) = split_at(piece, ")")?;
    put_repeated(bytes, inside)?;
    put_plain(bytes, behind, turn)
}

// Appends a piece of a text to bytes: the first as it is, each other after the `%(` of a repetition.
fn put_long_piece(
    bytes: &mut Vec<u8>,
    piece: &str,
    turn: usize,
    is_first: bool,
) -> Result<(), RowError> {
    if is_first {
        put_plain(bytes, piece, turn)
    } else {
        put_repetition(bytes, piece, turn)
    }
}

/// Appends what a text of a row stands for to bytes: `%XX` is a byte, `%(TEXT*TIMES)` is a text so many times, `%#` the number of the turn, from 0
/// on, and `%+` the number after it. A repetition that isn't closed or has no number can't be read, and neither can another sign.
pub fn put_text(bytes: &mut Vec<u8>, text: &str, turn: usize) -> Result<(), RowError> {
    for (at, piece) in text.split("%(").enumerate() {
        put_long_piece(bytes, piece, turn, at == 0)?;
    }
    Ok(())
}
