//! Lists of states as bytes: each state as its difference from the one before.

ghost use Rattle.std.specs.Prelude.{◌≡◌, ◌+◌, ◌++◌, ◌∷◌, ◌<◌, length, slice_get, OnErr, OnOk};
ghost use Rattle.aa_glob_pairs.specs.code.Encoding.{IsEncoded, bytes_behind, bytes_of, decoded, is_near, state_at};
ghost use Rattle.aa_glob_pairs.specs.Places.{IsNext, StandsAt};

use crate::place::Place;
use std::alloc::AllocError;

// The byte before the four bytes of a state that is no one-byte difference.
const FAR: u8 = 255;

// How many bytes a state takes at most.
const LONGEST: usize = 5;

/// Appends a state to an encoded list whose last state is `before`.
///
/// # Errors
///
/// Where memory runs out.
pub fn push_state(bytes: &mut Vec<u8>, before: u32, state: u32) -> Result<(), AllocError>
    ensures ok { OnOk result (bytes.new.items ≡ bytes.old.items ++ bytes_behind before state) }
    ensures err { OnErr result (bytes.new.items ≡ bytes.old.items) }
{
    make_room(bytes)?;
    if is_near(before, state) {
        bytes.push((state - before) as u8)?;
        Ok(())
    } else {
        bytes.extend_from_slice(&far_bytes(state))
    }
}

// Makes room for a state, where there is none, by an eighth of the length, since many long rows wait at once.
fn make_room(bytes: &mut Vec<u8>) -> Result<(), AllocError>
    ensures { bytes.new.items ≡ bytes.old.items }
{
    if bytes.capacity() - bytes.len() < LONGEST {
        bytes.reserve_exact(bytes.len() / 8 + 8)
    } else {
        Ok(())
    }
}

// Whether one byte encodes the difference of a state from the one before it.
fn is_near(before: u32, state: u32) -> bool
    ensures { result ≡ is_near before state }
{
    before <= state && state - before < FAR as u32
}

// The five bytes that encode any state.
fn far_bytes(state: u32) -> [u8; LONGEST]
    ensures { result ≡ 255 ∷ bytes_of state }
{
    [
        FAR,
        (state % 256) as u8,
        (state / 256 % 256) as u8,
        (state / 65536 % 256) as u8,
        (state / 16_777_216) as u8,
    ]
}

/// The place after the next state, if there is one. It takes no memory; `O(1)`.
pub fn next_place(bytes: &[u8], place: Place) -> Option<Place>
    requires encoded { IsEncoded bytes.now }
    requires stands { StandsAt place (decoded 0 bytes.now) }
    ensures { IsNext result place (decoded 0 bytes.now) }
{
    match byte_at(bytes, place.offset) {
        None => None,
        Some(byte) if byte < FAR => Some(Place {
            index: place.index + 1,
            offset: place.offset + 1,
            state: place.state + byte as u32,
        }),
        Some(_) => Some(Place {
            index: place.index + 1,
            offset: place.offset + LONGEST,
            state: state_at(bytes, place.offset + 1),
        }),
    }
}

// The byte at an index, if there is one.
fn byte_at(bytes: &[u8], at: usize) -> Option<u8>
    ensures { result ≡ slice_get bytes.now at }
{
    bytes.get(at).copied()
}

// The state whose four bytes are at an index.
fn state_at(bytes: &[u8], at: usize) -> u32
    requires { at + 3 < length bytes.now }
    ensures { result ≡ state_at bytes.now at }
{
    let low = bytes[at] as u32 + bytes[at + 1] as u32 * 256;
    let high = bytes[at + 2] as u32 * 65536 + bytes[at + 3] as u32 * 16_777_216;
    low + high
}
