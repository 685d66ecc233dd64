//! Bytes that stand for those that no state tells apart from them.

ghost use Rattle.std.specs.Prelude.{◌≡◌, ◌<◌, ◌≤◌, ℕ, true, length, Contains, IfOk, OnOk};
ghost use Rattle.aa_glob_nfa.specs.OfTables.{AreSound, graph_of};
ghost use Rattle.aa_glob_paths.specs.Alike.{AreAlike, StandForAll, StandForPrinted};
ghost use Rattle.aa_glob_paths.specs.code.Apart.{GetsLike, GetsLikeEach, HasOwnBytes, HaveAlike};

use aa_bytes::{ByteMap, is_inside};
use aa_glob_nfa::{ClassRow, Gate, States, Tables};
use std::alloc::{AllocError, Global};

// The printable bytes, in the order in which texts are written with them: letters and digits first, and those last that have a meaning to shells.
const PRINTED: &[u8] =
    b"abcdefghijklmnopqrstuvwxyzABCDEFGHIJKLMNOPQRSTUVWXYZ0123456789._-+/,:=@%~!#^$&'()*;<>?[]`{|}\"\\ ";

// The bytes each of which alone leads into some state.
fn own_bytes(states: &States) -> ByteMap
    requires { length states.now < 4294967296 }
    ensures { HasOwnBytes states.now (length states.now) result }
{
    let mut own = ByteMap::new();
    for number in 0..states.len() {
        if let Gate::Byte(byte) = states.gate(number as u32) {
            own.insert(byte);
        }
    }
    own
}

// Whether two values are equal.
fn are_same(one: bool, other: bool) -> bool
    ensures { result ≡ true → one ≡ other }
{
    if one { other } else { !other }
}

// Whether each class has both bytes, or neither.
fn have_alike(classes: &[ClassRow], one: u8, other: u8) -> bool
    ensures { result ≡ true → HaveAlike classes.now one other }
{
    for class in classes {
        if !are_same(class.map.has(one), class.map.has(other)) {
            return false;
        }
    }
    true
}

// Whether no state tells two bytes apart; `false` may be returned where none does.
fn are_alike(tables: &Tables, own: &ByteMap, one: u8, other: u8) -> bool
    requires own { HasOwnBytes tables.now.states (length tables.now.states) own.now }
    ensures { result ≡ true → AreAlike (graph_of tables.now) one other }
{
    if one == other {
        return true;
    }
    if own.has(one) || own.has(other) {
        return false;
    }
    if !are_same(is_inside(one), is_inside(other)) || !are_same(one == 0, other == 0) {
        return false;
    }
    have_alike(&tables.classes, one, other)
}

// Whether one of some bytes is like another byte.
fn has_alike(tables: &Tables, own: &ByteMap, bytes: &[u8], other: u8) -> bool
    requires own { HasOwnBytes tables.now.states (length tables.now.states) own.now }
    ensures { result ≡ true → (b : ℕ) × Contains bytes.now b × AreAlike (graph_of tables.now) b other }
{
    for byte in bytes {
        if are_alike(tables, own, *byte, other) {
            return true;
        }
    }
    false
}

// Appends a byte to a list, if it is like none of its bytes.
fn put_if_new(
    tables: &Tables,
    own: &ByteMap,
    bytes: &mut Vec<u8>,
    byte: u8,
) -> Result<(), AllocError>
    requires own { HasOwnBytes tables.now.states (length tables.now.states) own.now }
    ensures { OnOk result (GetsLike (graph_of tables.now) bytes.old.items bytes.new.items byte) }
{
    if has_alike(tables, own, bytes, byte) {
        return Ok(());
    }
    bytes.push(byte)?;
    Ok(())
}

// Appends each of `more` to a list that is like none of the bytes before it.
fn put_each_new(
    tables: &Tables,
    own: &ByteMap,
    bytes: &mut Vec<u8>,
    more: &[u8],
) -> Result<(), AllocError>
    requires own { HasOwnBytes tables.now.states (length tables.now.states) own.now }
    ensures { OnOk result (GetsLikeEach (graph_of tables.now) bytes.old.items bytes.new.items more.now) }
{
    for byte in more {
        put_if_new(tables, own, bytes, *byte)?;
    }
    Ok(())
}

/// Bytes that stand for all: each byte is like one of them, and each printable one is like one of them that is printable. The printable ones come
/// first.
///
/// # Errors
///
/// Where memory runs out.
pub fn bytes_for_all(alloc: Global, tables: &Tables) -> Result<Vec<u8>, AllocError>
    requires { AreSound tables.now }
    ensures all { IfOk result (λ bytes. StandForAll (graph_of tables.now) bytes.items) }
    ensures printed { IfOk result (λ bytes. StandForPrinted (graph_of tables.now) bytes.items) }
{
    let own = own_bytes(&tables.states);
    let mut bytes = Vec::new(alloc);
    put_each_new(tables, &own, &mut bytes, PRINTED)?;
    for number in 0..256usize {
        put_if_new(tables, &own, &mut bytes, number as u8)?;
    }
    Ok(bytes)
}
