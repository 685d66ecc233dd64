//! States and numbers of the elements of patterns.

ghost use Rattle.std.specs.Prelude.{◌≡◌, ℕ, ◌<◌, ◌^◌, ◌==◌, ◌&&◌, ◌||◌, length, Some, IfOk, OnOk};
ghost use Rattle.aa_bytes.specs.ByteSets.{has};
ghost use Rattle.aa_glob.specs.Numbers.{AreKept, most_number, number_of};
ghost use Rattle.aa_glob.specs.Drawn.{Suits};
ghost use Rattle.aa_glob_syntax.specs.Cursor.{meaning};
ghost use Rattle.aa_bytes.specs.ByteMaps.{in_map};
ghost use Rattle.aa_glob_nfa.specs.Graphs.{with_entry};
ghost use Rattle.aa_glob_nfa.specs.declared.entry.Entry.{Entry};

use crate::numbers::Numbers;
use aa_bytes::{ByteMap, ByteSet};
use aa_glob_nfa::Entry;
use aa_glob_run::Drawing;
use aa_glob_syntax::Element;
use std::alloc::{AllocError, Global};

// Adds a byte to a map, if the set has it.
fn put_if_had(map: &mut ByteMap, set: &ByteSet, byte: u8)
    ensures { (other : ℕ) → in_map map.new other ≡ (other == byte && has set.now byte || in_map map.old other) }
{
    if set.has(byte) {
        map.insert(byte);
    }
}

// A set of bytes as a map.
fn map_of(set: &ByteSet) -> ByteMap
    ensures { (byte : ℕ) → byte < 2 ^ 8 → in_map result byte ≡ has set.now byte }
{
    let mut map = ByteMap::new();
    for byte in 0..255 {
        put_if_had(&mut map, set, byte);
    }
    put_if_had(&mut map, set, 255);
    map
}

/// Adds a state that is entered by an element, and returns its number: how many there were before.
///
/// # Errors
///
/// Where memory runs out, and where there are 4,294,967,295 states already.
pub fn add_state(
    drawing: &mut Drawing,
    alloc: Global,
    element: Element<'_>,
) -> Result<u32, AllocError>
    ensures number { IfOk result (λ number. number ≡ length drawing.old.entries) }
    ensures added { OnOk result ((entry : Entry) × Suits (meaning element.entry) entry × (drawing.new ≡ with_entry entry drawing.old)) }
{
    match element {
        Element::Byte(byte) => drawing.add(Entry::Byte(byte)),
        Element::Inside => drawing.add(Entry::Inside),
        Element::Class(class) => {
            let map = map_of(&class.set(alloc)?);
            drawing.add(Entry::Class(map))
        }
        Element::Star => drawing.add(Entry::Star),
        Element::DoubleStar => drawing.add(Entry::DoubleStar),
        Element::Open | Element::Comma | Element::Close => drawing.add(Entry::Free),
    }
}

/// The number of an element: below 4,294,967,295.
///
/// # Errors
///
/// Where memory runs out, and where no number is left.
pub fn number_of(
    numbers: &mut Numbers,
    alloc: Global,
    element: Element<'_>,
) -> Result<u32, AllocError>
    ensures number { IfOk result (λ number. number_of numbers.new (meaning element.entry) ≡ Some number) }
    ensures within { IfOk result (λ number. number < most_number) }
    ensures kept { OnOk result (AreKept numbers.old numbers.new) }
{
    Ok(match element {
        Element::Byte(byte) => byte as u32,
        Element::Inside => numbers.of_set(alloc, &ByteSet::Inside)?,
        Element::Class(class) => numbers.of_set(alloc, &class.set(alloc)?)?,
        Element::Star => 256,
        Element::DoubleStar => 257,
        Element::Open => 258,
        Element::Comma => 259,
        Element::Close => 260,
    })
}
