//! Numbers of the elements of patterns, by which the state after a beginning is found.

ghost use Rattle.std.specs.Prelude.{◌≡◌, ◌<◌, ◌+◌, ◌++◌, ◌∷◌, [], None, Some, IfOk, IfSome, OnOk};
ghost use Rattle.aa_glob.specs.Numbers.{AreKept, ends_of, first_set, key_of, most_number, number_from, number_of_set};

use aa_bytes::{ByteRange, ByteSet};
use std::alloc::{AllocError, Global};
use std::collections::BTreeMap;
use std::marker::Model;

// The number of the first class that was numbered.
const FIRST_CLASS: u32 = 261;

/// The classes that were numbered.
///
/// Contracts see their keys, in the order of their numbers.
#[derive(Drop)]
pub struct Numbers {
    // The number of each key.
    by_key: BTreeMap<Vec<u8>, u32>,
}

impl Model for Numbers {
    ghost use Rattle.std.specs.Prelude.{ℕ, List};
    ghost use Rattle.aa_glob.specs.code.Numbered.{AreNumbered, keys_in_order};

    ghost Value = { List (List ℕ) };

    ghost view = { λ n. keys_in_order n.by_key.entries };

    ghost invariant = { λ n. AreNumbered n.by_key.entries };
}

impl Numbers {
    /// No class. It takes no memory.
    pub fn new(alloc: Global) -> Numbers
        ensures { result ≡ [] }
    {
        Numbers {
            by_key: BTreeMap::new(alloc),
        }
    }

    /// The number of a set of bytes, which is given one if it has none yet: at least 261 for a class, and below 4,294,967,295.
    ///
    /// # Errors
    ///
    /// Where memory runs out, and where no number is left.
    pub fn of_set(&mut self, alloc: Global, set: &ByteSet) -> Result<u32, AllocError>
        ensures number { IfOk result (λ number. number_of_set self.new set.now ≡ Some number) }
        ensures within { IfOk result (λ number. number < most_number) }
        ensures kept { OnOk result (AreKept self.old self.new) }
    {
        let key = key_of(alloc, set)?;
        match self.known(key.as_slice()) {
            Some(number) => Ok(number),
            None => self.add(key),
        }
    }

    // The number of a key that has one.
    fn known(&self, key: &[u8]) -> Option<u32>
        ensures number { result ≡ number_from first_set key.now self.now }
        ensures within { IfSome result (λ number. number < most_number) }
    {
        self.by_key.get(key).copied()
    }

    // Gives a new key the next number.
    fn add(&mut self, key: Vec<u8>) -> Result<u32, AllocError>
        requires { number_from first_set key.items self.old ≡ None }
        ensures number { IfOk result (λ number. number_from first_set key.items self.new ≡ Some number) }
        ensures within { IfOk result (λ number. number < most_number) }
        ensures kept { OnOk result (AreKept self.old self.new) }
    {
        let number = number_after(self.by_key.len())?;
        self.by_key.insert(key, number)?;
        Ok(number)
    }
}

// The number of the class after so many, if one is left.
fn number_after(count: usize) -> Result<u32, AllocError>
    ensures number { IfOk result (λ number. number ≡ first_set + count) }
    ensures within { IfOk result (λ number. number < most_number) }
{
    match u32::try_from(count) {
        Ok(count) if count < u32::MAX - FIRST_CLASS => Ok(FIRST_CLASS + count),
        _ => Err(AllocError),
    }
}

// Appends the first and the last byte of a range to a key.
fn put_range(key: &mut Vec<u8>, range: ByteRange) -> Result<(), AllocError>
    ensures { OnOk result (key.new.items ≡ key.old.items ++ ends_of (range ∷ [])) }
{
    key.push(range.first)?;
    key.push(range.last)?;
    Ok(())
}

// Appends the first and the last byte of each range to a key.
fn put_ranges(key: &mut Vec<u8>, ranges: &[ByteRange]) -> Result<(), AllocError>
    ensures { OnOk result (key.new.items ≡ key.old.items ++ ends_of ranges.now) }
{
    for range in ranges {
        put_range(key, *range)?;
    }
    Ok(())
}

// The key of a set of bytes: empty for those within a segment; for a class, whether it is negated, and then its ranges.
fn key_of(alloc: Global, set: &ByteSet) -> Result<Vec<u8>, AllocError>
    ensures { IfOk result (λ key. key.items ≡ key_of set.now) }
{
    let mut key = Vec::new(alloc);
    match set {
        ByteSet::Inside => {}
        ByteSet::Class { negated, ranges } => {
            key.push(if *negated { 1 } else { 0 })?;
            put_ranges(&mut key, ranges.as_slice())?;
        }
    }
    Ok(key)
}
