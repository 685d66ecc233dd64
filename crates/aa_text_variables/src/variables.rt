//! The variables that a profile file defines, by name.

ghost use Rattle.std.specs.Prelude.{◌≡◌, ◌≢◌, ◌<◌, ◌++◌, ◌∷◌, [], true, false, length, map, Ok, Err, None, IfOk, IfErr, OnOk, OnErr};
ghost use Rattle.std.specs.Prelude.{option_map, slice_get};
ghost use Rattle.aa_text_variables.specs.Variables.{after_append, after_define, is_defined, named, names_undefined, same_texts};
ghost use Rattle.aa_text_files.specs.declared.text_error.TextRefusal.TheVariants.{Memory};
ghost use Rattle.aa_text_variables.specs.code.VariablesMap.{IsPlaced, as_variable};

use aa_bytes::Sequence;
use aa_text_expansion::has_missing;
use aa_text_files::{TextError, TextRefusal, plain};
use std::alloc::{AllocError, Global};
use std::collections::BTreeMap;
use std::marker::Model;

// The values of a variable: the words of its first `=`, and those that `+=` appended.
#[derive(Drop)]
struct Values {
    defined: Sequence<Sequence<u8>>,
    added: Sequence<Sequence<u8>>,
}

/// Variables in the order of their first definitions.
///
/// No name comes twice, and each variable has at least one word.
#[derive(Drop)]
pub struct Variables {
    // Their names and values.
    entries: Vec<(Vec<u8>, Values)>,
    // The index of the variable of each name.
    places: BTreeMap<Vec<u8>, usize>,
}

impl Model for Variables {
    ghost use Rattle.std.specs.Prelude.{List};
    ghost use Rattle.aa_text_variables.specs.Variables.{Variable};
    ghost use Rattle.aa_text_variables.specs.code.VariablesMap.{AreKept, as_variables};

    ghost Value = { List Variable };

    ghost view = { λ v. as_variables v.entries.items };

    ghost invariant = { λ v. AreKept v.entries.items v.places.entries };
}

// Appends a copy of a word to a list.
fn push_copy(copies: &mut Vec<Sequence<u8>>, word: &[u8]) -> Result<(), AllocError>
    ensures { OnOk result (copies.new.items ≡ copies.old.items ++ word.now ∷ []) }
{
    let copy = Sequence::from_slice(*copies.allocator(), word)?;
    copies.push(copy)?;
    Ok(())
}

// Copies of words.
fn copied_words(alloc: Global, words: &[&[u8]]) -> Result<Sequence<Sequence<u8>>, AllocError>
    ensures { IfOk result (λ copies. copies ≡ map (λ w. w.now) words.now) }
{
    let mut copies = Vec::with_capacity(alloc, words.len())?;
    for word in words {
        push_copy(&mut copies, word)?;
    }
    Ok(Sequence::from_vec(copies))
}

// An entry for a name with copies of these words, and nothing appended yet.
fn entry_of(alloc: Global, name: &[u8], words: &[&[u8]]) -> Result<(Vec<u8>, Values), AllocError>
    ensures { IfOk result (λ entry. as_variable entry ≡ record { name = name.now; defined = map (λ w. w.now) words.now; added = [] }) }
{
    let defined = copied_words(alloc, words)?;
    let name = Vec::from_slice(alloc, name)?;
    Ok((
        name,
        Values {
            defined,
            added: Sequence::new(alloc),
        },
    ))
}

// Adds the index of a name's variable.
fn put(
    alloc: Global,
    places: &mut BTreeMap<Vec<u8>, usize>,
    name: &[u8],
    place: usize,
) -> Result<(), AllocError>
    ensures ok { OnOk result (IsPlaced name.now place places.old.entries places.new.entries) }
    ensures unchanged { OnErr result (places.new.entries ≡ places.old.entries) }
{
    let key = Vec::from_slice(alloc, name)?;
    places.insert(key, place)?;
    Ok(())
}

// Whether two lists have the same words, in the same order.
fn are_same(words: &[&[u8]], others: &[Sequence<u8>]) -> bool
    ensures { result ≡ same_texts (map (λ w. w.now) words.now) others.now }
{
    let mut rest = others;
    for word in words {
        match rest {
            [other, more @ ..] => {
                if *word != other.as_slice() {
                    return false;
                }
                rest = more;
            }
            [] => return false,
        }
    }
    rest.is_empty()
}

impl Variables {
    /// No variables, with an allocator from which each later one takes memory. It takes none itself.
    pub fn new(alloc: Global) -> Variables
        ensures { result ≡ [] }
    {
        Variables {
            entries: Vec::new(alloc),
            places: BTreeMap::new(alloc),
        }
    }

    /// The name of the variable at an index, in the order of first definitions, or `None` where none has this index. It takes no memory; `O(1)`.
    pub fn name(&self, index: usize) -> Option<&[u8]>
        ensures { option_map (λ name. name.now) result ≡ option_map (λ variable. variable.name) (slice_get self.now index) }
    {
        match self.entries.get(index) {
            Some((name, _)) => Some(name.as_slice()),
            None => None,
        }
    }

    /// What `=` does: defines a variable with copies of these words, after those that are there.
    ///
    /// Where the variable is defined with the same words already, nothing changes, whatever was appended to it.
    ///
    /// # Errors
    ///
    /// The first of these that applies, without a place. The variables are then unchanged.
    /// - `Redefined`: the variable is defined with other words.
    /// - `Memory`: memory ran out for a variable that isn't defined.
    pub fn define(&mut self, name: &[u8], words: &[&[u8]]) -> Result<(), TextError>
        requires { 0 < length words.now }
        ensures ok { OnOk result (after_define self.old name.now (map (λ w. w.now) words.now) ≡ Ok self.new) }
        ensures refused { IfErr result (λ e. e.refusal ≢ Memory → after_define self.old name.now (map (λ w. w.now) words.now) ≡ Err e.refusal) }
        ensures memory { IfErr result (λ e. e.refusal ≡ Memory → is_defined name.now self.old ≡ false) }
        ensures place { IfErr result (λ e. e.place ≡ None) }
        ensures unchanged { OnErr result (self.new ≡ self.old) }
    {
        match self.index_of(name) {
            Some(index) => {
                let (_, values) = &self.entries[index];
                if !are_same(words, values.defined.as_slice()) {
                    return Err(plain(TextRefusal::Redefined));
                }
                Ok(())
            }
            None => self.define_new(name, words),
        }
    }

    // Defines a variable that isn't there.
    fn define_new(&mut self, name: &[u8], words: &[&[u8]]) -> Result<(), TextError>
        requires new { named name.now self.old ≡ None }
        requires some { 0 < length words.now }
        ensures ok { OnOk result (self.new ≡ self.old ++ record { name = name.now; defined = map (λ w. w.now) words.now; added = [] } ∷ []) }
        ensures memory { IfErr result (λ e. e.refusal ≡ Memory) }
        ensures place { IfErr result (λ e. e.place ≡ None) }
        ensures unchanged { OnErr result (self.new ≡ self.old) }
    {
        let alloc = *self.entries.allocator();
        let entry = entry_of(alloc, name, words)?;
        let place = self.entries.len();
        self.entries.push(entry)?;
        match put(alloc, &mut self.places, name, place) {
            Ok(()) => Ok(()),
            Err(_) => {
                self.entries.pop();
                Err(plain(TextRefusal::Memory))
            }
        }
    }

    /// What `+=` does: appends copies of these words to those of a variable.
    ///
    /// # Errors
    ///
    /// The first of these that applies, without a place. The variables are then unchanged.
    /// - `AppendUndefined`: the variable isn't defined.
    /// - `Memory`: memory ran out for the words of one that is.
    pub fn append(&mut self, name: &[u8], words: &[&[u8]]) -> Result<(), TextError>
        requires { 0 < length words.now }
        ensures ok { OnOk result (after_append self.old name.now (map (λ w. w.now) words.now) ≡ Ok self.new) }
        ensures refused { IfErr result (λ e. e.refusal ≢ Memory → after_append self.old name.now (map (λ w. w.now) words.now) ≡ Err e.refusal) }
        ensures memory { IfErr result (λ e. e.refusal ≡ Memory → is_defined name.now self.old ≡ true) }
        ensures place { IfErr result (λ e. e.place ≡ None) }
        ensures unchanged { OnErr result (self.new ≡ self.old) }
    {
        let Some(index) = self.index_of(name) else {
            return Err(plain(TextRefusal::AppendUndefined));
        };
        let more = copied_words(*self.entries.allocator(), words)?;
        self.entries[index].1.added.append(more)?;
        Ok(())
    }

    /// Whether a text itself names a variable that isn't defined, or doesn't close a name. It takes no memory.
    pub fn undefined(&self, text: &[u8]) -> bool
        ensures { result ≡ names_undefined self.now text.now }
    {
        has_missing(text, |name| self.index_of(name).is_none())
    }
}

mod column;
mod count;
mod expand;
mod indexes;
mod order;
mod plain;
mod reached;
mod table;
mod walk;

pub use table::ExpansionTable;
