//! The variables that a text leads to.

ghost use Rattle.std.specs.Prelude.{◌≡◌, ◌≢◌, ◌<◌, ◌-◌, ◌^◌, [], true, false, slice_get, None, IfSome, IfOk, IfErr, OnOk};
ghost use Rattle.std.specs.List.{list_any};
ghost use Rattle.aa_text_variables.specs.Expansions.{leads_to_undefined};
ghost use Rattle.aa_text_variables.specs.code.ReachedVariables.{SaysUndefined, indexes_in, indexes_within};
ghost use Rattle.aa_text_expansion.specs.Numbers.{with_indexes};
ghost use Rattle.aa_text_variables.specs.code.VariableIndexes.{words_at};
ghost use Rattle.aa_text_variables.specs.Variables.{are_variables, names_undefined};
ghost use Rattle.aa_text_files.specs.declared.text_error.TextRefusal.TheVariants.{Memory};

use crate::variables::Variables;
use aa_bytes::Sequence;
use aa_text_expansion::{gather_numbers, gather_numbers_within};
use aa_text_files::{TextError, TextRefusal, plain};
use indexmap::IndexSet;
use std::alloc::AllocError;

// The index at a position in the set.
pub(super) fn gathered(reached: &IndexSet<usize>, at: usize) -> Option<usize>
    ensures value { result ≡ slice_get reached.now.keys at }
    ensures fits { IfSome result (λ index. at < 2 ^ 64 - 1) }
{
    reached.as_slice().get(at).copied()
}

impl Variables {
    // Adds the indices of the variables that a text names, as far as they are defined, to a set.
    pub(super) fn note(&self, text: &[u8], reached: &mut IndexSet<usize>) -> Result<(), AllocError>
        ensures { OnOk result (reached.new.keys ≡ with_indexes reached.old.keys (indexes_in self.now text.now)) }
    {
        gather_numbers(text, |name| self.index_of(name), reached)
    }

    // Adds the indices of the variables that the words of the variable at an index name, as far as they are defined, to a set.
    pub(super) fn note_words(
        &self,
        index: usize,
        reached: &mut IndexSet<usize>,
    ) -> Result<(), AllocError>
        ensures { OnOk result (reached.new.keys ≡ with_indexes reached.old.keys (indexes_within self.now (words_at self.now index))) }
    {
        let (defined, added) = self.words(index);
        self.note_all(defined, reached)?;
        self.note_all(added, reached)
    }

    // Adds the indices of the variables that words name, as far as they are defined, to a set.
    fn note_all(
        &self,
        words: &[Sequence<u8>],
        reached: &mut IndexSet<usize>,
    ) -> Result<(), AllocError>
        ensures { OnOk result (reached.new.keys ≡ with_indexes reached.old.keys (indexes_within self.now words.now)) }
    {
        gather_numbers_within(words, |name| self.index_of(name), reached)
    }

    // Whether a word of the variable at an index names a variable that isn't defined, or doesn't close a name.
    pub(super) fn undefined_at(&self, index: usize) -> bool
        ensures { result ≡ list_any (names_undefined self.now) (words_at self.now index) }
    {
        let (defined, added) = self.words(index);
        self.are_undefined(defined) || self.are_undefined(added)
    }

    // Whether one of some words names a variable that isn't defined, or doesn't close a name.
    fn are_undefined(&self, words: &[Sequence<u8>]) -> bool
        ensures { result ≡ list_any (names_undefined self.now) words.now }
    {
        for word in words {
            if self.undefined(word.as_slice()) {
                return true;
            }
        }
        false
    }

    // Refuses a text that leads to a name that isn't defined or isn't closed: it looks at all variables that the text leads to.
    pub(super) fn refuse_undefined(&self, text: &[u8]) -> Result<(), TextError>
        ensures variables { OnOk result (are_variables self.now ≡ true) }
        ensures defined { OnOk result (leads_to_undefined self.now text.now ≡ false) }
        ensures refused { IfErr result (λ e. e.refusal ≢ Memory → SaysUndefined e.refusal (leads_to_undefined self.now text.now)) }
        ensures place { IfErr result (λ e. e.place ≡ None) }
    {
        if self.leads_to_undefined(text)? {
            return Err(plain(TextRefusal::Undefined));
        }
        self.lawful();
        Ok(())
    }

    // Whether a text leads to a name that isn't defined or isn't closed.
    fn leads_to_undefined(&self, text: &[u8]) -> Result<bool, AllocError>
        ensures { IfOk result (λ found. leads_to_undefined self.now text.now ≡ found) }
    {
        if self.undefined(text) {
            return Ok(true);
        }
        let mut reached = IndexSet::new(*self.entries.allocator());
        self.reaches_undefined(text, &mut reached)
    }

    // Whether a text that itself names nothing undefined leads to a name that isn't defined or isn't closed. Adds the variables that it looks at to
    // a set.
    fn reaches_undefined(
        &self,
        text: &[u8],
        reached: &mut IndexSet<usize>,
    ) -> Result<bool, AllocError>
        requires nothing { reached.old.keys ≡ [] }
        requires defined { names_undefined self.now text.now ≡ false }
        ensures { IfOk result (λ found. leads_to_undefined self.now text.now ≡ found) }
    {
        self.note(text, reached)?;
        let mut at = 0;
        while let Some(index) = gathered(reached, at) {
            if self.undefined_at(index) {
                return Ok(true);
            }
            self.note_words(index, reached)?;
            at += 1;
        }
        Ok(false)
    }
}
