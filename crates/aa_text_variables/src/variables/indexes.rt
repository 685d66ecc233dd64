//! Variables by their indices: how many others were defined before each.

ghost use Rattle.std.specs.Prelude.{◌≡◌, ◌<◌, ◌++◌, length, IfSome};
ghost use Rattle.aa_text_variables.specs.code.VariableIndexes.{index_of, words_at};

use crate::variables::Variables;
use aa_bytes::Sequence;

impl Variables {
    // The index of a name's variable.
    pub(super) fn index_of(&self, name: &[u8]) -> Option<usize>
        ensures value { result ≡ index_of self.now name.now }
        ensures within { IfSome result (λ index. index < length self.now) }
    {
        self.places.get(name).copied()
    }

    // The words of the variable at an index: those of its first `=`, and those that were appended.
    pub(super) fn words(&self, index: usize) -> (&[Sequence<u8>], &[Sequence<u8>])
        ensures { result.0.now ++ result.1.now ≡ words_at self.now index }
    {
        match self.entries.get(index) {
            Some((_, values)) => (values.defined.as_slice(), values.added.as_slice()),
            None => (&[], &[]),
        }
    }
}
