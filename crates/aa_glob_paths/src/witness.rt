//! A text after which a set is live.

ghost use Rattle.std.specs.Prelude.{◌<◌, ℕ, length, reverse, IfOk};
ghost use Rattle.aa_glob_nfa.specs.Graphs.{AreBytes, Graph};
ghost use Rattle.aa_glob_nfa.specs.Runs.{IsWhole};
ghost use Rattle.aa_glob_paths.specs.Found.{AreFound, IsFoundBehind, set_at};

use crate::sets::Sets;
use std::alloc::{AllocError, Global};

impl Sets {
    /// The text by which the set of a number was found. It is one of the shortest of all texts that lead to the set.
    ///
    /// # Errors
    ///
    /// Where memory runs out.
    pub fn text(&self, alloc: Global, number: usize) -> Result<Vec<u8>, AllocError>
        requires found { (g : Graph) × (room : ℕ) × AreFound g room self.now }
        requires within { number < length self.now }
        ensures behind { IfOk result (λ text. IsFoundBehind self.now number (reverse text.items)) }
        ensures bytes { IfOk result (λ text. AreBytes text.items) }
        ensures leads { IfOk result (λ text. (g : Graph) (room : ℕ) → AreFound g room self.now → IsWhole g (reverse text.items) (set_at self.now number)) }
    {
        let mut text = Vec::new(alloc);
        let mut at = number;
        while at > 0 {
            let origin = self.origin(at);
            text.push(origin.byte)?;
            at = origin.from;
        }
        text.reverse();
        Ok(text)
    }
}
