//! The walk over the text of another pattern, through the automaton so far.

ghost use Rattle.std.specs.Prelude.{◌≡◌, IfOk, Ok};
ghost use Rattle.aa_glob.specs.code.Followed.{IsGrown, LeadsToEnd};
ghost use Rattle.aa_glob_syntax.specs.Reading.{items_of, reading};

use crate::growing::Growing;
use crate::walk::Walk;
use aa_glob_pattern::{Elements, which_elements_stand};
use std::alloc::{AllocError, Global};

impl Growing {
    /// Follows the elements of a text that reads as a pattern, adding the states that aren't there yet, and returns the state of its end.
    ///
    /// # Errors
    ///
    /// Where memory runs out, and where there are too many states to be numbered.
    pub fn follow(&mut self, alloc: Global, text: &[u8]) -> Result<u32, AllocError>
        requires reads { reading text.now ≡ Ok (items_of text.now) }
        requires grown { IsGrown self.old }
        ensures { IfOk result (λ state. LeadsToEnd self.old text.now self.new state) }
    {
        which_elements_stand();
        let mut walk = Walk::new(alloc);
        let mut elements = Elements::of(text);
        while let Some(element) = elements.next() {
            self.go_on(alloc, &mut walk, element)?;
        }
        Ok(walk.state())
    }
}
