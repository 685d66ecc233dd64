//! Work on slots for questions, which changes nothing of the policy set.

use crate::slots::Slots;
use aa_history::Tend;

/// Remembers which states are live at the places of a path, for the profile in a slot or for its child or hat at an index.
#[derive(Clone, Copy)]
pub struct Remembering<'a> {
    /// The slot.
    pub slot: usize,
    /// The index of the child or hat; `None` where it is the profile itself.
    pub child: Option<usize>,
    /// The path.
    pub path: &'a [u8],
    /// The fingerprint of the question.
    pub fingerprint: u32,
}

/// Makes indices of names, and of attachments if these are looked up (`Slots::index`).
#[derive(Clone, Copy)]
pub struct Indexing {
    /// Whether attachments are looked up.
    pub attachments: bool,
}

impl Tend<Slots> for Indexing {
    ghost use Rattle.std.specs.Prelude.{length};
    ghost use Rattle.aa_set_parts.specs.Slots.{trimmed};

    ghost kept = { trimmed };

    ghost room = { λ slots. length slots };

    fn tend(&self, state: &mut Slots) {
        state.index(self.attachments);
    }
}

impl Tend<Slots> for Remembering<'_> {
    ghost use Rattle.std.specs.Prelude.{length};
    ghost use Rattle.aa_set_parts.specs.Slots.{trimmed};

    ghost kept = { trimmed };

    ghost room = { λ slots. length slots };

    fn tend(&self, state: &mut Slots) {
        state.remember(self.slot, self.child, self.path, self.fingerprint);
    }
}
