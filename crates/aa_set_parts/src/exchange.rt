//! The change that a history keeps of slots.

ghost use Rattle.std.specs.Prelude.{◌≡◌, ◌<◌};
ghost use Rattle.std.specs.List.{All};

use crate::parts::Part;
use crate::slots::Slots;
use aa_history::Change;
use std::alloc::AllocError;
use std::marker::Model;

/// A change that exchanges parts with their slots, one after the other, and becomes the change that undoes it. Entries are moved, and none is
/// copied. Contracts see the parts, and a number that is greater than each of their slots.
pub struct Exchange {
    parts: Vec<Part>,
    reach: usize,
}

impl Drop for Exchange {
    // Proved here, once for all crates that own one.
    fn drop(self) {
        let Exchange { parts, reach: _ } = self;
        drop(parts);
    }
}

impl Model for Exchange {
    ghost use Rattle.std.specs.Prelude.{◌<◌};
    ghost use Rattle.std.specs.List.{All};
    ghost use Rattle.aa_set_parts.specs.Parts.{Reaching};

    ghost Value = { Reaching };

    ghost view = { λ e. record { parts = e.parts.items; reach = e.reach } };

    ghost invariant = { λ e. All (λ part. part.slot < e.reach) e.parts.items };
}

impl Exchange {
    /// The change that exchanges these parts, whose slots are less than `reach`. It takes no memory.
    pub fn of(parts: Vec<Part>, reach: usize) -> Exchange
        requires { All (λ part. part.slot < reach) parts.items }
        ensures { result ≡ record { parts = parts.items; reach = reach } }
    {
        Exchange { parts, reach }
    }
}

impl Change<Slots> for Exchange {
    ghost use Rattle.std.specs.Prelude.{length, refl};
    ghost use Rattle.aa_set_parts.specs.Parts.{after, back};
    ghost use Rattle.aa_set_parts.specs.PartLaws.{length-back, parts-restore, parts-return, same_reaching};
    ghost use Rattle.aa_set_parts.specs.SlotLaws.{trimmed-again};
    ghost use Rattle.aa_set_parts.specs.Slots.{trimmed};

    ghost means = { trimmed };

    ghost room = { λ slots. length slots };

    ghost need = { λ change. change.reach };

    ghost parts = { λ change. length change.parts };

    ghost after = { λ slots change. after slots change.parts };

    ghost back = { λ slots change. record { parts = back slots change.parts; reach = change.reach } };

    ghost returns = { λ slots change. parts-return slots change.parts };

    ghost restores = { λ slots change. same_reaching (parts-restore slots change.parts) };

    ghost settled = { λ slots. trimmed-again slots };

    ghost needs_as_much = { λ slots change. refl };

    ghost has_as_many = { λ slots change. length-back slots change.parts };

    fn prepare(&self, state: &mut Slots) -> Result<(), AllocError> {
        state.grow(self.reach)
    }

    fn turn(&mut self, state: &mut Slots) {
        state.exchange(&mut self.parts);
    }

    fn size(&self) -> usize {
        self.parts.len()
    }
}
