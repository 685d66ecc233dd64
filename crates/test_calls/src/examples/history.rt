//! A journal over a change of one's own: a number takes another's place.

use aa_history::{Change, Journal};
use std::alloc::{AllocError, Global};
use std::mem;

// The change of a number to this one.
#[derive(Drop)]
struct To(u64);

impl Change<u64> for To {
    ghost use Rattle.std.specs.Prelude.{refl};

    // A number stands for itself, and needs no room.
    ghost means = { λ state. state };

    ghost room = { λ state. 0 };

    ghost need = { λ change. 0 };

    ghost parts = { λ change. 1 };

    // The two numbers trade places, so that turned twice it gives back both.
    ghost after = { λ state change. change.0 };

    ghost back = { λ state change. record change { 0 = state } };

    fn prepare(&self, _state: &mut u64) -> Result<(), AllocError> {
        Ok(())
    }

    fn turn(&mut self, state: &mut u64) {
        mem::swap(&mut self.0, state);
    }

    fn size(&self) -> usize {
        1
    }

    ghost returns = { λ state change. refl };

    ghost restores = { λ state change. refl };

    ghost settled = { λ state. refl };

    ghost needs_as_much = { λ state change. refl };

    ghost has_as_many = { λ state change. refl };
}

/// The number behind two changes, of which the last is undone.
pub fn number_after_undo(alloc: Global) -> Option<u64> {
    let mut journal = Journal::new(alloc, 1);
    journal.commit(To(2)).ok()?;
    journal.commit(To(3)).ok()?;
    journal.undo(1).ok()?;
    Some(*journal.state())
}

/// The number that was marked, which is gone back to after later changes were undone and redone.
pub fn number_at_mark(alloc: Global) -> Option<u64> {
    let mut journal = Journal::new(alloc, 1);
    journal.commit(To(2)).ok()?;
    journal.mark(Vec::from_slice(alloc, b"two").ok()?).ok()?;
    journal.commit(To(3)).ok()?;
    journal.undo(2).ok()?;
    journal.redo(2).ok()?;
    journal.back(b"two").ok()?;
    Some(*journal.state())
}
