//! Policy sets: profiles in the order in which they were loaded.

ghost use Rattle.std.specs.Prelude.{◌≡◌, true};
ghost use Rattle.aa_decide_ready.specs.Named.{have_distinct_names};
ghost use Rattle.aa_decide_ready.specs.Slots.{filled};

use aa_decide_ready::IndexedSlots;
use aa_set_parts::Slots;
use std::marker::Model;

/// A policy set: loaded profiles in the order in which they were loaded, no two of one name. It borrows the slots that hold them. Contracts see the
/// list of its entries.
#[derive(Drop)]
pub struct PolicySet<'a> {
    slots: &'a Slots,
}

impl<'a> Model for PolicySet<'a> {
    ghost use Rattle.std.specs.Prelude.{List, IsTrue};
    ghost use Rattle.aa_decide_ready.specs.Entries.{Loaded};
    ghost use Rattle.aa_decide_ready.specs.Named.{have_distinct_names};
    ghost use Rattle.aa_decide_ready.specs.Slots.{filled};

    ghost Value = { List Loaded };

    ghost view = { λ s. filled s.slots.now };

    ghost invariant = { λ s. IsTrue (have_distinct_names (filled s.slots.now)) };
}

impl<'a> PolicySet<'a> {
    /// The policy set in these slots. It takes no memory.
    pub fn of(slots: &'a Slots) -> PolicySet<'a>
        requires { have_distinct_names (filled slots.now) ≡ true }
        ensures { result ≡ filled slots.now }
    {
        PolicySet { slots }
    }

    /// The slots of the policy set: the filled ones hold its entries, in the order in which they were loaded. No two have one name. It takes no
    /// memory.
    pub fn slots(&self) -> IndexedSlots<'a>
        ensures entries { filled result ≡ self.now }
        ensures distinct { have_distinct_names (filled result) ≡ true }
    {
        self.slots.indexed()
    }
}
