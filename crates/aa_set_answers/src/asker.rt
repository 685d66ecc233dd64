//! Askers: tasks that are confined by a loaded profile, a child or a hat, or by nothing.

ghost use Rattle.std.specs.Prelude.{◌≡◌, IfSome};
ghost use Rattle.std.specs.Option.{option_map};
ghost use Rattle.aa_decide.specs.SeenExec.{IsIn, seen_asker};
ghost use Rattle.aa_decide_ready.specs.Slots.{filled};
ghost use Rattle.aa_decide_ready.specs.Confinement.{found};
ghost use Rattle.aa_set_answers.specs.Askers.{asker, confinement};

use aa_decide::{Asker, Confinement, IndexedSlots, find_loaded};

/// The asker of this full name; for the word `unconfined` it is `Some(None)`. `None` where there is no such profile, child or hat. It takes no
/// memory.
pub fn find_asker<'a>(slots: &IndexedSlots<'a>, who: &[u8]) -> Option<Option<Asker<'a>>>
    ensures asker { option_map (option_map seen_asker) result ≡ asker (filled slots.now) who.now }
    ensures there { IfSome result (λ asker. IfSome asker (IsIn slots.now)) }
{
    if who == b"unconfined".as_slice() {
        return Some(None);
    }
    Some(Some(find_loaded(slots, who)?))
}

/// What confines an asker. It takes no memory.
pub fn confinement<'a>(asker: Option<Asker<'a>>) -> Confinement<'a>
    ensures { found result ≡ confinement (option_map seen_asker asker.entry) }
{
    match asker {
        None => Confinement::Unconfined,
        Some(asker) => asker.entry.confinement(asker.child),
    }
}
