//! What a journal needs of a change.

ghost use Rattle.std.specs.Prelude.{◌≡◌, ◌≤◌, ℕ, OnOk};

use std::alloc::AllocError;

/// A reversible change to a state of type `S`: once made, it becomes the change that undoes it.
///
/// It is made in two steps: `prepare` makes room in the state, which may run out of memory, and `turn` makes the change, which takes none. So a
/// change that was made once can be undone and redone without memory.
///
/// Contracts see two things of a state: what it stands for, `means`, and how much room for changes it has, `room`. What a state stands for is
/// written as a state, so for a type with nothing to leave out `means` is the identity, and for one that takes no memory `room` and `need` are 0.
/// The state after a change is a function `after` of what the state stands for and the change, and so is `back`, the change that undoes it. The five
/// laws at the end are proved of each implementation.
pub trait Change<S>: Drop {
    /// What a state stands for: the state with its room left out.
    ghost means: { S → S };

    /// How much room a state has, in a unit that the implementation chooses.
    ghost room: { S → ℕ };

    /// How much room the change needs, to be made and to be undone, in the same unit.
    ghost need: { Self → ℕ };

    /// How many parts the change has.
    ghost parts: { Self → ℕ };

    /// What the state stands for after the change.
    ghost after: { S → Self → S };

    /// The change afterwards: the one that undoes it.
    ghost back: { S → Self → Self };

    /// Makes the room that the change needs. The state means what it meant, and has no less room.
    ///
    /// # Errors
    ///
    /// `AllocError` where memory runs out. The state still means what it meant, and has no less room.
    fn prepare(&self, state: &mut S) -> Result<(), AllocError>
        ensures same { means state.new ≡ means state.old }
        ensures grows { room state.old ≤ room state.new }
        ensures ok { OnOk result (need self.now ≤ room state.new) };

    /// Makes the change to a state that has the room for it, and turns it into the change that undoes it. It takes no memory, and the state has as
    /// much room afterwards.
    fn turn(&mut self, state: &mut S)
        requires { need self.old ≤ room state.old }
        ensures state { means state.new ≡ after (means state.old) self.old }
        ensures change { self.new ≡ back (means state.old) self.old }
        ensures room { room state.new ≡ room state.old };

    /// How many parts the change has: the measure in which a journal reports how much it keeps.
    fn size(&self) -> usize
        ensures { result ≡ parts self.now };

    /// Turning twice restores what the state stands for.
    ghost returns: { (state : S) (change : Self) → after (after state change) (back state change) ≡ means state };

    /// Turning twice restores the change.
    ghost restores: { (state : S) (change : Self) → back (after state change) (back state change) ≡ change };

    /// What a state stands for stands for itself.
    ghost settled: { (state : S) → means (means state) ≡ means state };

    /// The change that undoes it needs as much room.
    ghost needs_as_much: { (state : S) (change : Self) → need (back state change) ≡ need change };

    /// The change that undoes it has as many parts.
    ghost has_as_many: { (state : S) (change : Self) → parts (back state change) ≡ parts change };
}
