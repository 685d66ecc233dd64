//! Work on a state that changes nothing of what it stands for.

ghost use Rattle.std.specs.Prelude.{◌≡◌, ℕ};

/// Work on a state of type `S` that changes neither what it stands for nor the room that it has, as building an index in it.
pub trait Tend<S> {
    /// What a state stands for.
    ghost kept: { S → S };

    /// How much room a state has.
    ghost room: { S → ℕ };

    /// Does the work.
    fn tend(&self, state: &mut S)
        ensures kept { kept state.new ≡ kept state.old }
        ensures room { room state.new ≡ room state.old };
}
