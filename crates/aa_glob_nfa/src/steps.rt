//! How much work a run was.

ghost use Rattle.std.specs.Prelude.{◌≡◌, ◌*◌};
ghost use Rattle.aa_glob_nfa.specs.Steps.{counted};

use std::marker::Model;

/// A count of steps, each of which is a visit of one state at one place of a text. It saturates at `u128::MAX`.
#[derive(Debug, Drop)]
pub struct Steps {
    count: u128,
}

impl Model for Steps {
    ghost use Rattle.std.specs.Prelude.{ℕ};

    ghost Value = { ℕ };

    ghost view = { λ s. s.count };
}

impl Steps {
    /// A count of zero.
    pub fn new() -> Steps
        ensures { result ≡ 0 }
    {
        Steps { count: 0 }
    }

    /// How many steps were counted: `u128::MAX` stands for so many or more.
    pub fn count(&self) -> u128
        ensures { result ≡ self.now }
    {
        self.count
    }

    /// A copy of the count.
    pub fn as_many(&self) -> Steps
        ensures { result ≡ self.now }
    {
        Steps { count: self.count }
    }

    /// Adds so many visits to the count, which saturates.
    pub fn visited(&mut self, states: usize)
        ensures { self.new ≡ counted self.old states }
    {
        self.count = self.count.saturating_add(states as u128);
    }

    /// Adds the visits of so many states at each of so many places to the count, which saturates.
    pub fn visited_at(&mut self, states: usize, places: usize)
        ensures { self.new ≡ counted self.old (states * places) }
    {
        self.count = self.count.saturating_add(states as u128 * places as u128);
    }
}
