//! A place in the list of the second states of a first one.

ghost use Rattle.std.specs.Prelude.{ℕ, List};
ghost use Rattle.aa_glob_pairs.specs.Places.{StandsAt};

/// A place in the list of the second states of a first one, which is gone through from its beginning. It stays valid when states are appended.
#[derive(Clone, Copy)]
pub struct Place {
    /// How many second states come before it.
    pub index: usize,
    /// The offset of the byte after theirs.
    pub offset: usize,
    /// The last of them, or zero where there is none.
    pub state: u32,
}

impl Place {
    /// The place before all of them.
    pub fn start() -> Place
        ensures { (states : List ℕ) → StandsAt result states }
    {
        Place {
            index: 0,
            offset: 0,
            state: 0,
        }
    }
}
