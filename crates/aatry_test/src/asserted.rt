//! The outcome of the assertions of a transcript.

ghost use Rattle.std.specs.Prelude.{◌≡◌};
ghost use Rattle.aatry_test.specs.Running.{nothing_asserted, seen_asserted};

use std::alloc::Global;

/// The outcome of assertions.
#[derive(Drop)]
pub struct Asserted {
    /// The report on those that don't hold.
    pub text: Vec<u8>,
    /// How many they are.
    pub failing: usize,
}

impl Asserted {
    /// The outcome of no assertions. It takes no memory.
    pub fn new(alloc: Global) -> Asserted
        ensures { seen_asserted result ≡ nothing_asserted }
    {
        Asserted {
            text: Vec::new(alloc),
            failing: 0,
        }
    }
}
