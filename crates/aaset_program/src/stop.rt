//! Why the program ends before it reads a command.
ghost use Rattle.std.specs.Prelude.{◌≡◌};
ghost use Rattle.aaset_program.specs.Stop.{stop_at_arguments, stop_at_files};

use crate::fault::Fault;
use aa_start::{ArgumentFault, GatherFault};

/// Why the program ends before it reads a command.
#[derive(Drop)]
pub enum Stop {
    /// Help or the version was asked for, and this is its text.
    Shown(String),
    /// There is nothing to begin with.
    Failed(Fault),
}

impl From<ArgumentFault> for Stop {
    ghost from_gives = { λ fault stop. stop ≡ stop_at_arguments fault };

    fn from(fault: ArgumentFault) -> Stop {
        match fault {
            ArgumentFault::Help(text) | ArgumentFault::Version(text) => Stop::Shown(text),
            ArgumentFault::Bad => Stop::Failed(Fault::BadArguments),
            ArgumentFault::Memory => Stop::Failed(Fault::NoMemory),
        }
    }
}

impl From<GatherFault> for Stop {
    ghost from_gives = { λ fault stop. stop ≡ stop_at_files fault };

    fn from(fault: GatherFault) -> Stop {
        match fault {
            GatherFault::Untaken(name) => Stop::Failed(Fault::Untaken(name)),
            GatherFault::Memory => Stop::Failed(Fault::NoMemory),
        }
    }
}
