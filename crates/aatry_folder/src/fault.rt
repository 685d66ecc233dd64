//! What keeps the program from doing what it is asked for.

ghost use Rattle.std.specs.Prelude.{◌≡◌};
ghost use Rattle.aatry_folder.specs.Faults.{fault_of_files, fault_of_folder};
ghost use Rattle.aatry_folder.specs.declared.fault.Fault.TheVariants as fault;

use crate::below::FolderFault;
use aa_start::GatherFault;
use std::alloc::AllocError;

/// What keeps the program from doing what it is asked for. Reading a folder of policy or a file fails only with `Unreadable`, `TooMany` and
/// `NoMemory`; the other faults are those of the commands and of the program, which reports all of them alike.
#[derive(Drop)]
pub enum Fault {
    /// The arguments ask for something that doesn't exist.
    BadArguments,
    /// The words after a command make no question.
    BadQuestion,
    /// The first file or folder that can't be read, by its name below the folder of policy, and that folder or a transcript by its path.
    Unreadable(String),
    /// There are more than 65,536 files and folders below the folder of policy.
    TooMany,
    /// A log that gzip wrote, by its path, or `-` for standard input.
    Compressed(String),
    /// Memory ran out.
    NoMemory,
    /// Standard input failed, or didn't end.
    Read,
    /// Standard output failed.
    Write,
}

impl From<FolderFault> for Fault {
    ghost from_gives = { λ given fault. fault ≡ fault_of_folder given };

    fn from(fault: FolderFault) -> Fault {
        match fault {
            FolderFault::Unreadable(name) => Fault::Unreadable(name),
            FolderFault::TooMany => Fault::TooMany,
            FolderFault::Memory => Fault::NoMemory,
        }
    }
}

impl From<GatherFault> for Fault {
    ghost from_gives = { λ given fault. fault ≡ fault_of_files given };

    fn from(fault: GatherFault) -> Fault {
        match fault {
            GatherFault::Untaken(name) => Fault::Unreadable(name),
            GatherFault::Memory => Fault::NoMemory,
        }
    }
}

impl From<AllocError> for Fault {
    ghost from_gives = { λ _ told. told ≡ fault.NoMemory };

    fn from(_: AllocError) -> Fault {
        Fault::NoMemory
    }
}
