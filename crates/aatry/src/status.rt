//! The exit status.

ghost use Rattle.std.specs.Prelude.{◌≡◌};
ghost use Rattle.std.specs.IoError.{error_kind};
ghost use Rattle.aatry.specs.Status.{failure_status, fault_of_words, paths_status, status_of};

use aatry_folder::Fault;
use std::io;

// The exit status of a command, by how much of it failed.
pub fn failure_status(failed: usize) -> u8
    ensures { result ≡ failure_status failed }
{
    if failed == 0 { 0 } else { 1 }
}

// The exit status of a question about all paths, by how much of it failed, and whether nothing is known of somebody.
pub fn paths_status(failed: usize, undecided: bool) -> u8
    ensures { result ≡ paths_status failed undecided }
{
    if failed == 0 && undecided {
        3
    } else {
        failure_status(failed)
    }
}

// The exit status of a fault.
pub fn status_of(fault: &Fault) -> u8
    ensures { result ≡ status_of fault.now }
{
    match fault {
        Fault::BadArguments
        | Fault::BadQuestion
        | Fault::Unreadable(_)
        | Fault::TooMany
        | Fault::Compressed(_) => 2,
        Fault::NoMemory | Fault::Read | Fault::Write => 3,
    }
}

/// The fault where the words that the program was started with can't be had.
pub fn fault_of_words(error: &io::Error) -> Fault
    ensures { result ≡ fault_of_words (error_kind error.now) }
{
    match error.kind() {
        io::ErrorKind::OutOfMemory => Fault::NoMemory,
        _ => Fault::BadArguments,
    }
}
