//! What keeps the program from answering each command: its message on standard error, and the exit status.
ghost use Rattle.std.specs.Prelude.{◌≡◌};
ghost use Rattle.std.specs.IoError.{error_kind};
ghost use Rattle.aaset_program.specs.Fault.{text_of, joined, status_of, fault_of_run, fault_of_words};

use aa_set::RunFault;
use std::io;

/// What keeps the program from answering each command.
#[derive(Drop)]
pub enum Fault {
    /// The arguments ask for something that doesn't exist, or name no file.
    BadArguments,
    /// The first NAME that can't be taken.
    Untaken(String),
    /// Memory ran out before the first command was read.
    NoMemory,
    /// Standard input failed, or hasn't ended after 2,147,483,648 reads.
    Read,
    /// Standard output failed.
    Write,
}

impl From<RunFault> for Fault {
    ghost from_gives = { λ fault given. given ≡ fault_of_run fault };

    fn from(fault: RunFault) -> Fault {
        match fault {
            RunFault::Read => Fault::Read,
            RunFault::Write => Fault::Write,
            RunFault::Memory => Fault::NoMemory,
        }
    }
}

/// The fault where the words that the program was started with can't be had.
pub fn fault_of_words(error: &io::Error) -> Fault
    ensures { result ≡ fault_of_words (error_kind error.now) }
{
    match error.kind() {
        io::ErrorKind::OutOfMemory => Fault::NoMemory,
        _ => Fault::BadArguments,
    }
}

/// The message of a fault on standard error.
#[derive(Clone, Copy)]
pub struct FaultText<'a> {
    /// The words of the fault.
    pub words: &'static str,
    /// The NAME that follows them. It is empty where the fault is about none.
    pub name: &'a str,
}

/// The message of a fault on standard error, without the line's end.
pub fn fault_text(fault: &Fault) -> FaultText<'_>
    ensures { joined result ≡ text_of fault.now }
{
    match fault {
        Fault::BadArguments => plain("aaset: bad arguments"),
        Fault::Untaken(name) => FaultText {
            words: "aaset: cannot take ",
            name: name.as_str(),
        },
        Fault::NoMemory => plain("aaset: no memory"),
        Fault::Read => plain("aaset: read fault"),
        Fault::Write => plain("aaset: write fault"),
    }
}

// A message of words alone.
fn plain<'a>(words: &'static str) -> FaultText<'a>
    ensures { joined result ≡ words.now }
{
    FaultText { words, name: "" }
}

/// The exit status of a fault: 2 where the arguments or a file are no good, and 3 where a stream or memory failed.
pub fn fault_status(fault: &Fault) -> u8
    ensures { result ≡ status_of fault.now }
{
    match fault {
        Fault::BadArguments | Fault::Untaken(_) => 2,
        Fault::NoMemory | Fault::Read | Fault::Write => 3,
    }
}
