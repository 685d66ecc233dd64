//! Faults, in words.

ghost use Rattle.std.specs.Prelude.{◌≡◌, ◌++◌, OnOk};
ghost use Rattle.aatry_session_run.specs.Faults.{name_of, told_line, words_of};

use aatry_folder::Fault;
use aatry_report::push_shown;
use std::alloc::AllocError;

/// The words of a fault, which its name follows.
pub fn words_of(fault: &Fault) -> &'static str
    ensures { result.now ≡ words_of fault.now }
{
    match fault {
        Fault::BadArguments => "aatry: bad arguments: see aatry --help",
        Fault::BadQuestion => "aatry: bad question: see aatry why --help, aatry who --help",
        Fault::Unreadable(_) => "aatry: cannot read ",
        Fault::TooMany => "aatry: more than 65,536 files and folders",
        Fault::Compressed(_) => "aatry: compressed by gzip, to be unpacked by zcat first: ",
        Fault::NoMemory => "aatry: no memory",
        Fault::Read => "aatry: read fault",
        Fault::Write => "aatry: write fault",
    }
}

/// The name that follows the words of a fault, as it is kept. It is empty where the fault is about none.
pub fn name_of(fault: &Fault) -> &str
    ensures { result.now ≡ name_of fault.now }
{
    match fault {
        Fault::Unreadable(name) | Fault::Compressed(name) => name.as_str(),
        _ => "",
    }
}

// Appends the line of a fault to a text: its words and its name, as `aatry_report::push_shown` shows it.
pub fn push_told(fault: &Fault, out: &mut Vec<u8>) -> Result<(), AllocError>
    ensures { OnOk result (out.new.items ≡ out.old.items ++ told_line fault.now) }
{
    out.extend_from_slice(words_of(fault).as_bytes())?;
    push_shown(out, name_of(fault).as_bytes())?;
    out.push(b'\n')?;
    Ok(())
}
