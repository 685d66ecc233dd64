//! Faults of the commands whose words are read like those after `check`.
ghost use Rattle.aatry_arguments.specs.Given.{IsHelp, IsPassedOn};

use aa_start::ArgumentFault;
use std::alloc::Global;

/// Help, with this text; `Memory` where memory ran out.
pub fn help_with(alloc: Global, text: &str) -> ArgumentFault
    ensures { IsHelp result }
{
    match String::from_str(alloc, text) {
        Ok(text) => ArgumentFault::Help(text),
        Err(_) => ArgumentFault::Memory,
    }
}

/// The fault of another command, from the fault of a check: in place of help it is that command's own, with this text.
pub fn passed_on(alloc: Global, fault: ArgumentFault, text: &str) -> ArgumentFault
    ensures { IsPassedOn fault result }
{
    match fault {
        ArgumentFault::Help(_) => help_with(alloc, text),
        fault => fault,
    }
}
