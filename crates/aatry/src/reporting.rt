//! Faults, reported on standard error.

ghost use Rattle.std.specs.Prelude.{◌≡◌};
ghost use Rattle.aatry.specs.Status.{status_of};

use crate::status::status_of;
use aa_set_commands::{Failed, Sink, write_all};
use aatry_folder::Fault;
use aatry_report::push_shown;
use aatry_session_run::{name_of, words_of};
use std::alloc::Global;

// The name that a fault is about, as it is shown; a beginning of it where memory runs out.
fn shown_name(alloc: Global, told: &Fault) -> Vec<u8> {
    let mut name = Vec::new(alloc);
    let _ = push_shown(&mut name, name_of(told).as_bytes());
    name
}

// Writes what is told of a fault on a line of its own.
fn write_fault<E: Sink>(alloc: Global, errors: &mut E, told: &Fault) -> Result<(), Failed> {
    write_all(errors, words_of(told).as_bytes())?;
    write_all(errors, shown_name(alloc, told).as_slice())?;
    write_all(errors, b"\n")
}

// Reports a fault on standard error, and gives its exit status, which alone reports it where that can't be written.
pub fn report<E: Sink>(alloc: Global, errors: &mut E, told: &Fault) -> u8
    ensures { result ≡ status_of told.now }
{
    let _ = write_fault(alloc, errors, told);
    status_of(told)
}

// Reports a fault on standard error by a line that tells more of it, and gives its exit status.
pub fn report_line<E: Sink>(errors: &mut E, line: &[u8], told: &Fault) -> u8
    ensures { result ≡ status_of told.now }
{
    let _ = write_all(errors, line);
    status_of(told)
}
