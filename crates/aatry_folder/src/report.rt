//! The report of a command.

ghost use Rattle.std.specs.Prelude.{◌≡◌, ◌≤◌, []};
ghost use Rattle.aatry_folder.specs.Reports.{failed_by};

use std::alloc::Global;

/// The report of a command.
#[derive(Drop)]
pub struct Report {
    /// The lines or records for standard output, each with its line feed.
    pub text: Vec<u8>,
    /// The notes for standard error, each on a line with its line feed; empty where there are none.
    pub notes: Vec<u8>,
    /// How much of the command failed: files that were refused, transcripts whose replies differ, a question without an answer, or folders that
    /// differ.
    pub failed: usize,
}

impl Report {
    /// The report of a command that has printed and noted nothing so far, and of which nothing failed. It takes no memory.
    pub fn new(alloc: Global) -> Self
        ensures text { result.text.items ≡ [] }
        ensures notes { result.notes.items ≡ [] }
        ensures failed { result.failed ≡ 0 }
    {
        Report {
            text: Vec::new(alloc),
            notes: Vec::new(alloc),
            failed: 0,
        }
    }
}

/// How many failed, where one was tried: 0 if it passed, or else 1. It takes no memory.
pub fn failed_by(passed: bool) -> usize
    ensures value { result ≡ failed_by passed }
    ensures few { result ≤ 1 }
{
    if passed { 0 } else { 1 }
}
