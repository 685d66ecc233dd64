//! The forms of reports.

use std::alloc::Global;

/// The form of a report.
#[derive(Clone, Copy)]
pub enum Form {
    /// Lines for people at a terminal.
    Lines,
    /// Records for programs: objects of JSON, one a line.
    Records,
}

/// How to report: in which form, verbosely or not, and from which allocator memory comes.
#[derive(Clone, Copy)]
pub struct Teller {
    /// The allocator.
    pub alloc: Global,
    /// The form.
    pub form: Form,
    /// Whether lines are verbose: each file that is left out too, and not only how many there are. Records always are.
    pub verbose: bool,
}
