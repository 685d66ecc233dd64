//! The start of a program, by its path.

use aa_decide::ExecTo;

/// The start of a program, and the place that it goes to.
#[derive(Drop)]
pub struct Start<'a> {
    /// Under what the program runs: it is started, so not `Nowhere`.
    pub to: ExecTo<'a>,
    /// Whether the task's user owns the program's file: where another's leads there, too, not.
    pub owned: bool,
    /// The program's path.
    pub path: Vec<u8>,
}
