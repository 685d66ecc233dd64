//! Rows of runs, each whole, byte by byte and with streams that fail, and those of the refusals' numbers and names.
#![tactic(auto)]

mod cuts;
mod failing;
mod outcome;
mod refusals;
mod runs;
mod streams;
mod wanted;

pub use refusals::ask_refusal_rows;
pub use runs::ask_run_rows;
