//! The whole program, over the words of its start, a file system, and three streams; and how it ends.
#![tactic(auto)]

mod fault;
mod outcome;
mod program;
mod ready;
mod reporting;
mod stop;

pub use fault::{Fault, FaultText, fault_of_words, fault_status, fault_text};
pub use program::start;
pub use ready::Ready;
pub use stop::Stop;
