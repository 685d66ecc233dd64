//! What a program does before it begins: it reads its arguments (options, their values and other words, as `clap` reads them), and the named files
//! from a file system into `Files`. Both programs use it.
#![tactic(auto)]

mod arguments;
mod command_line;
mod fault;
mod file_system;
mod gathering;
mod laws;
mod line;
mod parsing;
mod planning;
mod readable;
mod reading;
mod version;

pub use arguments::Plan;
pub use fault::ArgumentFault;
pub use file_system::{FileSystem, RuntimeFiles};
pub use gathering::{GatherFault, gather};
pub use laws::what_runs_have;
pub use line::{bare_command, flag, named_value, other_words, value, with_argument};
pub use parsing::{copied, parse};
pub use planning::plan;
pub use readable::{ReadableFiles, UnreadFault, gather_readable, is_stand_in, unread_in};
pub use version::VERSION;
