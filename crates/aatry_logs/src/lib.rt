//! Logs, gathered: the requests of their selected lines, each with how often and when it occurred, and the lines that can't be read; from a stream,
//! or from the file at a path, line by line.
#![tactic(auto)]

mod apart;
mod compressed;
mod entries;
mod gathered;
mod inputs;
mod line_input;
mod lines;
mod log_requests;
mod opened;

pub use apart::{KeptLine, LinesApart};
pub use compressed::is_compressed;
pub use gathered::{gather_logs, meant_paths};
pub use line_input::LineInput;
pub use lines::{Lines, MOST_LINES, all_lines, next_line};
pub use log_requests::LogRequests;
pub use opened::open_at;
