//! Lines, and the commands and questions that are read from them: readers and writers, replies that wait to be written, the unfinished line, the
//! words of a line, and why commands are refused.
#![tactic(auto)]

mod command;
mod laws;
mod line;
mod question;
mod refusal;
mod stream;
mod waiting;
mod words;

pub use command::{Command, PolicyChange, read};
pub use laws::quoted_words_read_back;
pub use line::{LONGEST_LINE, LineBuffer, first_line};
pub use question::{Question, is_path, type_number};
pub use refusal::{Refusal, RefusalKind, plain};
pub use stream::{Failed, FromRead, Sink, Source, ToWrite, comes_to_end};
pub use waiting::{flush, write_all, write_behind};
pub use words::{BadWords, Words};
