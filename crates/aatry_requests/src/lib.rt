//! The requests of a kernel's log, or of a file of questions, each with how often it occurred; and the questions of words.
#![tactic(auto)]

mod asked_words;
mod counts;
mod laws;
mod order;
mod questions;
mod requests;
mod sources;
mod spans;
mod tallies;
mod texts;
mod wrong_words;

pub use asked_words::{asked_by, letting_question};
pub use counts::{Share, push_number};
pub use laws::{what_texts_tell, what_words_ask_without_who_asks};
pub use order::most_asked_first;
pub use questions::{rule_request, who_asks};
pub use requests::{Requests, gather};
pub use sources::Source;
pub use spans::Span;
pub use tallies::{Tallies, Tally};
pub use texts::push_question;
pub use wrong_words::{letting_fault, words_fault};
