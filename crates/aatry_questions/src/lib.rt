//! The words of a question: which question they make, or what is wrong with them, and how names are written in them.
#![tactic(auto)]

mod faults;
mod laws;
mod misspelled;
mod names;
mod reading;
mod texts;

pub use faults::{QuestionKind, WordFault, Wrong, kind_of, question_fault, refusal_of};
pub use laws::{how_names_read_back, how_wrong_words_are_refused, what_words_mean};
pub use misspelled::{QuestionFault, misspells_kind, with_nearest};
pub use names::{has_backslash, push_name, unescaped};
pub use reading::{meant_fault, question_meant, read};
pub use texts::{push_letting_fault, push_words_fault};
