//! Files of rows: the bytes that their texts stand for, their paragraphs, and a tally of what was answered otherwise.
#![tactic(auto)]

mod asking;
mod bytes;
mod lines;
mod paragraph;
mod row_error;
mod tally;
mod words;

pub use asking::{Asks, ask_files};
pub use bytes::put_number;
pub use lines::{answer_of, question_of, split_at, turns_of, yes_or_no};
pub use paragraph::{Part, find, put_lines, take_files};
pub use row_error::RowError;
pub use tally::Tally;
pub use words::{
    number_of, put_all, put_each, put_number_word, put_word, put_words, word_bytes, words_of,
};
