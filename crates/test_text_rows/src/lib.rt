//! Rows of what a profile's text goes through: files and how they are gathered, tokens, splicings, variables and the tables of names;
//! and rows of a journal.
#![tactic(auto)]

mod files;
mod gatherings;
mod journals;
mod splicings;
mod tables;
mod tokens;
mod variables;

pub use files::ask_file_rows;
pub use gatherings::ask_gathering_rows;
pub use journals::ask_journal_rows;
pub use splicings::ask_splicing_rows;
pub use tables::ask_table_rows;
pub use tokens::ask_token_rows;
pub use variables::ask_variable_rows;
