//! What is wrong with a file of policy that is refused, in words that depend on the text at the place; and with a command that is refused.
#![tactic(auto)]

mod flags;
mod naming;
mod refusals;
mod tokens;
mod words;

pub use refusals::{kind_words, refusal_words};
pub use words::words_of;
