//! The tokens of a profile file: `tokens` cuts its text into words, quoted texts, signs, includes and assignments; `spliced` also replaces each
//! include by the tokens of the files that it names. Tokens borrow the text of the files. `aa_text` passes on both.
#![tactic(auto)]

mod assign;
mod cut;
mod front;
mod include;
mod laws;
mod piece;
mod quoted;
mod spliced_token;
mod splicer;
mod splicing;
mod targets;
mod word;

pub use cut::{CutFault, CutRefusal, Token, TokenKind, tokens};
pub use laws::how_a_text_is_cut;
pub use spliced_token::Spliced;
pub use splicing::spliced;
