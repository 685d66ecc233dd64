//! Texts with names of variables in them: their parts, how many choices of values they have, and lists of the texts that these choices make. It
//! doesn't know variables: callers pass the values, or their number, for each name.
#![tactic(auto)]

mod counting;
mod expanding;
mod joining;
mod lists;
mod missing;
mod numbers;
mod parts;
mod writing;

pub use counting::{Counts, MOST_COUNTED, count_text, count_words};
pub use expanding::{Values, expand_text, expand_words};
pub use joining::MOST_KEPT;
pub use lists::Lists;
pub use missing::{has_missing, have_missing};
pub use numbers::{gather_numbers, gather_numbers_within};
