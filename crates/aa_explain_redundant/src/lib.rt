//! Written rules that decide nothing: without them, all together, each path is answered the same. Use `redundant_rules`, and `example_of` for why
//! one decides nothing; both take a limit, since there may be exponentially many kinds of paths.
#![tactic(auto)]

mod asking;
mod comparing;
mod copies;
mod example;
mod kinds;
mod laws;
mod trying;
mod written;

pub use asking::redundant_rules;
pub use example::{Example, Overlap, example_of};
pub use laws::without_redundant_rules;
pub use written::WrittenRules;
