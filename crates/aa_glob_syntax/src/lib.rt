//! The language of AppArmor's path patterns: the elements of a pattern's text, read one after the other; which texts are refused as patterns, and by
//! which fault. No call here takes memory but `Class::set` and `listed_ranges`. Callers use `aa_glob`, which passes on what they need.
#![tactic(auto)]

mod bits;
mod check;
mod class;
mod context;
mod element;
mod groups;
mod literals;
mod members;
mod part;
mod pattern_error;
mod slashes;
mod star;
mod symbol;

pub use bits::BitStack;
pub use check::{Facts, LONGEST_PATTERN, check_pattern};
pub use class::Class;
pub use context::Context;
pub use element::{Element, Next, next_element};
pub use literals::is_literal;
pub use pattern_error::PatternError;
pub use slashes::collapse;
