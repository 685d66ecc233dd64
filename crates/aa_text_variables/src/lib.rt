//! Variables of profile files: what `=` and `+=` do to them, which variables a text leads to, and the expansions of a text. Use `Variables` for a
//! few texts, and an `ExpansionTable` for many.
#![tactic(auto)]

mod laws;
mod variables;

pub use laws::{how_texts_expand, what_a_cycle_is, what_a_text_leads_to};
pub use variables::{ExpansionTable, Variables};
