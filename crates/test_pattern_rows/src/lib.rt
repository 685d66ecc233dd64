//! Rows of patterns, of pairs that overlap, of automata, and of how much work an automaton has; and the measuring of that work.
#![tactic(auto)]

mod automata;
mod measuring;
mod overlaps;
mod patterns;

pub use automata::ask_automaton_rows;
pub use measuring::{ask_work_rows, measures};
pub use patterns::ask_pattern_rows;
