//! AppArmor's path patterns: what they spell, which paths match one, one automaton that finds all of many patterns that match a path, and whether
//! two patterns overlap.
//!
//! A single pattern is matched by `Pattern::matches`, which takes no memory. To ask many patterns again and again, build an `Automaton` once: a
//! question then costs a step for each beginning of a pattern that the path reads, and not one for each pattern.
#![tactic(auto)]

mod automaton;
mod builder;
mod element;
mod following;
mod graph_laws;
mod growing;
mod laws;
mod numbers;
mod overlapping;
mod tree;
mod walk;
mod ways;

pub use aa_glob_nfa::Steps;
pub use aa_glob_pattern::{
    LONGEST_PATTERN, Pattern, PatternError, how_overlaps_are_tested, matching_is_by_splits,
};
pub use automaton::Automaton;
pub use builder::AutomatonBuilder;
pub use graph_laws::{how_graphs_are_drawn, what_reaches_a_state};
pub use laws::{
    exact_pattern_matches_one_text, first_fault_is_reported, no_text_with_a_zero_byte_matches,
    plain_text_reads_as_itself, quoted_text_matches_itself, quoted_text_reads_as_itself,
};
pub use overlapping::overlap;
