//! AppArmor's path patterns: reading them, or refusing them with the fault; matching one against a path; the beginnings of patterns, which texts
//! read one, and whether two patterns overlap. `aa_glob` passes on what callers need.
#![tactic(auto)]

mod elements;
mod laws;
mod literal;
mod matching;
mod pass;
mod pattern;
mod place;
mod places;

pub use aa_glob_syntax::{LONGEST_PATTERN, PatternError};
pub use elements::Elements;
pub use laws::{
    how_beginnings_are_gathered, how_many_states_there_are, how_overlaps_are_tested,
    how_trails_are_read, how_trails_grow, matching_is_by_splits, what_reads_to_the_end_matches,
    which_elements_stand,
};
pub use pattern::Pattern;
