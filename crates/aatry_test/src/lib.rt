//! The test of transcripts of the machine, by its own run: how the replies of a run differ from what they want, and where that is accepted, in their
//! files; and their assertions, claims about all paths, which the policy set has to satisfy at that point.
#![tactic(auto)]

mod asserted;
mod asserting;
mod assertion_laws;
mod below;
mod claims;
mod comparing;
mod differences;
mod headings;
mod laws;
mod running;
mod store;
mod testing;

pub use aatry_transcripts::{what_a_comparison_says, what_acceptance_makes};
pub use asserted::Asserted;
pub use assertion_laws::what_assertions_depend_on;
pub use below::test_folder;
pub use headings::push_heading;
pub use laws::{what_is_accepted_passes, what_parts_are, what_tests_replace};
pub use running::{Run, assert_lines};
pub use store::{FileStore, RuntimeStore};
pub use testing::{Outcome, Transcript, test};
