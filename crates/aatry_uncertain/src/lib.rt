//! What files that are left out leave uncertain: the names of profiles that can still be read of them, and the patterns by which these may attach.
#![tactic(auto)]

mod fitting;
mod heads;
mod left_out;
mod telling;

pub use fitting::may_fit;
pub use heads::{Head, heads_of};
pub use left_out::{LeftOutHead, LeftOutHeads, heads_left_out};
pub use telling::{push_unsure_names, push_unsure_profile, push_unsure_starts};
