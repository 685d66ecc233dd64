//! The command `who`: which profiles, children and hats of a folder would let a request through, and by which rules.
#![tactic(auto)]

mod laws;
mod letting;
mod sought;
mod telling;
mod unsure;
mod who;

pub use laws::whom_who_tells;
pub use who::who_folder;
