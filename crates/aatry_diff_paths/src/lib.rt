//! The command `diff --all`: tells what a change of policy changes for all paths, all capabilities, all sockets and all starts of programs, by the profiles, children and hats of two
//! folders.
#![tactic(auto)]

mod answers;
mod below;
mod summary;
mod telling;
mod told_changes;
mod told_others;
mod told_starts;

pub use below::diff_paths_folders;
