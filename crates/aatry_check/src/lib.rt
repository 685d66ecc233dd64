//! Checks files of policy, each by itself, and reports the results.
#![tactic(auto)]

mod below;
mod checked;
mod loading;
mod other;
mod records;
mod refusal;
mod unread;

pub use below::check_folder;
pub use checked::{Checked, check};
