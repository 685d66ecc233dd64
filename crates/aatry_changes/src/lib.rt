//! What a change of policy changes: profiles, children and hats that are new, gone or changed.
#![tactic(auto)]

mod changes;
mod compared;
mod folded;
mod headed;
mod laws;
mod part_changes;
mod stat;

pub use changes::push_changes;
pub use compared::Compared;
pub use headed::{push_gone, push_headed};
pub use laws::{
    what_is_counted_is_told, what_is_folded_is_told, what_is_not_told_answers_alike,
    when_nothing_is_told,
};
pub use stat::push_stat;
