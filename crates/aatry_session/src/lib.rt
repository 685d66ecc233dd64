//! A session of people at a terminal: the machine over commands, with replies in words, the history of its changes after the loading of its files,
//! and where its profiles were read.
#![tactic(auto)]

mod changes;
mod laws;
mod making;
mod obeying;
mod origins;
mod session;
mod switching;

pub use laws::{
    how_far_sessions_go_back, the_history_is_in_step, where_profiles_of_a_session_are_read,
};
pub use session::{Session, Turn};
