//! The command `log`: the requests of logs, each with the present answer of a folder's policy, and the rules that decide it.
#![tactic(auto)]

mod apart;
mod below;
mod heads;
mod notes;
mod prefixing;
mod requests;
mod rules;
mod summary;
mod telling;

pub use below::log_folder;
