//! A session over a folder of policy: lines of an input, answered as they come.
#![tactic(auto)]

mod faults;
mod laws;
mod note;
mod session;
mod state;
mod status;

pub use faults::{name_of, words_of};
pub use laws::what_undoing_leads_to;
pub use session::session_folder;
