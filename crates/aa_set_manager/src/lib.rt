//! Policy sets, the changes that commands make to them, and the manager of a policy set with its history: its methods are the commands, and
//! `reply_to` answers a line.
#![tactic(auto)]

mod changes;
mod laws;
mod loading;
mod manager;
mod modes;
mod places;
mod policy;
mod reply;
mod settings;

pub use changes::{adding, disabling, removing, replacing, switching};
pub use laws::what_changes_keep;
pub use manager::Manager;
pub use policy::PolicySet;
pub use reply::{Reply, reply_to};
pub use settings::Settings;
