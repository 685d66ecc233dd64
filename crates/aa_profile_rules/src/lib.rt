//! The rules of a profile's file as they are written: qualifiers, patterns, access and targets, capabilities, sockets, the rules that are kept as
//! they are, and the rule `all`. `read_rule` reads one rule from tokens; patterns aren't expanded here.
#![tactic(auto)]

mod access;
mod capabilities;
mod kept_rules;
mod laws;
mod networks;
mod qualifiers;
mod rules;
mod targets;

pub use access::{Access, whole_access};
pub use capabilities::ALL_CAPABILITIES;
pub use laws::{which_numbers_rules_have, which_rules_language_3_has};
pub use networks::{Sockets, all_sockets};
pub use qualifiers::Qualifiers;
pub use rules::{Rule, all_files, read_rule};
