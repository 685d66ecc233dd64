//! Profiles, their children and hats, and their rules as plain data, and what rules cover; and what these are made of: access letters and sets of
//! them, exec modes (exec words), the access of a file rule as it is written, requests, the names of profiles, and the tables of capabilities and of
//! socket domains and types. `aa_profile` passes it on.
#![tactic(auto)]

mod access;
mod capabilities;
mod cover;
mod domains;
mod exec_word;
mod full_name;
mod kinds;
mod laws;
mod names;
mod profile;
mod request;
mod same;
mod stacks;
mod table_laws;
mod table_names;
mod word_laws;
mod written;

pub use access::Perms;
pub use capabilities::{CAPABILITIES, capability_name, capability_number};
pub use domains::{domain_name, domain_number, has_protocols};
pub use exec_word::{Destination, ExecWord};
pub use full_name::{cut_full_name, is_full_name};
pub use kinds::{is_protocol, kind_name, kind_number, type_of};
pub use laws::{how_conflicts_are_tested, when_rules_are_same, which_rules_match};
pub use names::{is_name, is_top_name};
pub use profile::{
    CapRule, Child, FileRule, Mode, NetRule, OtherRule, Profile, Rank, Rule, Transition,
    child_place,
};
pub use request::Request;
pub use stacks::{Stack, first_member, is_name_or_stack_of, stack_of};
pub use table_laws::{which_names_tables_hold, which_numbers_names_have};
pub use word_laws::{no_name_is_a_stack, what_accesses_say};
pub use written::WrittenAccess;
