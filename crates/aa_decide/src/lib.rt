//! Decisions by loaded profiles: under which profile a program runs that is started (`exec`), which profile attaches to a path (`attach`), and,
//! passed on from the crates below, what a profile's rules answer to a request (`ReadySection::decide`), and the audit lines of both. Profiles are
//! in slots; an `IndexedSlots` finds names and attachments without going over all of them.
#![tactic(auto)]

mod asker;
mod attachment;
mod execution;
mod laws;
mod slots;
mod stacks;

pub use aa_decide_ready::{
    Confinement, Entry, IndexedSlots, Ready, ReadySection, State, Steps, entry_at, find_named,
};
pub use aa_decide_rules::{
    Answer, ExecChoice, ExecTo, ExecVerdict, Mediation, StackBase, Tag, Verdict, exec_line,
    log_line, what_rules_decide,
};
pub use aa_profile_data::Request;
pub use asker::{Asker, Who, find_loaded};
pub use attachment::{attach, attached_child};
pub use execution::{by_choice, choice_of, exec, exec_by, led, led_by_word};
pub use laws::{where_programs_run, where_the_rules_lead};
