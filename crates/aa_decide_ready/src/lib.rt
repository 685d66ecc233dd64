//! Profiles made ready to decide: automata of their rules and attachments; loaded profiles with their states in slots; and indices over the slots,
//! by which names and attachments are found without going over all.
#![tactic(auto)]

mod attachments;
mod confinement;
mod entry;
mod indexed;
mod names;
mod part;
mod ready;
mod section;
mod slots;

pub use aa_glob_nfa::Steps;
pub use attachments::AttachmentIndex;
pub use confinement::Confinement;
pub use entry::{Entry, State};
pub use indexed::IndexedSlots;
pub use names::NameIndex;
pub use part::{FileRules, file_places, picked, with_files};
pub use ready::Ready;
pub use section::ReadySection;
pub use slots::{entry_at, find_named, slots_named};
