//! Slots, each of which is empty or holds a loaded profile, and the changes that a history keeps of them: parts that are exchanged with slots.
//! Entries are moved and never copied.
#![tactic(auto)]

mod exchange;
mod parts;
mod remembered;
mod slots;
mod tending;

pub use exchange::Exchange;
pub use parts::{Content, Part};
pub use remembered::fingerprint;
pub use slots::Slots;
pub use tending::{Indexing, Remembering};
