//! Parts, each of which is exchanged with a slot.

ghost use Rattle.std.specs.Prelude.{◌≡◌};
ghost use Rattle.aa_set_parts.specs.Parts.{put_in, taken_out};

use aa_decide_ready::{Entry, State};
use std::mem;

/// What a part exchanges with its slot.
#[derive(Drop)]
pub enum Content {
    /// All that the slot is to hold: an entry, or nothing.
    Whole(Option<Entry>),
    /// The state that the slot's entry is to have. It is exchanged only if there is an entry that it fits.
    InState(State),
}

/// A slot, and what is exchanged with it.
#[derive(Drop)]
pub struct Part {
    /// The slot's number, from 0.
    pub slot: usize,
    /// What the slot is to hold; after the exchange, what it held.
    pub content: Content,
}

impl Content {
    // Exchanges the content with what a slot holds.
    pub(crate) fn exchange(&mut self, slot: &mut Option<Entry>)
        ensures content { self.new ≡ taken_out self.old slot.old }
        ensures slot { slot.new ≡ put_in self.old slot.old }
    {
        match self {
            Content::Whole(content) => mem::swap(content, slot),
            Content::InState(state) => {
                if let Some(entry) = slot {
                    entry.exchange_state(state);
                }
            }
        }
    }
}
