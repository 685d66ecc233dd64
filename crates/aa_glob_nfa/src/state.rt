//! The rows of an automaton's tables.

ghost use Rattle.std.specs.Prelude.{◌≡◌, ◌≤◌};
ghost use Rattle.aa_glob_nfa.specs.Tables.{by_of, entry_behind, gate_of, is_byte, may_lead, no_byte, order_of};
ghost use Rattle.aa_bytes.specs.declared.byte_map.ByteMap.{ByteMap};
ghost use Rattle.aa_glob_nfa.specs.Entries.{is_free, stays_at};

use crate::entry::Entry;
use aa_bytes::{ByteMap, is_inside};

/// What it takes to enter a state: its entry without the set of a class.
#[derive(Clone, Copy)]
pub enum Gate {
    Free,
    Byte(u8),
    Inside,
    Class,
    Star,
    DoubleStar,
}

/// A way (a transition) from a state to another. Ways to the next state are a flag of the state instead.
#[derive(Clone, Copy)]
pub struct Way {
    pub from: u32,
    // The byte that leads into the other state, or `NO_BYTE`.
    pub by: u16,
    pub to: u32,
}

/// The set of a class, and the state into which it leads.
#[derive(Clone, Copy)]
pub struct ClassRow {
    pub state: u32,
    pub map: ByteMap,
}

/// A state at which a pattern ends.
#[derive(Clone, Copy)]
pub struct End {
    pub state: u32,
    pub pattern: u32,
}

/// The `by` of a way along which not just one byte leads.
pub const NO_BYTE: u16 = 256;

impl Gate {
    /// The gate of an entry.
    pub fn of(entry: &Entry) -> Gate
        ensures { result ≡ gate_of entry.now }
    {
        match entry {
            Entry::Free => Gate::Free,
            Entry::Byte(byte) => Gate::Byte(*byte),
            Entry::Inside => Gate::Inside,
            Entry::Class(_) => Gate::Class,
            Entry::Star => Gate::Star,
            Entry::DoubleStar => Gate::DoubleStar,
        }
    }

    /// Whether a state with this gate is entered without a byte.
    pub fn is_free(self) -> bool
        ensures { (set : ByteMap) → result ≡ is_free (entry_behind self set) }
    {
        match self {
            Gate::Free | Gate::Star | Gate::DoubleStar => true,
            Gate::Byte(_) | Gate::Inside | Gate::Class => false,
        }
    }

    /// Whether the byte stays in a state with this gate.
    pub fn stays(self, byte: u8) -> bool
        ensures { (set : ByteMap) → result ≡ stays_at (entry_behind self set) byte }
    {
        match self {
            Gate::Star => is_inside(byte),
            Gate::DoubleStar => byte != 0,
            Gate::Free | Gate::Byte(_) | Gate::Inside | Gate::Class => false,
        }
    }

    /// The one byte that leads through the gate, or `NO_BYTE`.
    pub fn by(self) -> u16
        ensures value { result ≡ by_of self }
        ensures within { result ≤ no_byte }
    {
        match self {
            Gate::Byte(byte) => byte as u16,
            Gate::Free | Gate::Inside | Gate::Class | Gate::Star | Gate::DoubleStar => NO_BYTE,
        }
    }
}

impl Way {
    /// The key by which the table is sorted: by the state, and then by the byte.
    pub fn order(&self) -> u64
        ensures { result ≡ order_of self.now }
    {
        self.from as u64 * 512 + self.by as u64
    }

    /// Whether the way may lead from a state by this byte, or by none: it has no byte of its own, or it has this one.
    pub fn may_lead(&self, from: u32, byte: Option<u8>) -> bool
        ensures { result ≡ may_lead from byte self.now }
    {
        self.from == from && (self.by == NO_BYTE || is_byte(self.by, byte))
    }
}

// Whether a number is that of the byte, if there is one.
fn is_byte(number: u16, byte: Option<u8>) -> bool
    ensures { result ≡ is_byte number byte }
{
    match byte {
        Some(own) => own as u16 == number,
        None => false,
    }
}
