//! States packed into two bytes each.

ghost use Rattle.std.specs.Prelude.{◌≡◌};
ghost use Rattle.aa_glob_nfa.specs.code.PackedStates.{gate_numbered, state_of};
ghost use Rattle.aa_glob_nfa.specs.Tables.{bare, ending, leading_away, leading_on};

use crate::state::Gate;
use aa_bytes::{byte_has_bit, byte_with_bit};

// A state: the byte that leads into it, or the number of its gate; and its flags, a bit each.
#[derive(Clone, Copy)]
pub struct PackedState {
    byte: u8,
    flags: u8,
}

// The flags, by their bits: whether `byte` is the byte that leads into the state; whether a way leads to the next state; whether there are ways in
// the table; whether the state is an end.
const BY_BYTE: u8 = 0;

const LEADS_ON: u8 = 1;

const LEADS_AWAY: u8 = 2;

const ENDS: u8 = 3;

impl PackedState {
    // A state with this gate, without ways or ends.
    pub fn bare(gate: Gate) -> PackedState
        ensures { state_of result ≡ bare gate }
    {
        match gate {
            Gate::Byte(byte) => PackedState { byte, flags: 1 },
            Gate::Free => PackedState { byte: 0, flags: 0 },
            Gate::Inside => PackedState { byte: 1, flags: 0 },
            Gate::Class => PackedState { byte: 2, flags: 0 },
            Gate::Star => PackedState { byte: 3, flags: 0 },
            Gate::DoubleStar => PackedState { byte: 4, flags: 0 },
        }
    }

    // The gate of the state.
    pub fn gate(self) -> Gate
        ensures { result ≡ (state_of self).gate }
    {
        if byte_has_bit(self.flags, BY_BYTE) {
            Gate::Byte(self.byte)
        } else {
            gate_numbered(self.byte)
        }
    }

    // Whether a way leads to the next state.
    pub fn leads_on(self) -> bool
        ensures { result ≡ (state_of self).leads_on }
    {
        byte_has_bit(self.flags, LEADS_ON)
    }

    // Whether there are ways in the table.
    pub fn leads_away(self) -> bool
        ensures { result ≡ (state_of self).leads_away }
    {
        byte_has_bit(self.flags, LEADS_AWAY)
    }

    // Whether the state is an end of a pattern.
    pub fn ends(self) -> bool
        ensures { result ≡ (state_of self).ends }
    {
        byte_has_bit(self.flags, ENDS)
    }

    // The state with the flag that a way leads to the next state.
    pub fn leading_on(self) -> PackedState
        ensures { state_of result ≡ leading_on (state_of self) }
    {
        PackedState {
            flags: byte_with_bit(self.flags, LEADS_ON),
            ..self
        }
    }

    // The state with the flag that it is an end.
    pub fn ending(self) -> PackedState
        ensures { state_of result ≡ ending (state_of self) }
    {
        PackedState {
            flags: byte_with_bit(self.flags, ENDS),
            ..self
        }
    }

    // The state with the flag that there are ways in the table.
    pub fn leading_away(self) -> PackedState
        ensures { state_of result ≡ leading_away (state_of self) }
    {
        PackedState {
            flags: byte_with_bit(self.flags, LEADS_AWAY),
            ..self
        }
    }
}

// The gate of a number.
fn gate_numbered(number: u8) -> Gate
    ensures { result ≡ gate_numbered number }
{
    match number {
        0 => Gate::Free,
        1 => Gate::Inside,
        2 => Gate::Class,
        3 => Gate::Star,
        _ => Gate::DoubleStar,
    }
}
