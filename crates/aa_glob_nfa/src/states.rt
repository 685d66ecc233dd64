//! The states of an automaton, by their numbers.

ghost use Rattle.std.specs.Prelude.{◌≡◌, ◌++◌, ◌∷◌, ◌<◌, [], length, set, OnErr, OnOk};
ghost use Rattle.aa_glob_nfa.specs.Tables.{bare, ending, leading_away, leading_on, state_at};

use crate::packed_state::PackedState;
use crate::state::Gate;
use std::alloc::{AllocError, Global};
use std::marker::Model;

/// The states, each with flags for what the other tables have of it.
#[derive(Drop)]
pub struct States {
    packed: Vec<PackedState>,
}

impl Model for States {
    ghost use Rattle.std.specs.Prelude.{List, map};
    ghost use Rattle.aa_glob_nfa.specs.code.PackedStates.{state_of};
    ghost use Rattle.aa_glob_nfa.specs.Tables.{State};

    ghost Value = { List State };

    ghost view = { λ s. map state_of s.packed.items };
}

impl States {
    /// No state. It takes no memory.
    pub fn new(alloc: Global) -> States
        ensures { result ≡ [] }
    {
        States {
            packed: Vec::new(alloc),
        }
    }

    /// How many states there are.
    pub fn len(&self) -> usize
        ensures { result ≡ length self.now }
    {
        self.packed.len()
    }

    /// Appends a state with this gate, without ways or ends.
    ///
    /// # Errors
    ///
    /// Where memory runs out. The states are then unchanged.
    pub fn push(&mut self, gate: Gate) -> Result<(), AllocError>
        ensures added { OnOk result (self.new ≡ self.old ++ bare gate ∷ []) }
        ensures err { OnErr result (self.new ≡ self.old) }
    {
        self.packed.push(PackedState::bare(gate))?;
        Ok(())
    }

    /// Gives back unused capacity.
    pub fn shrink(&mut self)
        ensures { self.new ≡ self.old }
    {
        self.packed.shrink_to_fit();
    }

    /// The gate of a state.
    pub fn gate(&self, number: u32) -> Gate
        requires { number < length self.now }
        ensures { result ≡ (state_at self.now number).gate }
    {
        self.packed[number as usize].gate()
    }

    /// Whether a way leads from a state to the next one.
    pub fn leads_on(&self, number: u32) -> bool
        requires { number < length self.now }
        ensures { result ≡ (state_at self.now number).leads_on }
    {
        self.packed[number as usize].leads_on()
    }

    /// Whether a state has ways in the table.
    pub fn leads_away(&self, number: u32) -> bool
        requires { number < length self.now }
        ensures { result ≡ (state_at self.now number).leads_away }
    {
        self.packed[number as usize].leads_away()
    }

    /// Whether a state is an end.
    pub fn ends(&self, number: u32) -> bool
        requires { number < length self.now }
        ensures { result ≡ (state_at self.now number).ends }
    {
        self.packed[number as usize].ends()
    }

    /// Sets the flag that a way leads from a state to the next one.
    pub fn lead_on(&mut self, number: u32)
        requires { number < length self.old }
        ensures { self.new ≡ set self.old number (leading_on (state_at self.old number)) }
    {
        let state = self.packed[number as usize].leading_on();
        self.packed[number as usize] = state;
    }

    /// Sets the flag that a state has ways in the table.
    pub fn lead_away(&mut self, number: u32)
        requires { number < length self.old }
        ensures { self.new ≡ set self.old number (leading_away (state_at self.old number)) }
    {
        let state = self.packed[number as usize].leading_away();
        self.packed[number as usize] = state;
    }

    /// Sets the flag that a state is an end.
    pub fn end(&mut self, number: u32)
        requires { number < length self.old }
        ensures { self.new ≡ set self.old number (ending (state_at self.old number)) }
    {
        let state = self.packed[number as usize].ending();
        self.packed[number as usize] = state;
    }
}
