//! The states that are live at one place of a text.

ghost use Rattle.std.specs.Prelude.{◌≡◌, ℕ, ◌*◌, ◌<◌, ◌≤◌, not, ◌&&◌, ◌||◌, [], length, All, IfOk, OnOk, slice_get, Some};
ghost use Rattle.aa_bytes.specs.Bits.{has_bit};
ghost use Rattle.aa_glob_nfa.specs.Fronts.{AreDistinct, IsLive, is_in, with_state};
ghost use Rattle.aa_glob_nfa.specs.code.Marks.{AreMarked};

use aa_bytes::{clear_bit, has_bit, set_bit};
use std::alloc::{AllocError, Global};
use std::marker::Model;

// The initial capacity, in states.
const FIRST: usize = 64;

// Up to so many states are searched one by one. More are seldom live, and bits for all states would have to be cleared for each run.
const FEW: usize = 16;

/// A set of states in the order in which they were found, all of them below a bound. Contracts see both, the states and the bound.
#[derive(Drop)]
pub struct Front {
    alloc: Global,
    states: Vec<u32>,
    // Once there were more than a few states, a bit for each number below the bound, set for those in the set. Empty before.
    members: Vec<u64>,
    // The bound: every state is less than this.
    room: usize,
}

impl Model for Front {
    ghost use Rattle.aa_glob_nfa.specs.Fronts.{Live};
    ghost use Rattle.aa_glob_nfa.specs.code.Marks.{IsFront};

    ghost Value = { Live };

    ghost view = { λ f. record { states = f.states.items; room = f.room } };

    ghost invariant = { λ f. IsFront f.states.items f.room f.members.items };
}

impl Front {
    /// The empty set of states below a bound.
    ///
    /// # Errors
    ///
    /// Where memory runs out.
    pub fn new(alloc: Global, room: usize) -> Result<Front, AllocError>
        ensures { IfOk result (λ front. front ≡ record { states = []; room = room }) }
    {
        Ok(Front {
            alloc,
            states: Vec::with_capacity(alloc, FIRST)?,
            members: Vec::new(alloc),
            room,
        })
    }

    /// The set of these states, which are below the bound, none twice.
    ///
    /// # Errors
    ///
    /// Where memory runs out.
    pub fn of(alloc: Global, room: usize, states: &[u32]) -> Result<Front, AllocError>
        requires { IsLive room states.now }
        ensures { IfOk result (λ front. front ≡ record { states = states.now; room = room }) }
    {
        Ok(Front {
            alloc,
            states: Vec::from_slice(alloc, states)?,
            members: Vec::new(alloc),
            room,
        })
    }

    /// The states as a vector. It takes no memory.
    pub fn into_states(self) -> Vec<u32>
        ensures states { result.items ≡ self.states }
        ensures live { IsLive self.room result.items }
    {
        self.states
    }

    /// The states, in the order in which they were found.
    pub fn states(&self) -> &[u32]
        ensures states { result.now ≡ self.now.states }
        ensures below { All (λ r. r < self.now.room) result.now }
    {
        &self.states
    }

    // How many states there are.
    pub(crate) fn len(&self) -> usize
        ensures len { result ≡ length self.now.states }
        ensures within { result ≤ self.now.room }
        ensures distinct { AreDistinct self.now.states }
    {
        self.states.len()
    }

    // The state at an index.
    pub(crate) fn state(&self, at: usize) -> u32
        requires { at < length self.now.states }
        ensures state { slice_get self.now.states at ≡ Some result }
        ensures within { result < self.now.room }
    {
        self.states[at]
    }

    // Whether a state is in the set.
    fn has(&self, state: u32) -> bool
        requires { state < self.now.room }
        ensures { result ≡ is_in state self.now.states }
    {
        if self.members.is_empty() {
            is_among(state, &self.states)
        } else {
            has_bit(&self.members, state as usize)
        }
    }

    /// Appends a state, if it isn't in the set.
    ///
    /// # Errors
    ///
    /// Where memory runs out. Nothing is promised then about the states in the set.
    pub fn insert(&mut self, state: u32) -> Result<(), AllocError>
        requires { state < self.old.room }
        ensures { OnOk result (self.new ≡ with_state state self.old) }
    {
        if self.has(state) {
            return Ok(());
        }
        self.states.push(state)?;
        if !self.members.is_empty() {
            set_bit(&mut self.members, state as usize);
        } else if self.states.len() > FEW {
            self.members = marked(self.alloc, self.room, &self.states)?;
        }
        Ok(())
    }

    /// Removes all states. `O(n)` in the number of states that were in the set, and its memory is kept.
    pub fn clear(&mut self)
        ensures { self.new ≡ record self.old { states = [] } }
    {
        if !self.members.is_empty() {
            clear_bits(&mut self.members, &self.states);
        }
        self.states.clear();
    }

    /// Replaces the states of the set by these, which are below the bound, none twice. The memory of the set is used again, as far as it suffices.
    ///
    /// # Errors
    ///
    /// Where memory runs out. Nothing is promised then about the states in the set.
    pub fn fill(&mut self, states: &[u32]) -> Result<(), AllocError>
        requires { IsLive self.old.room states.now }
        ensures { OnOk result (self.new ≡ record { states = states.now; room = self.old.room }) }
    {
        self.clear();
        self.states.extend_from_slice(states)?;
        if !self.members.is_empty() {
            set_bits(&mut self.members, states);
        }
        Ok(())
    }
}

// Whether a state is in a list.
fn is_among(state: u32, states: &[u32]) -> bool
    ensures { result ≡ is_in state states.now }
{
    for other in states {
        if state == *other {
            return true;
        }
    }
    false
}

// A bit for each number below a bound, set for these.
fn marked(alloc: Global, room: usize, states: &[u32]) -> Result<Vec<u64>, AllocError>
    requires { All (λ r. r < room) states.now }
    ensures { IfOk result (λ members. AreMarked states.now room members.items) }
{
    let mut members = vec![in alloc; 0u64; room / 64 + 1]?;
    set_bits(&mut members, states);
    Ok(members)
}

// Sets the bits of some numbers.
fn set_bits(members: &mut [u64], states: &[u32])
    requires { All (λ r. r < 64 * length members.old) states.now }
    ensures { (r : ℕ) → has_bit members.new r ≡ (is_in r states.now || has_bit members.old r) }
{
    for state in states {
        set_bit(members, *state as usize);
    }
}

// Clears the bits of some numbers.
fn clear_bits(members: &mut [u64], states: &[u32])
    requires { All (λ r. r < 64 * length members.old) states.now }
    ensures { (r : ℕ) → has_bit members.new r ≡ (not (is_in r states.now) && has_bit members.old r) }
{
    for state in states {
        clear_bit(members, *state as usize);
    }
}
