//! Loaded profiles, with their states.

ghost use Rattle.std.specs.Prelude.{◌≡◌, true};
ghost use Rattle.aa_decide_ready.specs.Entries.{fits, is_in_force, state_left, with_state};

use crate::ready::Ready;
use aa_bytes::Sequence;
use aa_profile_data::{Mode, Profile};
use std::alloc::Global;
use std::marker::Model;
use std::mem;

/// The state of a loaded profile.
#[derive(Drop)]
pub enum State {
    /// The profile and its children aren't in force.
    Disabled,
    /// They are in force: the first mode is the profile's, and the others are those of its children and hats, in their order.
    Modes(Sequence<Mode>),
}

/// A loaded profile with its state, which has a mode for the profile and for each of its children and hats.
pub struct Entry {
    ready: Ready,
    state: State,
}

impl Drop for Entry {
    // Proved here, once for all crates that own an entry.
    fn drop(self) {
        let Entry { ready, state } = self;
        drop(ready);
        drop(state);
    }
}

impl Model for Entry {
    ghost use Rattle.std.specs.Prelude.{IsTrue};
    ghost use Rattle.aa_decide_ready.specs.Entries.{Loaded, fits};

    ghost Value = { Loaded };

    ghost view = { λ e. record { profile = e.ready; state = e.state } };

    ghost invariant = { λ e. IsTrue (fits e.ready e.state) };
}

impl State {
    /// Whether it is a state in force. It takes no memory.
    pub fn is_in_force(&self) -> bool
        ensures { result ≡ is_in_force self.now }
    {
        match self {
            State::Disabled => false,
            State::Modes(_) => true,
        }
    }

    /// Whether it fits a profile: it is `Disabled`, or has a mode for the profile and for each of its children and hats. It takes no memory.
    pub fn fits(&self, profile: &Profile) -> bool
        ensures { result ≡ fits profile.now self.now }
    {
        match self {
            State::Disabled => true,
            State::Modes(modes) => modes.as_slice().len() == profile.children.as_slice().len() + 1,
        }
    }
}

impl Entry {
    /// A profile with a state that fits it. It takes no memory.
    pub fn new(ready: Ready, state: State) -> Entry
        requires { fits ready state ≡ true }
        ensures { result ≡ record { profile = ready; state = state } }
    {
        Entry { ready, state }
    }

    /// The profile.
    pub fn profile(&self) -> &Profile
        ensures { result.now ≡ self.now.profile }
    {
        &self.ready.profile
    }

    /// The ready profile.
    pub fn ready(&self) -> &Ready
        ensures { result.now ≡ self.now.profile }
    {
        &self.ready
    }

    /// The state. It fits the profile.
    pub fn state(&self) -> &State
        ensures state { result.now ≡ self.now.state }
        ensures fits { fits self.now.profile result.now ≡ true }
    {
        &self.state
    }

    /// Swaps the state with another. One that doesn't fit the profile isn't taken, and nothing changes then. It takes no memory.
    pub fn exchange_state(&mut self, state: &mut State)
        ensures entry { self.new ≡ with_state state.old self.old }
        ensures state { state.new ≡ state_left state.old self.old }
    {
        if state.fits(&self.ready.profile) {
            mem::swap(&mut self.state, state);
        }
    }

    /// Remembers which states are live at the places of a path, and returns whether all of this is remembered now (`Ready::remember`).
    pub fn remember(&mut self, alloc: Global, child: Option<usize>, path: &[u8]) -> bool
        ensures { self.new ≡ self.old }
    {
        self.ready.remember(alloc, child, path)
    }

    /// How many bytes what is remembered takes (`Ready::remembered_bytes`).
    pub fn remembered_bytes(&self, child: Option<usize>) -> usize {
        self.ready.remembered_bytes(child)
    }

    /// Forgets what was remembered for the profile, or for its child or hat at an index, and frees its memory.
    pub fn forget(&mut self, alloc: Global, child: Option<usize>)
        ensures { self.new ≡ self.old }
    {
        self.ready.forget(alloc, child);
    }
}
