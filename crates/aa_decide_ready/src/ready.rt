//! Profiles made ready to decide.

ghost use Rattle.std.specs.Prelude.{◌≡◌, true, IfOk, MatchOption};
ghost use Rattle.aa_decide_ready.specs.code.Parts.{ArePartsOf, HasNothingAt, IsPartAt};
ghost use Rattle.aa_profile_data.specs.Conflicts.{profile_agrees};

use crate::part::{Part, parts_of};
use aa_profile_data::{Child, Profile};
use std::alloc::{AllocError, Global};
use std::marker::Model;

/// A profile made ready to decide, no two rules of which conflict, nor any two of a child or hat of it. Contracts see the profile alone.
#[derive(Drop)]
pub struct Ready {
    /// The profile.
    pub profile: Profile,
    // The automata of its own rules and attachments.
    own: Part,
    // The automata of each child and hat.
    parts: Vec<Part>,
}

impl Model for Ready {
    ghost use Rattle.std.specs.Prelude.{IsTrue};
    ghost use Rattle.aa_profile_data.specs.Conflicts.{profile_agrees};
    ghost use Rattle.aa_profile_data.specs.declared.profile.Profile.{Profile};

    ghost Value = { Profile };

    ghost view = { λ r. r.profile };

    ghost use Rattle.aa_decide_ready.specs.code.Parts.{ArePartsOf, IsPartOf};

    ghost invariant = { λ r.
        IsPartOf r.own r.profile.rules r.profile.attachments
        × ArePartsOf r.parts.items r.profile.children
        × IsTrue (profile_agrees r.profile) };
}

// Remembers which states are live at the places of a path, for the child or hat at an index, if there is one, and returns whether all of this is
// remembered now.
fn remember_child(
    alloc: Global,
    children: &[Child],
    parts: &mut Vec<Part>,
    place: usize,
    path: &[u8],
) -> bool
    ensures { ArePartsOf parts.old.items children.now → ArePartsOf parts.new.items children.now }
{
    if place >= parts.len() || place >= children.len() {
        return true;
    }
    let rules = children[place].rules.as_slice();
    parts[place].remember(alloc, rules, path)
}

impl Ready {
    /// Makes a profile ready whose rules agree: builds an automaton of its attachments, and one for each child and hat. That of the patterns of file
    /// rules is built where the first path is remembered (`remember`), and until then for each question anew.
    ///
    /// # Errors
    ///
    /// Where memory runs out. The profile is dropped then.
    pub fn build(alloc: Global, profile: Profile) -> Result<Ready, AllocError>
        requires { profile_agrees profile ≡ true }
        ensures { IfOk result (λ ready. ready ≡ profile) }
    {
        let own = Part::build(alloc, profile.attachments.as_slice())?;
        let parts = parts_of(alloc, profile.children.as_slice())?;
        Ok(Ready {
            profile,
            own,
            parts,
        })
    }

    // The automata of the profile, or of its child or hat at an index.
    pub(crate) fn part_at(&self, child: Option<usize>) -> Option<&Part>
        ensures { MatchOption result (HasNothingAt self.now child) (λ part. IsPartAt self.now child part.now) }
    {
        match child {
            None => Some(&self.own),
            Some(place) => self.parts.get(place),
        }
    }

    /// Remembers which states are live at the places of a path, in the automaton of the file rules of the profile, or of its child or hat at an
    /// index, and returns whether all of this is remembered now: later questions about this path are answered quicker, and those about other paths
    /// as far as they reach the same states together. No answer changes, and contracts don't see it. It takes at most some 7 MB for the profile and
    /// for each child and hat (docs/PERFORMANCE.md, "What is remembered"). Where there is no room, or no memory, no more is remembered.
    pub fn remember(&mut self, alloc: Global, child: Option<usize>, path: &[u8]) -> bool
        ensures { self.new ≡ self.old }
    {
        match child {
            None => self
                .own
                .remember(alloc, self.profile.rules.as_slice(), path),
            Some(place) => {
                remember_child(
                    alloc,
                    self.profile.children.as_slice(),
                    &mut self.parts,
                    place,
                    path,
                )
            }
        }
    }

    /// How many bytes what is remembered takes, for the profile or for its child or hat at an index. It takes no memory; `O(1)`.
    pub fn remembered_bytes(&self, child: Option<usize>) -> usize {
        match self.part_at(child) {
            None => 0,
            Some(part) => part.remembered_bytes(),
        }
    }

    /// Forgets what was remembered for the profile, or for its child or hat at an index, and frees its memory.
    pub fn forget(&mut self, alloc: Global, child: Option<usize>)
        ensures { self.new ≡ self.old }
    {
        match child {
            None => self.own.forget(alloc),
            Some(place) => {
                if place < self.parts.len() {
                    self.parts[place].forget(alloc);
                }
            }
        }
    }
}
