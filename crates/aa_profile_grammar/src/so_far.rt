//! Parts of a file that were read so far, with their names, so that a name is found without going through all parts.

ghost use Rattle.std.specs.Prelude.{◌≡◌, ◌++◌, ◌∷◌, [], IfOk, OnOk, map};
ghost use Rattle.std.specs.List.{list_any};
ghost use Rattle.aa_profile_grammar.specs.Blocks.{is_child_of_name, is_of_name};
ghost use Rattle.aa_profile_grammar.specs.code.Names.{AreNamesOf};
ghost use Rattle.aa_profile_grammar.specs.code.Members.{AreNamedWith};
ghost use Rattle.aa_profile_grammar.specs.SeenFiles.{seen_member, seen_profile};

use crate::blocks::{Member, Profile};
use std::alloc::{AllocError, Global};
use std::collections::BTreeSet;

/// Profiles of a file.
#[derive(Drop)]
pub struct ProfilesSoFar<'a> {
    /// The profiles, in order.
    pub items: Vec<Profile<'a>>,
    // Their names.
    names: BTreeSet<&'a [u8]>,
    ghost named: { AreNamesOf names (λ name. list_any (is_of_name name) (map seen_profile items.items)) },
}

impl<'a> ProfilesSoFar<'a> {
    /// No profile.
    pub fn new(alloc: Global) -> ProfilesSoFar<'a>
        ensures { result.items.items ≡ [] }
    {
        ProfilesSoFar {
            items: Vec::new(alloc),
            names: BTreeSet::new(alloc),
        }
    }

    /// Whether one of the profiles has this name. It takes no memory; `O(log n)` comparisons of names.
    pub fn has(&self, name: &[u8]) -> bool
        ensures { result ≡ list_any (is_of_name name.now) (map seen_profile self.now.items.items) }
    {
        self.names.contains(name)
    }

    /// The profiles with one more after the others.
    ///
    /// # Errors
    ///
    /// Where memory runs out.
    pub fn with(self, profile: Profile<'a>) -> Result<ProfilesSoFar<'a>, AllocError>
        ensures { IfOk result (λ more. more.items.items ≡ self.entry.items.items ++ profile.entry ∷ []) }
    {
        let ProfilesSoFar {
            mut items,
            mut names,
        } = self;
        names.insert(profile.head.name)?;
        items.push(profile)?;
        Ok(ProfilesSoFar { items, names })
    }
}

// Adds the name of a member of a block, if it is a child or a hat.
fn note<'a>(names: &mut BTreeSet<&'a [u8]>, member: &Member<'a>) -> Result<(), AllocError>
    ensures { OnOk result (AreNamedWith names.old member.now names.new) }
{
    match member {
        Member::OfRule(_) => Ok(()),
        Member::OfChild(child) => {
            names.insert(child.head.name)?;
            Ok(())
        }
    }
}

/// Members of a profile's block.
#[derive(Drop)]
pub struct MembersSoFar<'a> {
    /// The members, in order.
    pub items: Vec<Member<'a>>,
    // The names of the children and hats among them.
    names: BTreeSet<&'a [u8]>,
    ghost named: { AreNamesOf names (λ name. list_any (is_child_of_name name) (map seen_member items.items)) },
}

impl<'a> MembersSoFar<'a> {
    /// No member.
    pub fn new(alloc: Global) -> MembersSoFar<'a>
        ensures { result.items.items ≡ [] }
    {
        MembersSoFar {
            items: Vec::new(alloc),
            names: BTreeSet::new(alloc),
        }
    }

    /// Whether a child or a hat among the members has this name. It takes no memory; `O(log n)` comparisons of names.
    pub fn has(&self, name: &[u8]) -> bool
        ensures { result ≡ list_any (is_child_of_name name.now) (map seen_member self.now.items.items) }
    {
        self.names.contains(name)
    }

    /// The members with one more after the others.
    ///
    /// # Errors
    ///
    /// Where memory runs out.
    pub fn with(self, member: Member<'a>) -> Result<MembersSoFar<'a>, AllocError>
        ensures { IfOk result (λ more. more.items.items ≡ self.entry.items.items ++ member.entry ∷ []) }
    {
        let MembersSoFar {
            mut items,
            mut names,
        } = self;
        note(&mut names, &member)?;
        items.push(member)?;
        Ok(MembersSoFar { items, names })
    }
}
