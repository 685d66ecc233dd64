//! Changes, each once, with those that have it.

ghost use Rattle.std.specs.Prelude.{◌≡◌, [], OnOk, false, length, option_map, slice_get};
ghost use Rattle.aatry_shared.specs.SeenSharing.{seen_change, seen_group, seen_names};
ghost use Rattle.aatry_shared.specs.Sharing.{are_several, ends_in, has_change, is_shared, with_having, with_name};

use crate::change::Change;
use indexmap::IndexMap;
use std::alloc::{AllocError, Global};
use std::marker::Model;

/// A change, and the names that have it, borrowed.
#[derive(Clone, Copy)]
pub struct Group<'t, 'a> {
    /// The change.
    pub change: &'t Change,
    /// The full names of those that have it, in their order.
    pub names: &'t [&'a [u8]],
}

/// Changes in the order in which they first came, each once, with the full names of the profiles, children and hats that have it. Contracts see
/// their list.
#[derive(Drop)]
pub struct Sharing<'a> {
    // The allocator of new lists of names.
    alloc: Global,
    groups: IndexMap<Change, Vec<&'a [u8]>>,
}

impl<'a> Model for Sharing<'a> {
    ghost use Rattle.std.specs.Prelude.{List};
    ghost use Rattle.aatry_shared.specs.SeenSharing.{seen_entries};
    ghost use Rattle.aatry_shared.specs.Sharing.{Group as SeenGroup};

    ghost Value = { List SeenGroup };

    ghost view = { λ s. seen_entries s.groups.entries };
}

// Whether this is the last of some names.
fn ends_in(names: &[&[u8]], name: &[u8]) -> bool
    ensures { result ≡ ends_in (seen_names names.now) name.now }
{
    match names.last() {
        None => false,
        Some(last) => *last == name,
    }
}

// Appends a name, unless it is the last one.
fn push_name<'a>(names: &mut Vec<&'a [u8]>, name: &'a [u8]) -> Result<(), AllocError>
    ensures { OnOk result (seen_names names.new.items ≡ with_name (seen_names names.old.items) name.now) }
{
    if ends_in(names, name) {
        return Ok(());
    }
    names.push(name)?;
    Ok(())
}

/// Whether these are two or more. It takes no memory.
pub fn are_several(names: &[&[u8]]) -> bool
    ensures { result ≡ are_several (seen_names names.now) }
{
    names.len() > 1
}

impl<'a> Sharing<'a> {
    /// No changes. It takes no memory.
    pub fn new(alloc: Global) -> Sharing<'a>
        ensures { result ≡ [] }
    {
        Sharing {
            alloc,
            groups: IndexMap::new(alloc),
        }
    }

    /// Adds one more name that has a change: to the names of the same change, if there are any, and else after all changes. A name that comes twice,
    /// with no other in between, is added once.
    ///
    /// # Errors
    ///
    /// Where memory runs out. What is known of the changes then is undefined.
    pub fn add(&mut self, name: &'a [u8], change: Change) -> Result<(), AllocError>
        ensures { OnOk result (self.new ≡ with_having (record { name = name.now; change = seen_change change }) self.old) }
    {
        match self.groups.get_mut(&change) {
            Some(names) => push_name(names, name),
            None => self.begin(name, change),
        }
    }

    // Adds a change with the first name that has it.
    fn begin(&mut self, name: &'a [u8], change: Change) -> Result<(), AllocError>
        requires { has_change self.old (seen_change change) ≡ false }
        ensures { OnOk result (self.new ≡ with_having (record { name = name.now; change = seen_change change }) self.old) }
    {
        let mut names = Vec::new(self.alloc);
        names.push(name)?;
        self.groups.insert(change, names)?;
        Ok(())
    }

    /// Whether two or more have a change. It takes no memory.
    pub fn is_shared(&self, change: &Change) -> bool
        ensures { result ≡ is_shared self.now (seen_change change.now) }
    {
        match self.groups.get(change) {
            None => false,
            Some(names) => are_several(names),
        }
    }

    /// How many changes there are. It takes no memory.
    pub fn len(&self) -> usize
        ensures { result ≡ length self.now }
    {
        self.groups.len()
    }

    /// The change at an index, from 0, with the names that have it, if there are as many. It takes no memory.
    pub fn get(&self, place: usize) -> Option<Group<'_, 'a>>
        ensures { option_map seen_group result ≡ slice_get self.now place }
    {
        match self.groups.get_index(place) {
            Some((change, names)) => Some(Group {
                change,
                names: names.as_slice(),
            }),
            None => None,
        }
    }
}
