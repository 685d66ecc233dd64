//! The names of stacks.

ghost use Rattle.std.specs.Prelude.{◌≡◌, ◌++◌, IfOk, OnOk, flat_map};
ghost use Rattle.std.specs.List.{fold};
ghost use Rattle.std.specs.Option.{option_copied};
ghost use Rattle.aa_profile_data.specs.Stacks.{parts_of};
ghost use Rattle.aa_set_answers.specs.StackNames.{behind_another, joined, put_name, stack_name};
ghost use Rattle.aa_set_answers.specs.code.SeenNames.{seen_names};

use aa_profile_data::first_member;
use std::alloc::{AllocError, Global};
use std::collections::BTreeSet;

// Adds a name to a set of names.
fn put_name<'a>(names: &mut BTreeSet<&'a [u8]>, name: &'a [u8]) -> Result<(), AllocError>
    ensures { OnOk result (seen_names names.new ≡ put_name (seen_names names.old) name.now) }
{
    names.insert(name)?;
    Ok(())
}

// Adds each of the names in a text, with `//&` between them, to a set of names.
fn put_members<'a>(names: &mut BTreeSet<&'a [u8]>, members: &'a [u8]) -> Result<(), AllocError>
    ensures { OnOk result (seen_names names.new ≡ fold put_name (seen_names names.old) (parts_of members.now)) }
{
    let mut rest = members;
    loop {
        let (name, more) = first_member(rest);
        put_name(names, name)?;
        let Some(more) = more else {
            return Ok(());
        };
        rest = more;
    }
}

// Appends `//&` and a name to a text.
fn push_behind(text: &mut Vec<u8>, name: &[u8]) -> Result<(), AllocError>
    ensures { OnOk result (text.new.items ≡ text.old.items ++ behind_another name.now) }
{
    text.extend_from_slice(b"//&")?;
    text.extend_from_slice(name)?;
    Ok(())
}

// Appends names to a text, each after `//&`.
fn push_others(text: &mut Vec<u8>, names: &mut BTreeSet<&[u8]>) -> Result<(), AllocError>
    ensures { OnOk result (text.new.items ≡ text.old.items ++ flat_map behind_another (seen_names names.old)) }
{
    while let Some(name) = names.pop_first() {
        push_behind(text, name)?;
    }
    Ok(())
}

// Names with `//&` between them.
fn joined(alloc: Global, names: &mut BTreeSet<&[u8]>) -> Result<Vec<u8>, AllocError>
    ensures { IfOk result (λ text. text.items ≡ joined (seen_names names.old)) }
{
    let mut text = Vec::new(alloc);
    if let Some(first) = names.pop_first() {
        text.extend_from_slice(first)?;
        push_others(&mut text, names)?;
    }
    Ok(text)
}

/// The name of a stack of these members, which are full names with `//&` between them, on a base of this name, if it has one: each name once, in
/// byte order, with `//&` between them (docs/policy.md, "Stacks"). A stack of one name has that name.
///
/// # Errors
///
/// Where memory runs out.
pub fn stack_name(alloc: Global, base: Option<&[u8]>, members: &[u8]) -> Result<Vec<u8>, AllocError>
    ensures { IfOk result (λ name. name.items ≡ stack_name (option_copied base.entry) (parts_of members.now)) }
{
    let mut names = BTreeSet::new(alloc);
    if let Some(base) = base {
        put_name(&mut names, base)?;
    }
    put_members(&mut names, members)?;
    joined(alloc, &mut names)
}
