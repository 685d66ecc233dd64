//! Starts of programs that lead elsewhere, as they are told.

ghost use Rattle.std.specs.Prelude.{◌≡◌, OnOk};
ghost use Rattle.aa_explain_reach.specs.Patterns.{every_pattern};
ghost use Rattle.aa_explain_start_changes.specs.Starters.{AreThere, seen_starters};
ghost use Rattle.aa_explain_start_changes.specs.code.Same.{same_leads};
ghost use Rattle.aa_explain_start_changes.specs.code.Telling.{AddsChange, AddsChanges, PutsPair, differs, has_pair, pair_of_change, pair_told};

use crate::same::{same_led, same_pair};
use crate::starter::{Led, ReadyStarters, Starters};
use aa_glob_pattern::Pattern;
use std::alloc::{AllocError, Global};

/// The start of a program that leads elsewhere behind a change of policy.
#[derive(Drop)]
pub struct StartChange<'a> {
    /// What it leads to before.
    pub old: Led<'a>,
    /// What it leads to behind it.
    pub new: Led<'a>,
    /// Whether the task's user owns the program's file: where that of another leads so, too, not.
    pub owned: bool,
    /// The program's path.
    pub path: Vec<u8>,
}

/// What a start leads to, before a change and behind it.
#[derive(Clone, Copy)]
pub struct Pair<'a> {
    /// What it leads to before.
    pub old: Led<'a>,
    /// What it leads to behind it.
    pub new: Led<'a>,
}

// What a start that is told leads to.
fn pair_of_change<'a>(change: &StartChange<'a>) -> Pair<'a>
    ensures { result ≡ pair_of_change change.now }
{
    Pair {
        old: change.old,
        new: change.new,
    }
}

// Whether one of some starts is told to lead to the same.
fn has_pair(starters: Starters<'_, '_>, pair: Pair<'_>, changes: &[StartChange<'_>]) -> bool
    ensures { result ≡ has_pair (seen_starters starters.entry) pair.entry changes.now }
{
    let mut rest = changes;
    while let [change, behind @ ..] = rest {
        if same_pair(starters, pair_of_change(change), pair) {
            return true;
        }
        rest = behind;
    }
    false
}

// Whether a start leads elsewhere.
fn differs(starters: Starters<'_, '_>, pair: Pair<'_>) -> bool
    ensures { result ≡ differs (pair_told (seen_starters starters.entry) pair.entry) }
{
    !same_led(
        starters.old.slots.as_slice(),
        pair.old,
        starters.new.slots.as_slice(),
        pair.new,
    )
}

// Appends the start of the program of a path that leads there to others, if it leads elsewhere, and none of these leads
// to the same.
fn put_pair<'a>(
    alloc: Global,
    starters: Starters<'_, '_>,
    pair: Pair<'a>,
    owned: bool,
    path: &[u8],
    changes: &mut Vec<StartChange<'a>>,
) -> Result<(), AllocError>
    ensures { OnOk result (PutsPair (seen_starters starters.entry) pair.entry owned path.now changes.old.items changes.new.items) }
{
    if !differs(starters, pair) {
        return Ok(());
    }
    if has_pair(starters, pair, changes) {
        return Ok(());
    }
    changes.push(StartChange {
        old: pair.old,
        new: pair.new,
        owned,
        path: Vec::from_slice(alloc, path)?,
    })?;
    Ok(())
}

// The same of the start of the program of a path, by what it leads to.
fn put_change<'a>(
    alloc: Global,
    ready: &ReadyStarters<'_, 'a>,
    owned: bool,
    path: &[u8],
    changes: &mut Vec<StartChange<'a>>,
) -> Result<(), AllocError>
    requires { AreThere ready.now }
    ensures { OnOk result (AddsChange (seen_starters ready.now) owned path.now changes.old.items changes.new.items) }
{
    let old = ready.old_led(alloc, owned, path)?;
    let new = ready.new_led(alloc, owned, path)?;
    put_pair(
        alloc,
        ready.starters,
        Pair { old, new },
        owned,
        path,
        changes,
    )
}

/// Appends the starts of the program of a path that lead elsewhere to others, of a file of another than the task's user
/// and of one of its own, if the path is absolute, as far as none of these leads to the same.
///
/// # Errors
///
/// Where memory runs out. The first may have been appended then.
pub fn put_changes<'a>(
    alloc: Global,
    ready: &ReadyStarters<'_, 'a>,
    every: &Pattern,
    path: &[u8],
    changes: &mut Vec<StartChange<'a>>,
) -> Result<(), AllocError>
    requires there { AreThere ready.now }
    requires every { every.now ≡ every_pattern }
    ensures { OnOk result (AddsChanges (seen_starters ready.now) path.now changes.old.items changes.new.items) }
{
    if !every.matches(path) {
        return Ok(());
    }
    put_change(alloc, ready, false, path, changes)?;
    put_change(alloc, ready, true, path, changes)
}
