//! Starts of programs that lead elsewhere.

ghost use Rattle.std.specs.Prelude.{◌≡◌, IfOk, option_map};
ghost use Rattle.aa_explain_start_changes.specs.Starters.{AreThere, IsThere, seen_starter, seen_starters};
ghost use Rattle.aatry_path_changes.specs.Starts.{AreStartsOf, change_of_start, has_gained_start, has_lost_start, seen_policies, starter_named, starters_named};

use crate::others::{is_gained, is_lost};
use aa_decide::{IndexedSlots, find_loaded};
use aa_explain_changes::Change;
use aa_explain_reach::leads_somewhere;
use aa_explain_start_changes::{Led, StartChange, Starter, Starters, start_changes};
use std::alloc::{AllocError, Global};

/// The policy sets of two folders.
#[derive(Clone, Copy)]
pub struct Policies<'a> {
    /// That of the old one.
    pub old: &'a IndexedSlots<'a>,
    /// That of the new one.
    pub new: &'a IndexedSlots<'a>,
}

// How it changes whether a program is started.
fn change_of_start(old: Led<'_>, new: Led<'_>) -> Change
    ensures { result ≡ change_of_start old.entry new.entry }
{
    match (leads_somewhere(old.to), leads_somewhere(new.to)) {
        (false, true) => Change::Gained,
        (true, false) => Change::Lost,
        _ => Change::Otherwise,
    }
}

// Who has a full name in a policy set.
fn starter_named<'s, 'a>(slots: &'s IndexedSlots<'a>, name: &[u8]) -> Starter<'s, 'a>
    ensures named { seen_starter result ≡ starter_named slots.now name.now }
    ensures there { IsThere result }
{
    Starter {
        slots,
        asker: find_loaded(slots, name),
    }
}

/// Who has a full name in the policy sets of both folders.
pub fn starters_named<'a>(policies: Policies<'a>, name: &[u8]) -> Starters<'a, 'a>
    ensures named { seen_starters result ≡ starters_named (seen_policies policies.entry) name.now }
    ensures there { AreThere result }
{
    Starters {
        old: starter_named(policies.old, name),
        new: starter_named(policies.new, name),
    }
}

/// The starts of programs that lead elsewhere; none, where paths are too many.
///
/// # Errors
///
/// Where memory runs out, and where there are more patterns than `aa_explain_start_changes::start_changes` takes.
pub fn find_starts<'a>(
    alloc: Global,
    starters: Starters<'_, 'a>,
    limit: usize,
) -> Result<Option<Vec<StartChange<'a>>>, AllocError>
    requires { AreThere starters }
    ensures { IfOk result (λ found. AreStartsOf (seen_starters starters.entry) limit (option_map (λ starts. starts.items) found)) }
{
    match start_changes(alloc, starters, limit)? {
        None => Ok(None),
        Some(starts) => Ok(Some(starts)),
    }
}

/// Whether a program is started now that wasn't.
pub fn has_gained_start(starts: &[StartChange<'_>]) -> bool
    ensures { result ≡ has_gained_start starts.now }
{
    let mut rest = starts;
    while let [start, behind @ ..] = rest {
        if is_gained(change_of_start(start.old, start.new)) {
            return true;
        }
        rest = behind;
    }
    false
}

/// Whether a program isn't started any more that was.
pub fn has_lost_start(starts: &[StartChange<'_>]) -> bool
    ensures { result ≡ has_lost_start starts.now }
{
    let mut rest = starts;
    while let [start, behind @ ..] = rest {
        if is_lost(change_of_start(start.old, start.new)) {
            return true;
        }
        rest = behind;
    }
    false
}
