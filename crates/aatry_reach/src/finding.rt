//! Under which profiles programs may run that somebody starts, of each who is asked about.

ghost use Rattle.std.specs.Prelude.{◌≡◌, ◌++◌, ◌∷◌, [], IfOk, OnOk, map};
ghost use Rattle.std.specs.List.{All};
ghost use Rattle.aa_decide_ready.specs.Slots.{filled};
ghost use Rattle.aa_set_answers.specs.Askers.{asker};
ghost use Rattle.aatry_reach.specs.Finding.{AreFound, IsFindingOf, IsFound, found_names, has_absent, has_undecided, is_absent, is_undecided, seen_found};

use aa_decide::IndexedSlots;
use aa_explain_reach::{Reach, reachable_profiles};
use aa_set_answers::find_asker;
use std::alloc::{AllocError, Global};

/// What is found of a name.
#[derive(Drop)]
pub enum Finding<'a> {
    /// Nobody has it.
    Absent,
    /// The places that are reached by the starts of who has it.
    Reached(Reach<'a>),
}

/// A name, and what is found of it.
#[derive(Drop)]
pub struct Found<'n, 'a> {
    /// The name.
    pub name: &'n [u8],
    /// What is found.
    pub finding: Finding<'a>,
}

// What is found of a name.
fn finding_of<'a>(
    alloc: Global,
    slots: &IndexedSlots<'a>,
    name: &[u8],
    limit: usize,
) -> Result<Finding<'a>, AllocError>
    ensures { IfOk result (IsFindingOf slots.now limit (asker (filled slots.now) name.now)) }
{
    match find_asker(slots, name) {
        None => Ok(Finding::Absent),
        Some(who) => {
            let reach = reachable_profiles(alloc, slots, who, limit, usize::MAX)?;
            Ok(Finding::Reached(reach))
        }
    }
}

// Appends what is found of a name to others.
fn push_found<'n, 'a>(
    alloc: Global,
    slots: &IndexedSlots<'a>,
    name: &'n [u8],
    limit: usize,
    out: &mut Vec<Found<'n, 'a>>,
) -> Result<(), AllocError>
    ensures names { OnOk result (found_names (map seen_found out.new.items) ≡ found_names (map seen_found out.old.items) ++ name.now ∷ []) }
    ensures found { All (IsFound slots.now limit) (map seen_found out.old.items) → OnOk result (All (IsFound slots.now limit) (map seen_found out.new.items)) }
{
    let finding = finding_of(alloc, slots, name, limit)?;
    out.push(Found { name, finding })?;
    Ok(())
}

/// What is found of each of some names, in their order.
///
/// # Errors
///
/// Where memory runs out, and where there are more patterns than `aa_explain_reach::reachable_profiles` takes.
pub fn find<'n, 'a>(
    alloc: Global,
    slots: &IndexedSlots<'a>,
    names: &[&'n [u8]],
    limit: usize,
) -> Result<Vec<Found<'n, 'a>>, AllocError>
    ensures { IfOk result (λ found. AreFound slots.now limit (map (λ name. name.now) names.now) (map seen_found found.items)) }
{
    let mut found = Vec::new(alloc);
    let mut rest = names;
    while let [name, behind @ ..] = rest {
        push_found(alloc, slots, name, limit, &mut found)?;
        rest = behind;
    }
    Ok(found)
}

// Whether nobody has a name.
fn is_absent(finding: &Finding<'_>) -> bool
    ensures { result ≡ is_absent finding.now }
{
    match finding {
        Finding::Absent => true,
        Finding::Reached(_) => false,
    }
}

// Whether it isn't known where all lead that are reached.
fn is_undecided(finding: &Finding<'_>) -> bool
    ensures { result ≡ is_undecided finding.now }
{
    match finding {
        Finding::Absent => false,
        Finding::Reached(reach) => !reach.unknown.is_empty(),
    }
}

/// Whether nobody has one of the names.
pub fn has_absent(found: &[Found<'_, '_>]) -> bool
    ensures { result ≡ has_absent (map seen_found found.now) }
{
    let mut rest = found;
    while let [one, behind @ ..] = rest {
        if is_absent(&one.finding) {
            return true;
        }
        rest = behind;
    }
    false
}

/// Whether it isn't known of somebody where all lead that are reached.
pub fn has_undecided(found: &[Found<'_, '_>]) -> bool
    ensures { result ≡ has_undecided (map seen_found found.now) }
{
    let mut rest = found;
    while let [one, behind @ ..] = rest {
        if is_undecided(&one.finding) {
            return true;
        }
        rest = behind;
    }
    false
}
