//! The rules of a profile, child or hat, and the one before the refused one with which it conflicts.

ghost use Rattle.std.specs.Prelude.{◌≡◌, IfOk};
ghost use Rattle.aa_explain_written.specs.EarlierRules.{earlier_among, earlier_in_children, earlier_in_profile, earlier_in_profiles};
ghost use Rattle.aa_explain_written.specs.EarlierRules.{first_opposed, is_place, opposed_before, stands_at};

use crate::conflicts::conflict;
use aa_profile_conflicts::first_conflict;
use aa_profile_data::{Child, Profile, Rule};
use aa_profile_grammar::{ProfilePlaces, SectionPlaces};
use aa_text_files::Place;
use std::alloc::{AllocError, Global};

// Whether a rule is at a place, by its own place if it has one.
fn is_place(own: Option<Place>, place: Place) -> bool
    ensures { result ≡ is_place own place }
{
    match own {
        None => false,
        Some(own) => own.file == place.file && own.at == place.at,
    }
}

// Whether the rule of an index is at a place, by the places of the rules.
fn stands_at(places: &[Option<Place>], number: usize, place: Place) -> bool
    ensures { result ≡ stands_at places.now number place }
{
    match places.get(number) {
        None => false,
        Some(own) => is_place(*own, place),
    }
}

// The place of the first of some rules with which one conflicts, by the places of the rules.
fn first_opposed(
    alloc: Global,
    refused: &Rule,
    rules: &[Rule],
    places: &[Option<Place>],
) -> Result<Option<Place>, AllocError>
    ensures { IfOk result (λ found. found ≡ first_opposed refused.now rules.now places.now) }
{
    let mut there = places;
    let mut rest = rules;
    while let [rule, behind @ ..] = rest {
        let [place, others @ ..] = there else {
            return Ok(None);
        };
        if conflict(alloc, refused, rule)? {
            return Ok(*place);
        }
        there = others;
        rest = behind;
    }
    Ok(None)
}

// The place of the first rule before the one at this index with which that one conflicts.
fn opposed_before(
    alloc: Global,
    number: usize,
    rules: &[Rule],
    places: &[Option<Place>],
) -> Result<Option<Place>, AllocError>
    ensures { IfOk result (λ found. found ≡ opposed_before number rules.now places.now) }
{
    match rules.get(number) {
        None => Ok(None),
        Some(refused) => first_opposed(alloc, refused, &rules[..number], places),
    }
}

// The place of the earlier rule among some rules, where the first of them that conflicts with one before it is at `place`.
fn earlier_among(
    alloc: Global,
    place: Place,
    rules: &[Rule],
    places: &[Option<Place>],
) -> Result<Option<Place>, AllocError>
    ensures { IfOk result (λ found. found ≡ earlier_among place rules.now places.now) }
{
    let Some(number) = first_conflict(alloc, rules)? else {
        return Ok(None);
    };
    if stands_at(places, number, place) {
        opposed_before(alloc, number, rules, places)
    } else {
        Ok(None)
    }
}

// The place of the earlier rule among the first of some children and hats that have one.
fn earlier_in_children(
    alloc: Global,
    place: Place,
    children: &[Child],
    places: &[SectionPlaces],
) -> Result<Option<Place>, AllocError>
    ensures { IfOk result (λ found. found ≡ earlier_in_children place children.now places.now) }
{
    let mut there = places;
    let mut rest = children;
    while let [child, behind @ ..] = rest {
        let [own, others @ ..] = there else {
            return Ok(None);
        };
        if let Some(earlier) = earlier_among(
            alloc,
            place,
            child.rules.as_slice(),
            own.rules.as_slice(),
        )? {
            return Ok(Some(earlier));
        }
        there = others;
        rest = behind;
    }
    Ok(None)
}

// The place of the earlier rule among a profile's own rules, or else among those of its children and hats.
fn earlier_in_profile(
    alloc: Global,
    place: Place,
    profile: &Profile,
    places: &ProfilePlaces,
) -> Result<Option<Place>, AllocError>
    ensures { IfOk result (λ found. found ≡ earlier_in_profile place profile.now places.now) }
{
    let own = earlier_among(
        alloc,
        place,
        profile.rules.as_slice(),
        places.own.rules.as_slice(),
    )?;
    if own.is_some() {
        return Ok(own);
    }
    earlier_in_children(
        alloc,
        place,
        profile.children.as_slice(),
        places.children.as_slice(),
    )
}

/// The place of the first rule with which the refused one conflicts, in the first profile, child or hat that has the refused one at `place`, as the
/// first of its rules that conflicts with one before it. `places` are those of the profiles, in their order.
///
/// # Errors
///
/// Where memory runs out.
pub fn earlier_in_profiles(
    alloc: Global,
    place: Place,
    profiles: &[Profile],
    places: &[ProfilePlaces],
) -> Result<Option<Place>, AllocError>
    ensures { IfOk result (λ found. found ≡ earlier_in_profiles place profiles.now places.now) }
{
    let mut there = places;
    let mut rest = profiles;
    while let [profile, behind @ ..] = rest {
        let [own, others @ ..] = there else {
            return Ok(None);
        };
        if let Some(earlier) = earlier_in_profile(alloc, place, profile, own)? {
            return Ok(Some(earlier));
        }
        there = others;
        rest = behind;
    }
    Ok(None)
}
