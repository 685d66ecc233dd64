//! Where loaded profiles were read.

ghost use Rattle.std.specs.Prelude.{◌≡◌, ◌++◌, ◌∷◌, [], IfOk, OnOk, drop, option_map};
ghost use Rattle.aatry_policy.specs.Origins.{file_of, file_origins, flags_in, idle_flags, origin_in, own_origin, places_in, places_of, rule_places};

use aa_bytes::Sequence;
use aa_profile::ProfilePlaces;
use aa_profile_data::Profile;
use aa_text_files::Place;
use std::alloc::{AllocError, Global};

/// Where a profile was read.
#[derive(Drop)]
pub struct Origin {
    /// The profile's name.
    pub profile: Sequence<u8>,
    /// The name of the file that it was read of.
    pub file: Sequence<u8>,
    /// The places of its parts; `None` where these aren't known any more, since the files were read anew.
    pub places: Option<ProfilePlaces>,
}

// The origin of a profile of a file.
fn own_origin(
    alloc: Global,
    file: &[u8],
    profile: &Profile,
    places: ProfilePlaces,
) -> Result<Origin, AllocError>
    ensures { IfOk result (λ origin. origin ≡ own_origin file.now profile.now places) }
{
    Ok(Origin {
        profile: Sequence::from_slice(alloc, profile.name.as_slice())?,
        file: Sequence::from_slice(alloc, file)?,
        places: Some(places),
    })
}

// Appends the origin of the first of some profiles of a file, if there is one, and returns those after it.
fn push_origin<'p>(
    alloc: Global,
    file: &[u8],
    profiles: &'p [Profile],
    places: ProfilePlaces,
    origins: &mut Vec<Origin>,
) -> Result<&'p [Profile], AllocError>
    ensures pushed { OnOk result (origins.new.items ≡ origins.old.items ++ file_origins file.now profiles.now (places ∷ [])) }
    ensures left { IfOk result (λ left. left.now ≡ drop 1 profiles.now) }
{
    match profiles {
        [] => Ok(profiles),
        [profile, behind @ ..] => {
            origins.push(own_origin(alloc, file, profile, places)?)?;
            Ok(behind)
        }
    }
}

/// The origins of the profiles of a file, by its name, in their order, with the places of their parts.
///
/// # Errors
///
/// Where memory runs out.
pub fn origins_of(
    alloc: Global,
    file: &[u8],
    profiles: &[Profile],
    places: Vec<ProfilePlaces>,
) -> Result<Vec<Origin>, AllocError>
    ensures { IfOk result (λ origins. origins.items ≡ file_origins file.now profiles.now places.items) }
{
    let mut origins = Vec::with_capacity(alloc, profiles.len())?;
    let mut rest = profiles;
    for own in places {
        rest = push_origin(alloc, file, rest, own, &mut origins)?;
    }
    Ok(origins)
}

/// The first of some origins that is that of a profile of this name, if one is. `O(n)` in the number of origins. It takes no memory.
pub fn origin_in<'a>(origins: &'a [Origin], name: &[u8]) -> Option<&'a Origin>
    ensures { option_map (λ origin. origin.now) result ≡ origin_in name.now origins.now }
{
    let mut rest = origins;
    while let [origin, behind @ ..] = rest {
        if origin.profile.as_slice() == name {
            return Some(origin);
        }
        rest = behind;
    }
    None
}

/// The name of the file of an origin; an empty one where there is no origin.
pub fn file_of<'a>(origin: Option<&'a Origin>) -> &'a [u8]
    ensures { result.now ≡ file_of (option_map (λ origin. origin.now) origin.entry) }
{
    match origin {
        None => &[],
        Some(origin) => origin.file.as_slice(),
    }
}

// The places of a profile's parts, by its origin, if they are known.
fn places_of<'a>(origin: Option<&'a Origin>) -> Option<&'a ProfilePlaces>
    ensures { option_map (λ places. places.now) result ≡ places_of (option_map (λ origin. origin.now) origin.entry) }
{
    match origin {
        None => None,
        Some(origin) => match &origin.places {
            None => None,
            Some(places) => Some(places),
        },
    }
}

// The places of the rules of a profile, or of its child or hat at an index.
fn places_in(places: &ProfilePlaces, child: Option<usize>) -> &[Option<Place>]
    ensures { result.now ≡ places_in places.now child }
{
    match child {
        None => places.own.rules.as_slice(),
        Some(place) => match places.children.as_slice().get(place) {
            None => &[],
            Some(own) => own.rules.as_slice(),
        },
    }
}

// The flags of a profile that decide nothing, or those of its child or hat at an index.
fn flags_in(places: &ProfilePlaces, child: Option<usize>) -> &[Sequence<u8>]
    ensures { result.now ≡ flags_in places.now child }
{
    match child {
        None => places.own.flags.as_slice(),
        Some(place) => match places.children.as_slice().get(place) {
            None => &[],
            Some(own) => own.flags.as_slice(),
        },
    }
}

// The flags that decide nothing of a profile, or of its child or hat at an index, by its origin; none where these aren't known.
pub fn idle_flags<'a>(origin: Option<&'a Origin>, child: Option<usize>) -> &'a [Sequence<u8>]
    ensures { result.now ≡ idle_flags (option_map (λ origin. origin.now) origin.entry) child }
{
    match places_of(origin) {
        None => &[],
        Some(places) => flags_in(places, child),
    }
}

/// The places of the rules of a profile, or of its child or hat at an index, by its origin; none where these aren't known.
pub fn rule_places<'a>(origin: Option<&'a Origin>, child: Option<usize>) -> &'a [Option<Place>]
    ensures { result.now ≡ rule_places (option_map (λ origin. origin.now) origin.entry) child }
{
    match places_of(origin) {
        None => &[],
        Some(places) => places_in(places, child),
    }
}
