//! Which written rules the rules of a profile, a child or a hat were made of.

ghost use Rattle.std.specs.Prelude.{◌≡◌, IfOk};
ghost use Rattle.aa_explain_redundant.specs.Left.{is_file};
ghost use Rattle.aatry_check_rules.specs.Written.{file_place, file_places_from, first_at, number_of, numbers_of, stands_at};
ghost use Rattle.aatry_shared.specs.PartFeatures.{place_at};

use aa_profile_data::Rule;
use aa_text_files::Place;
use std::alloc::{AllocError, Global};

/// Where the rule of a number is written, if that is known. It takes no memory.
pub fn place_at(places: &[Option<Place>], number: usize) -> Option<Place>
    ensures { result ≡ place_at places.now number }
{
    match places.get(number) {
        None => None,
        Some(place) => *place,
    }
}

/// Whether a rule is on files. It takes no memory.
pub fn is_file(rule: &Rule) -> bool
    ensures { result ≡ is_file rule.now }
{
    match rule {
        Rule::File(_) => true,
        Rule::Cap(_) | Rule::Net(_) | Rule::Other(_) => false,
    }
}

// Where the rule of a number is written, if it is on files, and that is known.
fn file_place(places: &[Option<Place>], number: usize, rule: &Rule) -> Option<Place>
    ensures { result ≡ file_place places.now number rule.now }
{
    if is_file(rule) {
        place_at(places, number)
    } else {
        None
    }
}

/// Where each of some rules on files is written, if that is known; any other rule has no place here.
///
/// # Errors
///
/// Where memory runs out.
pub fn file_places(
    alloc: Global,
    places: &[Option<Place>],
    rules: &[Rule],
) -> Result<Vec<Option<Place>>, AllocError>
    ensures { IfOk result (λ found. found.items ≡ file_places_from places.now 0 rules.now) }
{
    let mut found = Vec::with_capacity(alloc, rules.len())?;
    let mut number = 0;
    let mut rest = rules;
    while let [rule, behind @ ..] = rest {
        found.push(file_place(places, number, rule))?;
        number += 1;
        rest = behind;
    }
    Ok(found)
}

// Whether a rule is written at a place.
fn stands_at(place: Place, own: Option<Place>) -> bool
    ensures { result ≡ stands_at place own }
{
    match own {
        None => false,
        Some(own) => own.file == place.file && own.at == place.at,
    }
}

// The number of the first rule that is written at a place; where none is, `other`.
fn first_at(place: Place, other: usize, places: &[Option<Place>]) -> usize
    ensures { result ≡ first_at place other 0 places.now }
{
    let mut number: usize = 0;
    let mut rest = places;
    while let [own, behind @ ..] = rest {
        if stands_at(place, *own) {
            return number;
        }
        number += 1;
        rest = behind;
    }
    other
}

/// The number of the written rule that a rule of a number was made of, which is written at a place: that of the first rule at that place. A rule
/// whose place isn't known is by itself. `O(n)` in the number of places. It takes no memory.
pub fn number_of(places: &[Option<Place>], number: usize, own: Option<Place>) -> usize
    ensures { result ≡ number_of places.now number own }
{
    match own {
        None => number,
        Some(place) => first_at(place, number, places),
    }
}

/// The numbers of the written rules that rules were made of, by where they are written.
///
/// # Errors
///
/// Where memory runs out.
pub fn numbers_of(alloc: Global, places: &[Option<Place>]) -> Result<Vec<usize>, AllocError>
    ensures { IfOk result (λ numbers. numbers.items ≡ numbers_of places.now) }
{
    let mut numbers = Vec::with_capacity(alloc, places.len())?;
    let mut number = 0;
    let mut rest = places;
    while let [own, behind @ ..] = rest {
        numbers.push(number_of(places, number, *own))?;
        number += 1;
        rest = behind;
    }
    Ok(numbers)
}
