//! Which written rules of a profile, a child or a hat are tried.

ghost use Rattle.std.specs.Prelude.{◌≡◌, ◌++◌, IfOk, OnOk};
ghost use Rattle.aatry_check_rules.specs.SeenWhich.{seen_which};
ghost use Rattle.aatry_check_rules.specs.Written.{file_places, is_in_file, is_meant, is_tried, tried_at, tried_from, tried_of};
ghost use Rattle.aatry_policy.specs.SeenProfiles.{seen_part};

use crate::numbers::{is_file, number_of, place_at};
use aa_profile_data::Rule;
use aa_text_files::{Files, Place};
use aatry_claims::asks_rules;
use aatry_policy::Part;
use std::alloc::{AllocError, Global};

/// Which written rules are tried.
#[derive(Clone, Copy)]
pub struct Which<'a> {
    /// Whether rules of included files are tried, too.
    pub included: bool,
    /// All files of the folder.
    pub files: &'a Files,
}

// Whether a rule is written in the file of a name.
fn is_in_file(files: &Files, name: &[u8], place: Option<Place>) -> bool
    ensures { result ≡ is_in_file files.now name.now place }
{
    match place {
        None => false,
        Some(place) => files.name_at(place.file) == name,
    }
}

// Whether rules that are written at a place are tried.
fn is_meant(which: Which<'_>, name: &[u8], place: Option<Place>) -> bool
    ensures { result ≡ is_meant (seen_which which.entry) name.now place }
{
    which.included || is_in_file(which.files, name, place)
}

// Whether a rule is the first on files of a written rule that is tried.
fn is_tried(
    which: Which<'_>,
    name: &[u8],
    places: &[Option<Place>],
    number: usize,
    rule: &Rule,
) -> bool
    ensures { result ≡ is_tried (seen_which which.entry) name.now places.now number rule.now }
{
    let place = place_at(places, number);
    is_file(rule) && number_of(places, number, place) == number && is_meant(which, name, place)
}

// Appends the number of a rule to `tried`, if it is the first on files of a written rule that is tried.
fn push_tried(
    which: Which<'_>,
    name: &[u8],
    places: &[Option<Place>],
    number: usize,
    rule: &Rule,
    tried: &mut Vec<usize>,
) -> Result<(), AllocError>
    ensures { OnOk result (tried.new.items ≡ tried.old.items ++ tried_at (seen_which which.entry) name.now places.now number rule.now) }
{
    if is_tried(which, name, places, number, rule) {
        tried.push(number)?;
    }
    Ok(())
}

// The numbers of the written rules that are tried, in the order in which they are written.
fn tried_in(
    alloc: Global,
    which: Which<'_>,
    name: &[u8],
    places: &[Option<Place>],
    rules: &[Rule],
) -> Result<Vec<usize>, AllocError>
    ensures { IfOk result (λ tried. tried.items ≡ tried_from (seen_which which.entry) name.now places.now 0 rules.now) }
{
    let mut tried = Vec::new(alloc);
    let mut number = 0;
    let mut rest = rules;
    while let [rule, behind @ ..] = rest {
        push_tried(which, name, places, number, rule, &mut tried)?;
        number += 1;
        rest = behind;
    }
    Ok(tried)
}

/// The written rules of a part that are tried, the later first, where its rules on files are written at these places: those of its own file, or all.
/// Where its rules don't decide, since it is in mode unconfined or disabled, none is.
///
/// # Errors
///
/// Where memory runs out.
pub fn tried_of(
    alloc: Global,
    which: Which<'_>,
    part: &Part<'_>,
    places: &[Option<Place>],
) -> Result<Vec<usize>, AllocError>
    requires { places.now ≡ file_places (seen_part part.now) }
    ensures { IfOk result (λ tried. tried.items ≡ tried_of (seen_which which.entry) (seen_part part.now)) }
{
    if !asks_rules(part.section.mode) {
        return Ok(Vec::new(alloc));
    }
    let mut tried = tried_in(alloc, which, part.file, places, part.section.rules)?;
    tried.reverse();
    Ok(tried)
}
