//! Which written rules of profiles, children and hats decide nothing.

ghost use Rattle.std.specs.Prelude.{◌≡◌, ◌++◌, ◌∷◌, [], IfOk, OnOk, filter, map, option_map};
ghost use Rattle.std.specs.List.{All, list_any};
ghost use Rattle.aa_explain_redundant.specs.Seen.{seen_written};
ghost use Rattle.aatry_check_rules.specs.Finding.{AreFound, AreRedundantWithin, HasExample, IsFound, has_told, is_absent, is_asked, is_many, is_of_file, parts_asked, seen_found, some_many, some_told, told_numbers};
ghost use Rattle.aatry_check_rules.specs.SeenWhich.{seen_which};
ghost use Rattle.aatry_check_rules.specs.Written.{tried_of, written_of};
ghost use Rattle.aatry_policy.specs.SeenProfiles.{seen_part};

use crate::numbers::{file_places, numbers_of};
use crate::trying::{Which, tried_of};
use aa_explain_redundant::{Example, WrittenRules, example_of, redundant_rules};
use aatry_policy::Part;
use std::alloc::{AllocError, Global};

/// A written rule that decides nothing.
#[derive(Drop)]
pub struct RedundantRule {
    /// Its number: that of the first of its rules on files.
    pub number: usize,
    /// An example of what it matches; `None`, where it has too many paths of its own.
    pub example: Option<Example>,
}

/// What is found of a part.
#[derive(Drop)]
pub struct Found<'a> {
    /// The part.
    pub part: &'a Part<'a>,
    /// How many of its written rules were tried.
    pub tried: usize,
    /// Those of them that decide nothing, in the order in which they are written; `None`, where there are too many paths.
    pub told: Option<Vec<RedundantRule>>,
}

/// Which written rules are tried, and how far.
#[derive(Clone, Copy)]
pub struct Question<'a> {
    /// Which rules.
    pub which: Which<'a>,
    /// How many sets of states are looked at, at most.
    pub limit: usize,
}

// Appends a written rule to `told`, with an example of what it matches, where these are gone.
fn push_example(
    alloc: Global,
    rules: WrittenRules<'_>,
    gone: &[usize],
    number: usize,
    limit: usize,
    told: &mut Vec<RedundantRule>,
) -> Result<(), AllocError>
    ensures numbers { OnOk result (told_numbers told.new.items ≡ told_numbers told.old.items ++ number ∷ []) }
    ensures examples { All (HasExample (seen_written rules.entry) gone.now limit) told.old.items
        → OnOk result (All (HasExample (seen_written rules.entry) gone.now limit) told.new.items) }
{
    let example = example_of(alloc, rules, gone, number, limit)?;
    told.push(RedundantRule { number, example })?;
    Ok(())
}

// Written rules, each with an example of what it matches, where they are gone.
fn with_examples(
    alloc: Global,
    rules: WrittenRules<'_>,
    gone: &[usize],
    limit: usize,
) -> Result<Vec<RedundantRule>, AllocError>
    ensures numbers { IfOk result (λ told. told_numbers told.items ≡ gone.now) }
    ensures examples { IfOk result (λ told. All (HasExample (seen_written rules.entry) gone.now limit) told.items) }
{
    let mut told = Vec::new(alloc);
    let mut rest = gone;
    while let [number, behind @ ..] = rest {
        push_example(alloc, rules, gone, *number, limit, &mut told)?;
        rest = behind;
    }
    Ok(told)
}

// Those of some written rules that decide nothing, with examples, in the order in which they are written; `None` where there are too many paths.
fn redundant_within(
    alloc: Global,
    rules: WrittenRules<'_>,
    tried: &[usize],
    limit: usize,
) -> Result<Option<Vec<RedundantRule>>, AllocError>
    ensures { IfOk result (λ told. AreRedundantWithin (seen_written rules.entry) tried.now limit (option_map (λ told. told.items) told)) }
{
    match redundant_rules(alloc, rules, tried, limit)? {
        None => Ok(None),
        Some(numbers) => {
            let mut gone = numbers;
            gone.reverse();
            let told = with_examples(alloc, rules, &gone, limit)?;
            Ok(Some(told))
        }
    }
}

// What is found of a part.
fn found_of<'a>(
    alloc: Global,
    question: Question<'_>,
    part: &'a Part<'a>,
) -> Result<Found<'a>, AllocError>
    ensures found { IfOk result (λ found. IsFound (seen_which question.entry.which) question.entry.limit (seen_found found)) }
    ensures part { IfOk result (λ found. (seen_found found).part ≡ seen_part part.now) }
{
    let places = file_places(alloc, part.places, part.section.rules)?;
    let written = numbers_of(alloc, &places)?;
    let tried = tried_of(alloc, question.which, part, &places)?;
    let rules = WrittenRules {
        audit: part.section.audit,
        rules: part.section.rules,
        written: &written,
    };
    let told = redundant_within(alloc, rules, &tried, question.limit)?;
    Ok(Found {
        part,
        tried: tried.len(),
        told,
    })
}

// Appends what is found of a part to `out`.
fn push_found<'a>(
    alloc: Global,
    question: Question<'_>,
    part: &'a Part<'a>,
    out: &mut Vec<Found<'a>>,
) -> Result<(), AllocError>
    ensures parts { OnOk result (map (λ one. one.part) (map seen_found out.new.items) ≡ map (λ one. one.part) (map seen_found out.old.items) ++ seen_part part.now ∷ []) }
    ensures found { All (IsFound (seen_which question.entry.which) question.entry.limit) (map seen_found out.old.items)
        → OnOk result (All (IsFound (seen_which question.entry.which) question.entry.limit) (map seen_found out.new.items)) }
{
    let found = found_of(alloc, question, part)?;
    out.push(found)?;
    Ok(())
}

/// Whether a file has one of these names. It takes no memory.
pub fn is_named(file: &[u8], names: &[&[u8]]) -> bool
    ensures { result ≡ list_any (is_of_file file.now) (map (λ name. name.now) names.now) }
{
    let mut rest = names;
    while let [name, behind @ ..] = rest {
        if file == *name {
            return true;
        }
        rest = behind;
    }
    false
}

// Whether a part is asked about: its file has one of these names, or there is no name.
fn is_asked(names: &[&[u8]], part: &Part<'_>) -> bool
    ensures { result ≡ is_asked (map (λ name. name.now) names.now) (seen_part part.now) }
{
    names.is_empty() || is_named(part.file, names)
}

// Appends what is found of a part to `out`, if it is asked about.
fn push_asked<'a>(
    alloc: Global,
    question: Question<'_>,
    names: &[&[u8]],
    part: &'a Part<'a>,
    out: &mut Vec<Found<'a>>,
) -> Result<(), AllocError>
    ensures parts { OnOk result (map (λ one. one.part) (map seen_found out.new.items)
        ≡ map (λ one. one.part) (map seen_found out.old.items) ++ parts_asked (map (λ name. name.now) names.now) (seen_part part.now ∷ [])) }
    ensures found { All (IsFound (seen_which question.entry.which) question.entry.limit) (map seen_found out.old.items)
        → OnOk result (All (IsFound (seen_which question.entry.which) question.entry.limit) (map seen_found out.new.items)) }
{
    if is_asked(names, part) {
        push_found(alloc, question, part, out)?;
    }
    Ok(())
}

/// What is found of the parts of the files of these names, in their order; or of all parts, where there is no name.
///
/// # Errors
///
/// Where memory runs out, and where there are more patterns than `aa_explain_redundant::redundant_rules` takes.
pub fn find<'a>(
    alloc: Global,
    question: Question<'_>,
    names: &[&[u8]],
    parts: &'a [Part<'a>],
) -> Result<Vec<Found<'a>>, AllocError>
    ensures { IfOk result (λ found. AreFound (seen_which question.entry.which) question.entry.limit
        (parts_asked (map (λ name. name.now) names.now) (map seen_part parts.now)) (map seen_found found.items)) }
{
    let mut found = Vec::new(alloc);
    let mut rest = parts;
    while let [part, behind @ ..] = rest {
        push_asked(alloc, question, names, part, &mut found)?;
        rest = behind;
    }
    Ok(found)
}

/// Whether no part is of the file of a name. It takes no memory.
pub fn is_absent(parts: &[Part<'_>], name: &[u8]) -> bool
    ensures { result ≡ is_absent (map seen_part parts.now) name.now }
{
    let mut rest = parts;
    while let [part, behind @ ..] = rest {
        if part.file == name {
            return false;
        }
        rest = behind;
    }
    true
}

/// Whether for one of some names no part is of its file. It takes no memory.
pub fn has_absent(parts: &[Part<'_>], names: &[&[u8]]) -> bool
    ensures { result ≡ list_any (is_absent (map seen_part parts.now)) (map (λ name. name.now) names.now) }
{
    let mut rest = names;
    while let [name, behind @ ..] = rest {
        if is_absent(parts, name) {
            return true;
        }
        rest = behind;
    }
    false
}

// Whether some written rule of a part decides nothing.
fn has_told(found: &Found<'_>) -> bool
    ensures { result ≡ has_told (seen_found found.now) }
{
    match &found.told {
        None => false,
        Some(told) => !told.is_empty(),
    }
}

/// Whether some written rule decides nothing. It takes no memory.
pub fn some_told(found: &[Found<'_>]) -> bool
    ensures { result ≡ some_told (map seen_found found.now) }
{
    let mut rest = found;
    while let [one, behind @ ..] = rest {
        if has_told(one) {
            return true;
        }
        rest = behind;
    }
    false
}

/// Whether a part has too many paths. It takes no memory.
pub fn is_many(found: &Found<'_>) -> bool
    ensures { result ≡ is_many (seen_found found.now) }
{
    found.told.is_none()
}

/// Whether some part has too many paths. It takes no memory.
pub fn some_many(found: &[Found<'_>]) -> bool
    ensures { result ≡ some_many (map seen_found found.now) }
{
    let mut rest = found;
    while let [one, behind @ ..] = rest {
        if is_many(one) {
            return true;
        }
        rest = behind;
    }
    false
}
