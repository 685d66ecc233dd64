//! The answers for profiles, children and hats in a question about all paths.

ghost use Rattle.std.specs.Prelude.{◌≡◌, ◌++◌, ◌∷◌, [], IfOk, OnOk, Some, map};
ghost use Rattle.aa_explain_paths.specs.SeenAsked.{seen_asked};
ghost use Rattle.aatry_claims.specs.Found.{AreAllFound, AreFound, IsFound, IsFoundBy, asks_rules, every_rule, found_names, names_or, part_names, rules_asked, seen_found};
ghost use Rattle.aatry_policy.specs.SeenProfiles.{seen_part};

use aa_explain_paths::{PathAnswer, PathQuestion, ask_all_paths};
use aa_glob_pattern::Pattern;
use aa_profile_data::{FileRule, Mode, Perms, Rank, Rule};
use aatry_policy::{Part, part_of};
use bitflags::Flags;
use std::alloc::{AllocError, Global};

/// The answer for a full name.
#[derive(Drop)]
pub enum Finding {
    /// No profile, child or hat has the name.
    Absent,
    /// The answer of the rules for all paths.
    ByRules(PathAnswer),
}

/// A full name that is asked about, and the answer.
#[derive(Drop)]
pub struct Found<'a> {
    /// The full name.
    pub name: &'a [u8],
    /// The profile, child or hat of that name, if there is one.
    pub part: Option<&'a Part<'a>>,
    /// The answer by the rules that decide: its own, or, where these don't since its mode is unconfined or it is disabled, one that allows
    /// everything.
    pub finding: Finding,
}

/// A question, and what is needed to answer it.
#[derive(Clone, Copy)]
pub struct Inquiry<'a, 'q> {
    /// The question.
    pub question: PathQuestion<'q>,
    /// How many sets of states are looked at, at most, for each full name.
    pub limit: usize,
    /// All profiles, children and hats.
    pub parts: &'a [Part<'a>],
    /// The rule that allows everything (`every_rule`), alone.
    pub all: &'a [Rule],
}

/// Whether the rules of a profile, child or hat in a mode decide.
pub fn asks_rules(mode: Option<Mode>) -> bool
    ensures { result ≡ asks_rules mode }
{
    match mode {
        Some(Mode::Enforce | Mode::Complain) => true,
        Some(Mode::Unconfined) | None => false,
    }
}

/// The rule that allows all access to each file.
///
/// # Errors
///
/// Where memory runs out.
pub fn every_rule(alloc: Global) -> Result<Rule, AllocError>
    ensures { IfOk result (λ rule. rule ≡ every_rule) }
{
    let pattern = match Pattern::read(alloc, b"/{**,}") {
        Ok(pattern) => pattern,
        // The pattern is read, so only memory can run out.
        Err(_) => return Err(AllocError),
    };
    Ok(Rule::File(FileRule {
        pattern,
        access: Perms::from_bits_retain(127),
        exec: None,
        rank: Rank::Loose,
        link: None,
        owner: false,
        deny: false,
        audit: false,
    }))
}

// The rules that decide for a part: its own, or those that allow everything.
fn rules_asked<'a>(part: &'a Part<'a>, all: &'a [Rule]) -> &'a [Rule]
    requires { all.now ≡ every_rule ∷ [] }
    ensures { result.now ≡ rules_asked (seen_part part.now) }
{
    if asks_rules(part.section.mode) {
        part.section.rules
    } else {
        all
    }
}

// The answer for a part with a name.
fn found_by<'a>(
    alloc: Global,
    inquiry: Inquiry<'a, '_>,
    part: &'a Part<'a>,
    name: &'a [u8],
) -> Result<Found<'a>, AllocError>
    requires { inquiry.all.now ≡ every_rule ∷ [] }
    ensures part { IfOk result (λ found. (seen_found found).part ≡ Some (seen_part part.now)) }
    ensures right { IfOk result (λ found. IsFoundBy (seen_asked inquiry.entry.question) inquiry.entry.limit (Some (seen_part part.now)) found.finding) }
    ensures name { IfOk result (λ found. (seen_found found).name ≡ name.now) }
{
    let rules = rules_asked(part, inquiry.all);
    let answer = ask_all_paths(alloc, rules, inquiry.question, inquiry.limit)?;
    Ok(Found {
        name,
        part: Some(part),
        finding: Finding::ByRules(answer),
    })
}

// The answer for a name.
fn found_of<'a>(
    alloc: Global,
    inquiry: Inquiry<'a, '_>,
    name: &'a [u8],
) -> Result<Found<'a>, AllocError>
    requires { inquiry.all.now ≡ every_rule ∷ [] }
    ensures found { IfOk result (λ found. IsFound (seen_asked inquiry.entry.question) inquiry.entry.limit (map seen_part inquiry.entry.parts.now) (seen_found found)) }
    ensures name { IfOk result (λ found. (seen_found found).name ≡ name.now) }
{
    match part_of(inquiry.parts, name) {
        None => Ok(Found {
            name,
            part: None,
            finding: Finding::Absent,
        }),
        Some(part) => found_by(alloc, inquiry, part, name),
    }
}

// Appends the answer for a name to `out`.
fn push_found<'a>(
    alloc: Global,
    inquiry: Inquiry<'a, '_>,
    name: &'a [u8],
    out: &mut Vec<Found<'a>>,
) -> Result<(), AllocError>
    requires { inquiry.all.now ≡ every_rule ∷ [] }
    ensures names { OnOk result (found_names (map seen_found out.new.items) ≡ found_names (map seen_found out.old.items) ++ name.now ∷ []) }
    ensures found { AreAllFound (seen_asked inquiry.entry.question) inquiry.entry.limit (map seen_part inquiry.entry.parts.now) (map seen_found out.old.items)
        → OnOk result (AreAllFound (seen_asked inquiry.entry.question) inquiry.entry.limit (map seen_part inquiry.entry.parts.now) (map seen_found out.new.items)) }
{
    let found = found_of(alloc, inquiry, name)?;
    out.push(found)?;
    Ok(())
}

// The answers for the named ones.
fn find_named<'a>(
    alloc: Global,
    inquiry: Inquiry<'a, '_>,
    whom: &'a [&'a [u8]],
) -> Result<Vec<Found<'a>>, AllocError>
    requires { inquiry.all.now ≡ every_rule ∷ [] }
    ensures { IfOk result (λ found. AreFound (seen_asked inquiry.entry.question) inquiry.entry.limit (map seen_part inquiry.entry.parts.now)
        (map (λ word. word.now) whom.now) (map seen_found found.items)) }
{
    let mut found = Vec::new(alloc);
    let mut rest = whom;
    while let [name, behind @ ..] = rest {
        push_found(alloc, inquiry, name, &mut found)?;
        rest = behind;
    }
    Ok(found)
}

// The answers for all parts.
fn find_all<'a>(alloc: Global, inquiry: Inquiry<'a, '_>) -> Result<Vec<Found<'a>>, AllocError>
    requires { inquiry.all.now ≡ every_rule ∷ [] }
    ensures { IfOk result (λ found. AreFound (seen_asked inquiry.entry.question) inquiry.entry.limit (map seen_part inquiry.entry.parts.now)
        (part_names (map seen_part inquiry.entry.parts.now)) (map seen_found found.items)) }
{
    let mut found = Vec::new(alloc);
    let mut rest = inquiry.parts;
    while let [part, behind @ ..] = rest {
        push_found(alloc, inquiry, part.name.as_slice(), &mut found)?;
        rest = behind;
    }
    Ok(found)
}

/// The answers for the named ones, in their order, or for all parts, where there is no name.
///
/// # Errors
///
/// Where memory runs out.
pub fn find<'a>(
    alloc: Global,
    inquiry: Inquiry<'a, '_>,
    whom: &'a [&'a [u8]],
) -> Result<Vec<Found<'a>>, AllocError>
    requires { inquiry.all.now ≡ every_rule ∷ [] }
    ensures { IfOk result (λ found. AreFound (seen_asked inquiry.entry.question) inquiry.entry.limit (map seen_part inquiry.entry.parts.now)
        (names_or (map (λ word. word.now) whom.now) (map seen_part inquiry.entry.parts.now)) (map seen_found found.items)) }
{
    if whom.is_empty() {
        find_all(alloc, inquiry)
    } else {
        find_named(alloc, inquiry, whom)
    }
}
