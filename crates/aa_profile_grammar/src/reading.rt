//! The places of what written profiles make.

ghost use Rattle.std.specs.Prelude.{◌≡◌, ◌++◌, ◌∷◌, [], true, IfOk, OnOk, map};
ghost use Rattle.std.proofs.Math.ListN.{replicate};
ghost use Rattle.aa_profile_grammar.specs.SeenFiles.{seen_child, seen_head, seen_member, seen_profile};
ghost use Rattle.aa_profile_parsing.specs.SeenTokens.{seen_tokens};
ghost use Rattle.aa_profile_grammar.specs.PatternTokens.{of_member, of_members, of_profile, of_profiles, of_rule, of_rules};
ghost use Rattle.aa_profile_grammar.specs.Patterns.{are_counted};
ghost use Rattle.aa_profile_rules.specs.SeenRules.{seen_rule};
ghost use Rattle.aa_profile_grammar.specs.Places.{child_places, first_place, place_of_attachment, place_of_rule, places_in_member, places_in_members};
ghost use Rattle.aa_profile_grammar.specs.Places.{places_of_member, places_of_members, places_of_profile, places_of_rule, places_of_rules, rule_count, section_places};

use crate::blocks::{Child, Member, Profile};
use crate::heads::Head;
use crate::places::{ProfilePlaces, SectionPlaces};
use aa_bytes::Sequence;
use aa_profile_parsing::{Language, idle_flags, place_of};
use aa_profile_rules::Rule;
use aa_text_files::Place;
use aa_text_tokens::Spliced;
use aa_text_variables::ExpansionTable;
use std::alloc::{AllocError, Global};

// The place of the first of some tokens.
fn first_place(tokens: &[Spliced<'_>]) -> Option<Place>
    ensures { result ≡ first_place (seen_tokens tokens.now) }
{
    match tokens {
        [token, ..] => Some(place_of(*token)),
        [] => None,
    }
}

// Where a rule is written.
fn place_of_rule(rule: &Rule<'_>) -> Option<Place>
    ensures { result ≡ place_of_rule (seen_rule rule.now) }
{
    match rule {
        Rule::OnFile { pattern, .. } => Some(place_of(*pattern)),
        Rule::OnCapabilities { word, .. } => Some(place_of(*word)),
        Rule::OnNetwork { word, .. } => Some(place_of(*word)),
        Rule::Kept { tokens, .. } => first_place(tokens),
        Rule::All { word, .. } => Some(place_of(*word)),
    }
}

// Where the attachment of a head is written, if it has one.
fn place_of_attachment(head: &Head<'_>) -> Option<Place>
    ensures { result ≡ place_of_attachment (seen_head head.now) }
{
    match head.attachment {
        Some(token) => Some(place_of(token)),
        None => None,
    }
}

/// How many rules a written rule makes: a file rule one for each expansion of its pattern, the rule `all` five, and any other one. The caller makes
/// sure that the pattern has expansions, and no more than a file may have rules.
///
/// # Errors
///
/// Where memory runs out.
pub fn rule_count(table: &mut ExpansionTable<'_>, rule: &Rule<'_>) -> Result<usize, AllocError>
    requires { are_counted table.old (of_rule (seen_rule rule.now)) ≡ true }
    ensures count { IfOk result (λ count. count ≡ rule_count table.old (seen_rule rule.now)) }
    ensures same { table.new ≡ table.old }
{
    match rule {
        Rule::OnFile { pattern, .. } => match table.count(pattern.token.text) {
            Ok(count) => Ok(count),
            Err(_) => Err(AllocError),
        },
        Rule::OnCapabilities { .. } | Rule::OnNetwork { .. } | Rule::Kept { .. } => Ok(1),
        Rule::All { .. } => Ok(5),
    }
}

// Appends a place `count` times.
fn push_times(
    place: Option<Place>,
    count: usize,
    places: &mut Vec<Option<Place>>,
) -> Result<(), AllocError>
    ensures { OnOk result (places.new.items ≡ places.old.items ++ replicate count place) }
{
    for _ in 0..count {
        places.push(place)?;
    }
    Ok(())
}

// Appends the places of the rules that a written rule makes.
fn push_rule(
    table: &mut ExpansionTable<'_>,
    rule: &Rule<'_>,
    places: &mut Vec<Option<Place>>,
) -> Result<(), AllocError>
    requires { are_counted table.old (of_rule (seen_rule rule.now)) ≡ true }
    ensures places { OnOk result (places.new.items ≡ places.old.items ++ places_of_rule table.old (seen_rule rule.now)) }
    ensures same { table.new ≡ table.old }
{
    let count = rule_count(table, rule)?;
    push_times(place_of_rule(rule), count, places)
}

// The places of the rules that written rules make.
fn read_rules(
    alloc: Global,
    table: &mut ExpansionTable<'_>,
    rules: &[Rule<'_>],
) -> Result<Vec<Option<Place>>, AllocError>
    requires { are_counted table.old (of_rules (map seen_rule rules.now)) ≡ true }
    ensures places { IfOk result (λ places. places.items ≡ places_of_rules table.old (map seen_rule rules.now)) }
    ensures same { table.new ≡ table.old }
{
    let mut places = Vec::new(alloc);
    let mut rest = rules;
    while let [rule, behind @ ..] = rest {
        push_rule(table, rule, &mut places)?;
        rest = behind;
    }
    Ok(places)
}

// The places of a block, by its head and the places of its rules.
fn section_places(
    alloc: Global,
    language: Language,
    head: &Head<'_>,
    rules: Vec<Option<Place>>,
) -> Result<SectionPlaces, AllocError>
    ensures { IfOk result (λ places. places ≡ section_places language (seen_head head.now) rules.items) }
{
    Ok(SectionPlaces {
        attachment: place_of_attachment(head),
        rules: Sequence::from_vec(rules),
        flags: idle_flags(alloc, language, head.flag_tokens)?,
    })
}

// The places of a child or a hat.
fn child_places(
    alloc: Global,
    language: Language,
    table: &mut ExpansionTable<'_>,
    child: &Child<'_>,
) -> Result<SectionPlaces, AllocError>
    requires { are_counted table.old (of_rules (map seen_rule child.now.rules.items)) ≡ true }
    ensures places { IfOk result (λ places. places ≡ child_places language table.old (seen_child child.now)) }
    ensures same { table.new ≡ table.old }
{
    let rules = read_rules(alloc, table, &child.rules)?;
    section_places(alloc, language, &child.head, rules)
}

// Appends the places of the rules that a member of a block makes, or those of the child or hat that it is.
fn push_member(
    alloc: Global,
    language: Language,
    table: &mut ExpansionTable<'_>,
    member: &Member<'_>,
    places: &mut Vec<Option<Place>>,
    children: &mut Vec<SectionPlaces>,
) -> Result<(), AllocError>
    requires { are_counted table.old (of_member (seen_member member.now)) ≡ true }
    ensures places { OnOk result (places.new.items ≡ places.old.items ++ places_of_member table.old (seen_member member.now)) }
    ensures children { OnOk result (children.new.items ≡ children.old.items ++ places_in_member language table.old (seen_member member.now)) }
    ensures same { table.new ≡ table.old }
{
    match member {
        Member::OfRule(rule) => push_rule(table, rule, places),
        Member::OfChild(child) => {
            children.push(child_places(alloc, language, table, child)?)?;
            Ok(())
        }
    }
}

// The places of a profile, and of its children and hats.
fn profile_places(
    alloc: Global,
    language: Language,
    table: &mut ExpansionTable<'_>,
    profile: &Profile<'_>,
) -> Result<ProfilePlaces, AllocError>
    requires { are_counted table.old (of_members (map seen_member profile.now.members.items)) ≡ true }
    ensures places { IfOk result (λ read. read ≡ places_of_profile language table.old (seen_profile profile.now)) }
    ensures same { table.new ≡ table.old }
{
    let mut rules = Vec::new(alloc);
    let mut children = Vec::new(alloc);
    push_members(
        alloc,
        language,
        table,
        &profile.members,
        &mut rules,
        &mut children,
    )?;
    Ok(ProfilePlaces {
        own: section_places(alloc, language, &profile.head, rules)?,
        children: Sequence::from_vec(children),
    })
}

// Appends the places of a block's rules, and those of its children and hats.
fn push_members(
    alloc: Global,
    language: Language,
    table: &mut ExpansionTable<'_>,
    members: &[Member<'_>],
    places: &mut Vec<Option<Place>>,
    children: &mut Vec<SectionPlaces>,
) -> Result<(), AllocError>
    requires { are_counted table.old (of_members (map seen_member members.now)) ≡ true }
    ensures places { OnOk result (places.new.items ≡ places.old.items ++ places_of_members table.old (map seen_member members.now)) }
    ensures children { OnOk result (children.new.items ≡ children.old.items ++ places_in_members language table.old (map seen_member members.now)) }
    ensures same { table.new ≡ table.old }
{
    let mut rest = members;
    while let [member, behind @ ..] = rest {
        push_member(alloc, language, table, member, places, children)?;
        rest = behind;
    }
    Ok(())
}

// Appends the places of a profile, and of its children and hats.
fn push_profile(
    alloc: Global,
    language: Language,
    table: &mut ExpansionTable<'_>,
    profile: &Profile<'_>,
    places: &mut Vec<ProfilePlaces>,
) -> Result<(), AllocError>
    requires { are_counted table.old (of_members (map seen_member profile.now.members.items)) ≡ true }
    ensures places { OnOk result (places.new.items ≡ places.old.items ++ places_of_profile language table.old (seen_profile profile.now) ∷ []) }
    ensures same { table.new ≡ table.old }
{
    places.push(profile_places(alloc, language, table, profile)?)?;
    Ok(())
}

/// The places of the profiles of a file, of their children and their hats, in their order: an attachment is at its token, a rule on files at the
/// token of its pattern, or at the word `file` alone, and any other rule at its word. Each place is a byte offset in the file or in one that this
/// includes. All rules that one written rule makes are at its place. With the places are the flags of each that decide nothing. The caller makes
/// sure that each pattern has expansions, and no more than a file may have rules.
///
/// # Errors
///
/// Where memory runs out.
pub fn read_places(
    alloc: Global,
    language: Language,
    table: &mut ExpansionTable<'_>,
    profiles: &[Profile<'_>],
) -> Result<Vec<ProfilePlaces>, AllocError>
    requires { are_counted table.old (of_profiles (map seen_profile profiles.now)) ≡ true }
    ensures places { IfOk result (λ places. places.items ≡ map (places_of_profile language table.old) (map seen_profile profiles.now)) }
    ensures same { table.new ≡ table.old }
{
    let mut places = Vec::new(alloc);
    let mut rest = profiles;
    while let [profile, behind @ ..] = rest {
        push_profile(alloc, language, table, profile, &mut places)?;
        rest = behind;
    }
    Ok(places)
}
