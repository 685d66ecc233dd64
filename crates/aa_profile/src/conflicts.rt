//! The first pattern of a file that makes a rule which conflicts with one before it.

ghost use Rattle.std.specs.Prelude.{◌≡◌, ◌≢◌, [], None, IfOk, IfErr, OnOk, map, true};
ghost use Rattle.std.specs.Option.{option_map};
ghost use Rattle.aa_profile_parsing.specs.ProfileError.{plain};
ghost use Rattle.aa_profile_parsing.specs.declared.profile_error.ProfileRefusal.TheVariants.{Memory};
ghost use Rattle.aa_profile_grammar.specs.SeenFiles.{seen_child, seen_member, seen_profile};
ghost use Rattle.aa_profile_parsing.specs.Tokens.{place_of};
ghost use Rattle.aa_profile_rules.specs.SeenRules.{seen_rule};
ghost use Rattle.aa_profile.specs.Conflicts.{conflict_in_members, conflict_in_profiles, conflict_in_rules, pattern_of, refusal_of_conflicts};
ghost use Rattle.aa_profile_grammar.specs.PatternTokens.{of_members, of_profiles, of_rule, of_rules};
ghost use Rattle.aa_profile_grammar.specs.Patterns.{are_counted};
ghost use Rattle.aa_profile_grammar.specs.Refusals.{IsRefusal};
ghost use Rattle.aa_profile.specs.Profiles.{children_of, profile_of, rules_of, rules_of_members};
ghost use Rattle.aa_profile.specs.code.ConflictProgress.{Passes};

use aa_profile_conflicts::first_conflict;
use aa_profile_data::{Child, Profile, Rule};
use aa_profile_grammar::{Member, Profile as WrittenProfile, Rule as WrittenRule, rule_count};
use aa_profile_parsing::{Language, ProfileError, ProfileRefusal, place_of, placed};
use aa_text_files::Place;
use aa_text_variables::ExpansionTable;
use std::alloc::Global;

// The place of the pattern of a written rule, where it has one.
fn pattern_of(rule: &WrittenRule<'_>) -> Option<Place>
    ensures { result ≡ option_map place_of (pattern_of (seen_rule rule.now)) }
{
    match rule {
        WrittenRule::OnFile { pattern, .. } => Some(place_of(*pattern)),
        WrittenRule::All { word, .. } => Some(place_of(*word)),
        WrittenRule::OnCapabilities { .. }
        | WrittenRule::OnNetwork { .. }
        | WrittenRule::Kept { .. } => None,
    }
}

// Passes a written rule on the way to the first conflict, which is the rule `on` rules further, if there is one. Returns the place of its pattern
// where it makes that rule.
fn pass(
    language: Language,
    table: &mut ExpansionTable<'_>,
    rule: &WrittenRule<'_>,
    on: &mut Option<usize>,
) -> Result<Option<Place>, ProfileError>
    requires { are_counted table.old (of_rule (seen_rule rule.now)) ≡ true }
    ensures passes { IfOk result (λ found. Passes language table.old (seen_rule rule.now) on.old on.new found) }
    ensures memory { IfErr result (λ error. error ≡ plain Memory) }
    ensures same { table.new ≡ table.old }
{
    let Some(many) = *on else {
        return Ok(None);
    };
    let made = rule_count(table, rule)?;
    if many < made {
        return Ok(pattern_of(rule));
    }
    *on = Some(many - made);
    Ok(None)
}

// The place of the first pattern of written rules that makes a rule which conflicts with one before it. `rules` are those that they make.
fn conflict_in_rules(
    alloc: Global,
    language: Language,
    table: &mut ExpansionTable<'_>,
    written: &[WrittenRule<'_>],
    rules: &[Rule],
) -> Result<Option<Place>, ProfileError>
    requires counted { are_counted table.old (of_rules (map seen_rule written.now)) ≡ true }
    requires made { rules.now ≡ rules_of language table.old (map seen_rule written.now) }
    ensures found { IfOk result (λ found. found ≡ option_map place_of (conflict_in_rules language table.old [] (map seen_rule written.now))) }
    ensures memory { IfErr result (λ error. error ≡ plain Memory) }
    ensures same { table.new ≡ table.old }
{
    let mut on = first_conflict(alloc, rules)?;
    let mut rest = written;
    while let [rule, behind @ ..] = rest {
        if let Some(place) = pass(language, table, rule, &mut on)? {
            return Ok(Some(place));
        }
        rest = behind;
    }
    Ok(None)
}

// The place of the first pattern among the members of a block that makes a rule which conflicts with one before it. `rules` and `children` are those
// that they make.
fn conflict_in_members(
    alloc: Global,
    language: Language,
    table: &mut ExpansionTable<'_>,
    members: &[Member<'_>],
    rules: &[Rule],
    children: &[Child],
) -> Result<Option<Place>, ProfileError>
    requires counted { are_counted table.old (of_members (map seen_member members.now)) ≡ true }
    requires rules { rules.now ≡ rules_of_members language table.old (map seen_member members.now) }
    requires children { children.now ≡ children_of language table.old (map seen_member members.now) }
    ensures found { IfOk result (λ found. found ≡ option_map place_of (conflict_in_members language table.old [] (map seen_member members.now))) }
    ensures memory { IfErr result (λ error. error ≡ plain Memory) }
    ensures same { table.new ≡ table.old }
{
    let mut on = first_conflict(alloc, rules)?;
    let mut made = children;
    let mut rest = members;
    while let [member, behind @ ..] = rest {
        match member {
            Member::OfRule(rule) => {
                if let Some(place) = pass(language, table, rule, &mut on)? {
                    return Ok(Some(place));
                }
            }
            Member::OfChild(child) => {
                if let [first, others @ ..] = made {
                    if let Some(place) = conflict_in_rules(
                        alloc,
                        language,
                        table,
                        &child.rules,
                        first.rules.as_slice(),
                    )? {
                        return Ok(Some(place));
                    }
                    made = others;
                }
            }
        }
        rest = behind;
    }
    Ok(None)
}

// The place of the first pattern of profiles that makes a rule which conflicts with one before it. `profiles` are those that they make.
fn conflict_in_profiles(
    alloc: Global,
    language: Language,
    table: &mut ExpansionTable<'_>,
    written: &[WrittenProfile<'_>],
    profiles: &[Profile],
) -> Result<Option<Place>, ProfileError>
    requires counted { are_counted table.old (of_profiles (map seen_profile written.now)) ≡ true }
    requires made { profiles.now ≡ map (profile_of language table.old) (map seen_profile written.now) }
    ensures found { IfOk result (λ found. found ≡ option_map place_of (conflict_in_profiles language table.old (map seen_profile written.now))) }
    ensures memory { IfErr result (λ error. error ≡ plain Memory) }
    ensures same { table.new ≡ table.old }
{
    let mut made = profiles;
    let mut rest = written;
    while let [profile, behind @ ..] = rest {
        if let [first, others @ ..] = made {
            if let Some(place) = conflict_in_members(
                alloc,
                language,
                table,
                &profile.members,
                first.rules.as_slice(),
                first.children.as_slice(),
            )? {
                return Ok(Some(place));
            }
            made = others;
        }
        rest = behind;
    }
    Ok(None)
}

/// Refuses profiles of which two rules of the profile, or of one child or hat, conflict. `profiles` are those that the written ones make.
///
/// # Errors
///
/// `ExecConflict` at the first pattern that makes a rule which conflicts with one before it in its profile, child or hat; `Memory`, without a place:
/// memory ran out.
pub fn check_conflicts(
    alloc: Global,
    language: Language,
    table: &mut ExpansionTable<'_>,
    written: &[WrittenProfile<'_>],
    profiles: &[Profile],
) -> Result<(), ProfileError>
    requires counted { are_counted table.old (of_profiles (map seen_profile written.now)) ≡ true }
    requires made { profiles.now ≡ map (profile_of language table.old) (map seen_profile written.now) }
    ensures ok { OnOk result (refusal_of_conflicts language table.old (map seen_profile written.now) ≡ None) }
    ensures refused { IsRefusal (refusal_of_conflicts language table.old (map seen_profile written.now)) result }
    ensures same { table.new ≡ table.old }
{
    match conflict_in_profiles(alloc, language, table, written, profiles)? {
        Some(place) => Err(placed(ProfileRefusal::ExecConflict, place)),
        None => Ok(()),
    }
}
