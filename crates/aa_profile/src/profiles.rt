//! Profiles as their files write them, with the patterns that their variables make.
//!
//! Each function here goes over its part once, and refuses it at the first token of it that makes no pattern.

ghost use Rattle.std.specs.Prelude.{◌≡◌, ◌≢◌, ◌++◌, ◌∷◌, [], None, Some, IfOk, IfErr, OnOk, true, map};
ghost use Rattle.aa_text_tokens.specs.SeenSplicedTokens.{seen_spliced};
ghost use Rattle.aa_profile_grammar.specs.SeenFiles.{seen_child, seen_head, seen_member, seen_profile};
ghost use Rattle.aa_profile_parsing.specs.SeenTokens.{seen_tokens};
ghost use Rattle.aa_profile_rules.specs.SeenRules.{seen_rule};
ghost use Rattle.aa_profile_grammar.specs.PatternTokens.{of_child, of_head, of_member, of_members, of_profile, of_profiles, of_rule, of_rules};
ghost use Rattle.aa_profile_grammar.specs.Patterns.{first_bad, have_expansions};
ghost use Rattle.aa_profile_grammar.specs.Refusals.{IsRefusal};
ghost use Rattle.aa_profile.specs.Profiles.{attachments_of, cap_rule, child_of, children_of, children_of_member, mode_of, net_rule};
ghost use Rattle.aa_profile.specs.Profiles.{other_rule, profile_of, rules_of, rules_of_member, rules_of_members, rules_of_rule};
ghost use Rattle.aa_profile_parsing.specs.ProfileError.{plain};
ghost use Rattle.aa_profile_parsing.specs.declared.profile_error.ProfileRefusal.TheVariants.{Memory};

use crate::all_rules::push_all;
use crate::file_rules::push_file_rules;
use crate::kept_rules::kept_text;
use aa_bytes::Sequence;
use aa_glob_pattern::Pattern;
use aa_profile_data::{CapRule, Child, Mode, NetRule, OtherRule, Profile, Rule};
use aa_profile_grammar::{
    Child as WrittenChild, Flags, Head, Member, ModeFlag, Profile as WrittenProfile, Qualifiers,
    Rule as WrittenRule, Sockets, read_patterns,
};
use aa_profile_parsing::{Language, ProfileError};
use aa_text_tokens::Spliced;
use aa_text_variables::ExpansionTable;
use std::alloc::{AllocError, Global};

// A rule on capabilities.
pub fn cap_rule(qualifiers: Qualifiers, capabilities: u64) -> Rule
    ensures { result ≡ cap_rule qualifiers capabilities }
{
    Rule::Cap(CapRule {
        caps: capabilities,
        deny: qualifiers.deny,
        audit: qualifiers.audit,
    })
}

// A rule on sockets.
pub fn net_rule(qualifiers: Qualifiers, sockets: Sockets) -> Rule
    ensures { result ≡ net_rule qualifiers sockets }
{
    Rule::Net(NetRule {
        domain: sockets.domain,
        kind: sockets.kind,
        deny: qualifiers.deny,
        audit: qualifiers.audit,
    })
}

// A rule that is kept.
fn other_rule(
    alloc: Global,
    qualifiers: Qualifiers,
    tokens: &[Spliced<'_>],
) -> Result<Rule, AllocError>
    ensures { IfOk result (λ rule. rule ≡ other_rule qualifiers (seen_tokens tokens.now)) }
{
    let text = kept_text(alloc, tokens)?;
    Ok(Rule::Other(OtherRule {
        text: Sequence::from_vec(text),
        owner: qualifiers.owner,
        deny: qualifiers.deny,
        audit: qualifiers.audit,
    }))
}

// Appends the rules that a written rule makes.
#[tactic(auto, using(crate::proofs::AllLemmas::all_fine))]
fn push_rule(
    alloc: Global,
    language: Language,
    table: &mut ExpansionTable<'_>,
    rule: &WrittenRule<'_>,
    rules: &mut Vec<Rule>,
) -> Result<(), ProfileError>
    requires { have_expansions table.old (of_rule (seen_rule rule.now)) ≡ true }
    ensures ok { OnOk result (rules.new.items ≡ rules.old.items ++ rules_of_rule language table.old (seen_rule rule.now)) }
    ensures fine { OnOk result (first_bad table.old (of_rule (seen_rule rule.now)) ≡ None) }
    ensures refused { IsRefusal (first_bad table.old (of_rule (seen_rule rule.now))) result }
    ensures same { table.new ≡ table.old }
{
    match rule {
        WrittenRule::OnFile {
            qualifiers,
            pattern,
            access,
            target,
        } => {
            let patterns = read_patterns(alloc, table, *pattern)?;
            push_file_rules(
                alloc,
                language,
                *qualifiers,
                *access,
                *target,
                patterns,
                rules,
            )?;
        }
        WrittenRule::OnCapabilities {
            qualifiers,
            capabilities,
            ..
        } => {
            rules.push(cap_rule(*qualifiers, *capabilities))?;
        }
        WrittenRule::OnNetwork {
            qualifiers,
            sockets,
            ..
        } => {
            rules.push(net_rule(*qualifiers, *sockets))?;
        }
        WrittenRule::Kept { qualifiers, tokens } => {
            rules.push(other_rule(alloc, *qualifiers, tokens)?)?;
        }
        WrittenRule::All { qualifiers, word } => push_all(alloc, *qualifiers, *word, rules)?,
    }
    Ok(())
}

// The rules that written rules make.
fn read_rules(
    alloc: Global,
    language: Language,
    table: &mut ExpansionTable<'_>,
    written: &[WrittenRule<'_>],
) -> Result<Vec<Rule>, ProfileError>
    requires { have_expansions table.old (of_rules (map seen_rule written.now)) ≡ true }
    ensures ok { IfOk result (λ rules. rules.items ≡ rules_of language table.old (map seen_rule written.now)) }
    ensures fine { IfOk result (λ read. first_bad table.old (of_rules (map seen_rule written.now)) ≡ None) }
    ensures refused { IsRefusal (first_bad table.old (of_rules (map seen_rule written.now))) result }
    ensures same { table.new ≡ table.old }
{
    let mut rules = Vec::new(alloc);
    let mut rest = written;
    while let [rule, behind @ ..] = rest {
        push_rule(alloc, language, table, rule, &mut rules)?;
        rest = behind;
    }
    Ok(rules)
}

// The patterns of a head's attachment.
fn read_attachments(
    alloc: Global,
    table: &mut ExpansionTable<'_>,
    head: &Head<'_>,
) -> Result<Vec<Pattern>, ProfileError>
    requires { have_expansions table.old (of_head (seen_head head.now)) ≡ true }
    ensures ok { IfOk result (λ patterns. patterns.items ≡ attachments_of table.old (seen_head head.now)) }
    ensures fine { IfOk result (λ read. first_bad table.old (of_head (seen_head head.now)) ≡ None) }
    ensures refused { IsRefusal (first_bad table.old (of_head (seen_head head.now))) result }
    ensures same { table.new ≡ table.old }
{
    match head.attachment {
        Some(token) => read_patterns(alloc, table, token),
        None => Ok(Vec::new(alloc)),
    }
}

// The mode of flags.
fn mode_of(flags: Flags) -> Mode
    ensures { result ≡ mode_of flags }
{
    match flags.mode {
        None | Some(ModeFlag::Enforce) => Mode::Enforce,
        Some(ModeFlag::Complain) => Mode::Complain,
        Some(ModeFlag::Unconfined | ModeFlag::DefaultAllow) => Mode::Unconfined,
    }
}

// A child or a hat.
fn read_child(
    alloc: Global,
    language: Language,
    table: &mut ExpansionTable<'_>,
    child: &WrittenChild<'_>,
) -> Result<Child, ProfileError>
    requires { have_expansions table.old (of_child (seen_child child.now)) ≡ true }
    ensures ok { IfOk result (λ read. read ≡ child_of language table.old (seen_child child.now)) }
    ensures fine { IfOk result (λ read. first_bad table.old (of_child (seen_child child.now)) ≡ None) }
    ensures refused { IsRefusal (first_bad table.old (of_child (seen_child child.now))) result }
    ensures same { table.new ≡ table.old }
{
    let attachments = read_attachments(alloc, table, &child.head)?;
    let rules = read_rules(alloc, language, table, &child.rules)?;
    Ok(Child {
        name: Sequence::from_slice(alloc, child.head.name)?,
        hat: child.hat,
        attachments: Sequence::from_vec(attachments),
        audit: child.head.flags.audit,
        mode: mode_of(child.head.flags),
        rules: Sequence::from_vec(rules),
    })
}

// Appends what a member of a block makes to the rules or children.
fn push_member(
    alloc: Global,
    language: Language,
    table: &mut ExpansionTable<'_>,
    member: &Member<'_>,
    rules: &mut Vec<Rule>,
    children: &mut Vec<Child>,
) -> Result<(), ProfileError>
    requires { have_expansions table.old (of_member (seen_member member.now)) ≡ true }
    ensures rules { OnOk result (rules.new.items ≡ rules.old.items ++ rules_of_member language table.old (seen_member member.now)) }
    ensures children { OnOk result (children.new.items ≡ children.old.items ++ children_of_member language table.old (seen_member member.now)) }
    ensures fine { OnOk result (first_bad table.old (of_member (seen_member member.now)) ≡ None) }
    ensures refused { IsRefusal (first_bad table.old (of_member (seen_member member.now))) result }
    ensures same { table.new ≡ table.old }
{
    match member {
        Member::OfRule(rule) => push_rule(alloc, language, table, rule, rules),
        Member::OfChild(child) => {
            let child = read_child(alloc, language, table, child)?;
            children.push(child)?;
            Ok(())
        }
    }
}

// The rules and the children that a block's members make.
fn read_members(
    alloc: Global,
    language: Language,
    table: &mut ExpansionTable<'_>,
    members: &[Member<'_>],
) -> Result<(Vec<Rule>, Vec<Child>), ProfileError>
    requires { have_expansions table.old (of_members (map seen_member members.now)) ≡ true }
    ensures rules { IfOk result (λ read. read.0.items ≡ rules_of_members language table.old (map seen_member members.now)) }
    ensures children { IfOk result (λ read. read.1.items ≡ children_of language table.old (map seen_member members.now)) }
    ensures fine { IfOk result (λ read. first_bad table.old (of_members (map seen_member members.now)) ≡ None) }
    ensures refused { IsRefusal (first_bad table.old (of_members (map seen_member members.now))) result }
    ensures same { table.new ≡ table.old }
{
    let mut rules = Vec::new(alloc);
    let mut children = Vec::new(alloc);
    let mut rest = members;
    while let [member, behind @ ..] = rest {
        push_member(alloc, language, table, member, &mut rules, &mut children)?;
        rest = behind;
    }
    Ok((rules, children))
}

// A profile.
fn read_profile(
    alloc: Global,
    language: Language,
    table: &mut ExpansionTable<'_>,
    profile: &WrittenProfile<'_>,
) -> Result<Profile, ProfileError>
    requires { have_expansions table.old (of_profile (seen_profile profile.now)) ≡ true }
    ensures ok { IfOk result (λ read. read ≡ profile_of language table.old (seen_profile profile.now)) }
    ensures fine { IfOk result (λ read. first_bad table.old (of_profile (seen_profile profile.now)) ≡ None) }
    ensures refused { IsRefusal (first_bad table.old (of_profile (seen_profile profile.now))) result }
    ensures same { table.new ≡ table.old }
{
    let attachments = read_attachments(alloc, table, &profile.head)?;
    let (rules, children) = read_members(alloc, language, table, &profile.members)?;
    Ok(Profile {
        name: Sequence::from_slice(alloc, profile.head.name)?,
        attachments: Sequence::from_vec(attachments),
        audit: profile.head.flags.audit,
        mode: mode_of(profile.head.flags),
        rules: Sequence::from_vec(rules),
        children: Sequence::from_vec(children),
    })
}

/// Profiles of a file that was read by a language, with the patterns that variables make.
///
/// # Errors
///
/// The refusal of the first token that has an expansion which is no pattern, at this token; `Memory`, without a place: memory ran out.
pub fn read_profiles(
    alloc: Global,
    language: Language,
    table: &mut ExpansionTable<'_>,
    written: &[WrittenProfile<'_>],
) -> Result<Vec<Profile>, ProfileError>
    requires { have_expansions table.old (of_profiles (map seen_profile written.now)) ≡ true }
    ensures ok { IfOk result (λ profiles. profiles.items ≡ map (profile_of language table.old) (map seen_profile written.now)) }
    ensures fine { IfOk result (λ read. first_bad table.old (of_profiles (map seen_profile written.now)) ≡ None) }
    ensures refused { IsRefusal (first_bad table.old (of_profiles (map seen_profile written.now))) result }
    ensures same { table.new ≡ table.old }
{
    let mut profiles = Vec::new(alloc);
    let mut rest = written;
    while let [profile, behind @ ..] = rest {
        profiles.push(read_profile(alloc, language, table, profile)?)?;
        rest = behind;
    }
    Ok(profiles)
}
