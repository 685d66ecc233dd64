//! The tokens of a file's patterns, in their order.

ghost use Rattle.std.specs.Prelude.{◌≡◌, ◌++◌, IfOk, OnOk, map};
ghost use Rattle.aa_profile_grammar.specs.SeenFiles.{seen_child, seen_head, seen_member, seen_profile};
ghost use Rattle.aa_profile_parsing.specs.SeenTokens.{seen_tokens};
ghost use Rattle.aa_profile_rules.specs.SeenRules.{seen_rule};
ghost use Rattle.aa_profile_grammar.specs.PatternTokens.{of_child, of_head, of_member, of_members, of_profile, of_profiles, of_rule, of_rules};

use crate::blocks::{Child, Member, Profile};
use crate::heads::Head;
use aa_profile_rules::{Rule, all_files};
use aa_text_tokens::Spliced;
use std::alloc::{AllocFailed, Global};

// Appends the token of a head's attachment.
fn push_head<'a>(
    head: &Head<'a>,
    tokens: &mut Vec<Spliced<'a>>,
) -> Result<(), AllocFailed<Spliced<'a>>>
    ensures { OnOk result (seen_tokens tokens.new.items ≡ seen_tokens tokens.old.items ++ of_head (seen_head head.now)) }
{
    if let Some(token) = head.attachment {
        tokens.push(token)?;
    }
    Ok(())
}

// Appends the tokens of a rule's patterns.
fn push_rule<'a>(
    rule: &Rule<'a>,
    tokens: &mut Vec<Spliced<'a>>,
) -> Result<(), AllocFailed<Spliced<'a>>>
    ensures { OnOk result (seen_tokens tokens.new.items ≡ seen_tokens tokens.old.items ++ of_rule (seen_rule rule.now)) }
{
    match rule {
        Rule::OnFile { pattern, .. } => tokens.push(*pattern),
        Rule::OnCapabilities { .. } | Rule::OnNetwork { .. } | Rule::Kept { .. } => Ok(()),
        Rule::All { word, .. } => {
            tokens.push(all_files(*word))?;
            tokens.push(all_files(*word))
        }
    }
}

// Appends the tokens of the patterns of rules.
fn push_rules<'a>(
    rules: &[Rule<'a>],
    tokens: &mut Vec<Spliced<'a>>,
) -> Result<(), AllocFailed<Spliced<'a>>>
    ensures { OnOk result (seen_tokens tokens.new.items ≡ seen_tokens tokens.old.items ++ of_rules (map seen_rule rules.now)) }
{
    let mut rest = rules;
    while let [rule, behind @ ..] = rest {
        push_rule(rule, tokens)?;
        rest = behind;
    }
    Ok(())
}

// Appends the tokens of the patterns of a child or a hat.
fn push_child<'a>(
    child: &Child<'a>,
    tokens: &mut Vec<Spliced<'a>>,
) -> Result<(), AllocFailed<Spliced<'a>>>
    ensures { OnOk result (seen_tokens tokens.new.items ≡ seen_tokens tokens.old.items ++ of_child (seen_child child.now)) }
{
    push_head(&child.head, tokens)?;
    push_rules(&child.rules, tokens)
}

// Appends the tokens of the patterns of a member of a block.
fn push_member<'a>(
    member: &Member<'a>,
    tokens: &mut Vec<Spliced<'a>>,
) -> Result<(), AllocFailed<Spliced<'a>>>
    ensures { OnOk result (seen_tokens tokens.new.items ≡ seen_tokens tokens.old.items ++ of_member (seen_member member.now)) }
{
    match member {
        Member::OfRule(rule) => push_rule(rule, tokens),
        Member::OfChild(child) => push_child(child, tokens),
    }
}

// Appends the tokens of the patterns of a block's members.
fn push_members<'a>(
    members: &[Member<'a>],
    tokens: &mut Vec<Spliced<'a>>,
) -> Result<(), AllocFailed<Spliced<'a>>>
    ensures { OnOk result (seen_tokens tokens.new.items ≡ seen_tokens tokens.old.items ++ of_members (map seen_member members.now)) }
{
    let mut rest = members;
    while let [member, behind @ ..] = rest {
        push_member(member, tokens)?;
        rest = behind;
    }
    Ok(())
}

// Appends the tokens of the patterns of a profile.
fn push_profile<'a>(
    profile: &Profile<'a>,
    tokens: &mut Vec<Spliced<'a>>,
) -> Result<(), AllocFailed<Spliced<'a>>>
    ensures { OnOk result (seen_tokens tokens.new.items ≡ seen_tokens tokens.old.items ++ of_profile (seen_profile profile.now)) }
{
    push_head(&profile.head, tokens)?;
    push_members(&profile.members, tokens)
}

/// The tokens of the patterns of profiles, in their order.
///
/// # Errors
///
/// Where memory runs out.
pub fn pattern_tokens<'a>(
    alloc: Global,
    profiles: &[Profile<'a>],
) -> Result<Vec<Spliced<'a>>, AllocFailed<Spliced<'a>>>
    ensures { IfOk result (λ tokens. seen_tokens tokens.items ≡ of_profiles (map seen_profile profiles.now)) }
{
    let mut tokens = Vec::new(alloc);
    let mut rest = profiles;
    while let [profile, behind @ ..] = rest {
        push_profile(profile, &mut tokens)?;
        rest = behind;
    }
    Ok(tokens)
}
