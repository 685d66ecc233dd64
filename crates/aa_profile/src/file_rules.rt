//! File rules, one for each pattern of a written one, all of which share the text of its target.

ghost use Rattle.std.specs.Prelude.{◌≡◌, ◌++◌, IfOk, OnOk, map};
ghost use Rattle.std.specs.List.{list_all};
ghost use Rattle.std.specs.Option.{option_map};
ghost use Rattle.aa_text_tokens.specs.SeenSplicedTokens.{seen_spliced};
ghost use Rattle.aa_profile.specs.Profiles.{exec_rank, file_rule, file_rule_with, file_rules, link_of, rank_of};
ghost use Rattle.aa_profile.specs.Profiles.{text_of_target, token_rank, transition_of};
ghost use Rattle.aa_profile.specs.Plainness.{is_plain};

use crate::plainness::is_plain;
use aa_bytes::{SharedBytes, share_option};
use aa_glob_pattern::Pattern;
use aa_profile_data::{FileRule, Rank, Rule, Transition};
use aa_profile_grammar::{Access, Qualifiers};
use aa_profile_parsing::Language;
use aa_text_tokens::Spliced;
use std::alloc::{AllocError, Global};

// The text of a target, where there is one.
fn text_of_target(
    alloc: Global,
    target: Option<Spliced<'_>>,
) -> Result<Option<SharedBytes>, AllocError>
    ensures { IfOk result (λ text. text ≡ text_of_target (option_map seen_spliced target.entry)) }
{
    match target {
        None => Ok(None),
        Some(token) => Ok(Some(SharedBytes::from_slice(alloc, token.token.text)?)),
    }
}

// Under which profile the programs run that an access allows to be started, where it has an exec word.
fn transition_of(
    access: Access,
    target: &Option<SharedBytes>,
) -> Result<Option<Transition>, AllocError>
    ensures { IfOk result (λ exec. exec ≡ transition_of access target.now) }
{
    match access.word {
        None => Ok(None),
        Some(word) => Ok(Some(Transition {
            word,
            target: share_option(target)?,
        })),
    }
}

// The target of hard links, where an access has no exec word.
fn link_of(access: Access, target: &Option<SharedBytes>) -> Result<Option<SharedBytes>, AllocError>
    ensures { IfOk result (λ link. link ≡ link_of access target.now) }
{
    match access.word {
        None => share_option(target),
        Some(_) => Ok(None),
    }
}

// Whether each of some patterns is plain.
fn are_plain(alloc: Global, patterns: &[Pattern]) -> Result<bool, AllocError>
    ensures { IfOk result (λ plain. plain ≡ list_all is_plain patterns.now) }
{
    let mut rest = patterns;
    while let [pattern, behind @ ..] = rest {
        if !is_plain(alloc, pattern.text())? {
            return Ok(false);
        }
        rest = behind;
    }
    Ok(true)
}

// The rank of all exec rules of a token's patterns, where it depends on the token.
fn token_rank(
    alloc: Global,
    language: Language,
    patterns: &[Pattern],
) -> Result<Option<Rank>, AllocError>
    ensures { IfOk result (λ rank. rank ≡ token_rank language patterns.now) }
{
    match language {
        Language::Three => Ok(None),
        Language::Four => {
            if are_plain(alloc, patterns)? {
                Ok(Some(Rank::Plain))
            } else {
                Ok(Some(Rank::Loose))
            }
        }
    }
}

// The rank of an exec rule: by its token, or else by its own pattern.
fn exec_rank(by_token: Option<Rank>, pattern: &Pattern) -> Rank
    ensures { result ≡ exec_rank by_token pattern.now }
{
    match by_token {
        Some(rank) => rank,
        None => {
            if pattern.is_exact() {
                Rank::Plain
            } else {
                Rank::Loose
            }
        }
    }
}

// The rank of a rule with an access.
fn rank_of(access: Access, by_token: Option<Rank>, pattern: &Pattern) -> Rank
    ensures { result ≡ rank_of access by_token pattern.now }
{
    if access.word.is_some() {
        exec_rank(by_token, pattern)
    } else {
        Rank::Loose
    }
}

// The file rule of a pattern, with the text of its target and the rank by its token.
fn file_rule_with(
    qualifiers: Qualifiers,
    access: Access,
    target: &Option<SharedBytes>,
    by_token: Option<Rank>,
    pattern: Pattern,
) -> Result<Rule, AllocError>
    ensures { IfOk result (λ rule. rule ≡ file_rule_with qualifiers access target.now by_token pattern) }
{
    let exec = transition_of(access, target)?;
    let rank = rank_of(access, by_token, &pattern);
    let link = link_of(access, target)?;
    Ok(Rule::File(FileRule {
        pattern,
        access: access.letters,
        exec,
        rank,
        link,
        owner: qualifiers.owner,
        deny: qualifiers.deny,
        audit: qualifiers.audit,
    }))
}

// Appends a file rule for each pattern, with the rank by their token.
fn push_ranked(
    alloc: Global,
    qualifiers: Qualifiers,
    access: Access,
    target: Option<Spliced<'_>>,
    by_token: Option<Rank>,
    patterns: Vec<Pattern>,
    rules: &mut Vec<Rule>,
) -> Result<(), AllocError>
    ensures { OnOk result (rules.new.items
        ≡ rules.old.items ++ map (file_rule qualifiers access (option_map seen_spliced target.entry) by_token) patterns.items) }
{
    let text = text_of_target(alloc, target)?;
    for pattern in patterns {
        rules.push(file_rule_with(qualifiers, access, &text, by_token, pattern)?)?;
    }
    Ok(())
}

/// Appends a file rule for each pattern of a token, with ranks by the language.
///
/// # Errors
///
/// Where memory runs out.
pub fn push_file_rules(
    alloc: Global,
    language: Language,
    qualifiers: Qualifiers,
    access: Access,
    target: Option<Spliced<'_>>,
    patterns: Vec<Pattern>,
    rules: &mut Vec<Rule>,
) -> Result<(), AllocError>
    ensures { OnOk result (rules.new.items
        ≡ rules.old.items ++ file_rules language qualifiers access (option_map seen_spliced target.entry) patterns.items) }
{
    let by_token = token_rank(alloc, language, &patterns)?;
    push_ranked(alloc, qualifiers, access, target, by_token, patterns, rules)
}
