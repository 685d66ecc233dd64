//! The rules that the rule `all` stands for.

ghost use Rattle.std.specs.Prelude.{◌≡◌, ◌++◌, IfOk, OnOk};
ghost use Rattle.aa_text_tokens.specs.SeenSplicedTokens.{seen_spliced};
ghost use Rattle.aa_profile.specs.Profiles.{every_file, exec_of_all, kept_of_all, letters_of_all, rules_of_all};

use crate::profiles::{cap_rule, net_rule};
use aa_bytes::Sequence;
use aa_glob_pattern::Pattern;
use aa_profile_data::{ExecWord, FileRule, OtherRule, Perms, Rank, Rule, Transition};
use aa_profile_grammar::Qualifiers;
use aa_profile_rules::{ALL_CAPABILITIES, all_sockets, whole_access};
use aa_text_tokens::Spliced;
use bitflags::Flags;
use std::alloc::{AllocError, Global};

// The pattern of all files.
fn every_file(alloc: Global) -> Result<Pattern, AllocError>
    ensures { IfOk result (λ pattern. pattern ≡ every_file) }
{
    match Pattern::read(alloc, b"/{**,}") {
        Ok(pattern) => Ok(pattern),
        // The text reads as a pattern, so only memory can run out.
        Err(_) => Err(AllocError),
    }
}

// What is kept of a rule `all`: its word.
fn kept_of_all(alloc: Global, qualifiers: Qualifiers, word: Spliced<'_>) -> Result<Rule, AllocError>
    ensures { IfOk result (λ rule. rule ≡ kept_of_all qualifiers (seen_spliced word.entry)) }
{
    Ok(Rule::Other(OtherRule {
        text: Sequence::from_slice(alloc, word.token.text)?,
        owner: qualifiers.owner,
        deny: qualifiers.deny,
        audit: qualifiers.audit,
    }))
}

// The rule for the access letters of all files.
fn letters_of_all(alloc: Global, qualifiers: Qualifiers) -> Result<Rule, AllocError>
    ensures { IfOk result (λ rule. rule ≡ letters_of_all qualifiers) }
{
    let pattern = every_file(alloc)?;
    Ok(Rule::File(FileRule {
        pattern,
        access: whole_access(false).letters,
        exec: None,
        rank: Rank::Loose,
        link: None,
        owner: qualifiers.owner,
        deny: qualifiers.deny,
        audit: qualifiers.audit,
    }))
}

// The rule for starting programs for which no other rule says how.
fn exec_of_all(alloc: Global, qualifiers: Qualifiers) -> Result<Rule, AllocError>
    ensures { IfOk result (λ rule. rule ≡ exec_of_all qualifiers) }
{
    let pattern = every_file(alloc)?;
    Ok(Rule::File(FileRule {
        pattern,
        access: Perms::empty(),
        exec: Some(Transition {
            word: ExecWord::Inherit,
            target: None,
        }),
        rank: Rank::Last,
        link: None,
        owner: qualifiers.owner,
        deny: qualifiers.deny,
        audit: qualifiers.audit,
    }))
}

/// Appends the five rules that a rule `all` stands for.
///
/// # Errors
///
/// Where memory runs out.
pub fn push_all(
    alloc: Global,
    qualifiers: Qualifiers,
    word: Spliced<'_>,
    rules: &mut Vec<Rule>,
) -> Result<(), AllocError>
    ensures { OnOk result (rules.new.items ≡ rules.old.items ++ rules_of_all qualifiers (seen_spliced word.entry)) }
{
    rules.push(kept_of_all(alloc, qualifiers, word)?)?;
    rules.push(letters_of_all(alloc, qualifiers)?)?;
    rules.push(exec_of_all(alloc, qualifiers)?)?;
    rules.push(cap_rule(qualifiers, ALL_CAPABILITIES))?;
    rules.push(net_rule(qualifiers, all_sockets()))?;
    Ok(())
}
