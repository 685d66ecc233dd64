//! Whether two rules conflict.

ghost use Rattle.std.specs.Prelude.{◌≡◌, IfOk, None, Some};
ghost use Rattle.aa_glob_pattern.specs.Shared.{overlaps};
ghost use Rattle.aa_profile_data.specs.declared.exec_word.ExecWord.{ExecWord};
ghost use Rattle.aa_profile_data.specs.Conflicts.{conflict, lead_of};
ghost use Rattle.aa_profile_data.specs.declared.profile.Rank.TheVariants.{Plain};
ghost use Rattle.aa_profile_data.specs.declared.profile.Rule.TheVariants.{File};

use aa_glob_pattern::Pattern;
use aa_profile_conflicts::first_conflict;
use aa_profile_data::{ExecWord, FileRule, Perms, Rank, Rule, Transition};
use bitflags::Flags;
use std::alloc::{AllocError, Global};

// A rule that leads the programs of a pattern somewhere.
fn leading_rule(alloc: Global, pattern: &Pattern, word: ExecWord) -> Result<Rule, AllocError>
    ensures { IfOk result (λ rule. lead_of rule
        ≡ Some (record { pattern = pattern.now; rank = Plain; transition = record { word = word; target = None } })) }
{
    Ok(Rule::File(FileRule {
        pattern: pattern.try_copy(alloc)?,
        access: Perms::empty(),
        exec: Some(Transition { word, target: None }),
        rank: Rank::Plain,
        link: None,
        owner: false,
        deny: false,
        audit: false,
    }))
}

// Whether some path matches two patterns, by whether two rules on them conflict that lead to different profiles.
fn overlap(alloc: Global, one: &Pattern, other: &Pattern) -> Result<bool, AllocError>
    ensures { IfOk result (λ found. found ≡ overlaps one.now other.now) }
{
    let mut rules = Vec::with_capacity(alloc, 2)?;
    rules.push(leading_rule(alloc, other, ExecWord::Unconfined)?)?;
    rules.push(leading_rule(alloc, one, ExecWord::Inherit)?)?;
    Ok(first_conflict(alloc, &rules)?.is_some())
}

// Whether two rules on files conflict.
fn file_rules_conflict(alloc: Global, one: &FileRule, other: &FileRule) -> Result<bool, AllocError>
    ensures { IfOk result (λ found. found ≡ conflict (File one.now) (File other.now)) }
{
    if one.deny || other.deny {
        return Ok(false);
    }
    let (Some(here), Some(there)) = (&one.exec, &other.exec) else {
        return Ok(false);
    };
    if !one.rank.is_same(other.rank) || here.is_same(there) {
        return Ok(false);
    }
    overlap(alloc, &one.pattern, &other.pattern)
}

/// Whether two rules conflict: both are allow rules on files with an exec word, with one rank, they lead to different profiles, and some path
/// matches both.
///
/// # Errors
///
/// Where memory runs out.
pub fn conflict(alloc: Global, one: &Rule, other: &Rule) -> Result<bool, AllocError>
    ensures { IfOk result (λ found. found ≡ conflict one.now other.now) }
{
    match (one, other) {
        (Rule::File(one), Rule::File(other)) => file_rules_conflict(alloc, one, other),
        _ => Ok(false),
    }
}
