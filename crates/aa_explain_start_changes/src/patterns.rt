//! The patterns by which it depends on the path of a program what its start leads to, before a change and behind it.

ghost use Rattle.std.specs.Prelude.{◌≡◌, ◌++◌, IfOk, IfSome, None, OnOk};
ghost use Rattle.aa_explain_start_changes.specs.Patterns.{both_others, both_rules, both_wanted, change_classes, change_patterns};
ghost use Rattle.aa_explain_start_changes.specs.Starters.{seen_starters};
ghost use Rattle.aa_glob_paths.specs.AllPaths.{TellAllPaths};
ghost use Rattle.aa_glob_paths.specs.TooMany.{AreMoreTextsThan};

use crate::starter::Starters;
use aa_explain_reach::{attachment_patterns, standing_among, start_rules, wanted_patterns};
use aa_glob_paths::Outcome;
use aa_glob_pattern::Pattern;
use aa_profile_data::Rule;
use std::alloc::{AllocError, Global};

// Appends rules to others.
fn append_rules(more: Vec<Rule>, rules: &mut Vec<Rule>) -> Result<(), AllocError>
    ensures { OnOk result (rules.new.items ≡ rules.old.items ++ more.items) }
{
    for rule in more {
        rules.push(rule)?;
    }
    Ok(())
}

// Appends patterns to others.
fn append_patterns(more: Vec<Pattern>, patterns: &mut Vec<Pattern>) -> Result<(), AllocError>
    ensures { OnOk result (patterns.new.items ≡ patterns.old.items ++ more.items) }
{
    for pattern in more {
        patterns.push(pattern)?;
    }
    Ok(())
}

// The rules of both that speak of the start of programs.
fn both_rules(alloc: Global, starters: Starters<'_, '_>) -> Result<Vec<Rule>, AllocError>
    ensures { IfOk result (λ rules. rules.items ≡ both_rules (seen_starters starters.entry)) }
{
    let mut rules = start_rules(alloc, starters.old.asker)?;
    append_rules(start_rules(alloc, starters.new.asker)?, &mut rules)?;
    Ok(rules)
}

// The pattern of all absolute paths and those of all attachments, of both.
fn both_others(alloc: Global, starters: Starters<'_, '_>) -> Result<Vec<Pattern>, AllocError>
    ensures { IfOk result (λ patterns. patterns.items ≡ both_others (seen_starters starters.entry)) }
{
    let old = starters.old.slots.as_slice();
    let new = starters.new.slots.as_slice();
    let mut patterns = attachment_patterns(alloc, old, starters.old.asker)?;
    append_patterns(
        attachment_patterns(alloc, new, starters.new.asker)?,
        &mut patterns,
    )?;
    Ok(patterns)
}

// The patterns that are wanted of either.
fn both_wanted(alloc: Global, starters: Starters<'_, '_>) -> Result<Vec<Pattern>, AllocError>
    ensures { IfOk result (λ patterns. patterns.items ≡ both_wanted (seen_starters starters.entry)) }
{
    let old = start_rules(alloc, starters.old.asker)?;
    let mut patterns = wanted_patterns(alloc, starters.old.asker, &old)?;
    let new = start_rules(alloc, starters.new.asker)?;
    append_patterns(
        wanted_patterns(alloc, starters.new.asker, &new)?,
        &mut patterns,
    )?;
    Ok(patterns)
}

/// Paths that stand for all whose programs are started by either, as far as the kernel may ask about them; none where
/// they are too many.
///
/// # Errors
///
/// Where memory runs out, and where there are more than 4,294,967,295 patterns or states.
pub fn changing_outcomes(
    alloc: Global,
    starters: Starters<'_, '_>,
    limit: usize,
) -> Result<Option<Vec<Outcome>>, AllocError>
    ensures told { IfOk result (λ found. IfSome found (λ outcomes.
        TellAllPaths (change_patterns (seen_starters starters.entry)) (change_classes (seen_starters starters.entry)) outcomes.items)) }
    ensures full { IfOk result (λ found. found ≡ None → AreMoreTextsThan (change_patterns (seen_starters starters.entry)) limit) }
{
    let rules = both_rules(alloc, starters)?;
    let others = both_others(alloc, starters)?;
    let wanted = both_wanted(alloc, starters)?;
    standing_among(alloc, &rules, &others, &wanted, limit)
}
