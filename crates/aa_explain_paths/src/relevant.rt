//! The rules that are relevant to a claim.

ghost use Rattle.std.specs.Prelude.{◌≡◌, IfOk, OnOk};
ghost use Rattle.aa_explain_paths.specs.Relevant.{covers_some, has_owned, is_relevant, relevant_rules};

use crate::question::Whose;
use aa_decide_rules::covered_by_file;
use aa_profile_data::{FileRule, Perms, Rule};
use bitflags::Flags;
use std::alloc::{AllocError, Global};

// Whether the task's user owns some of the files that are meant.
fn has_owned(whose: Whose) -> bool
    ensures { result ≡ has_owned whose }
{
    match whose {
        Whose::Owner | Whose::Any => true,
        Whose::Other => false,
    }
}

// Whether a rule covers one of some letters.
fn covers_some(letters: Perms, rule: &FileRule) -> bool
    ensures { result ≡ covers_some letters.0 rule.now }
{
    letters.intersects(covered_by_file(rule))
}

// Whether a rule is relevant to a claim about some letters.
fn is_relevant(letters: Perms, whose: Whose, rule: &Rule) -> bool
    ensures { result ≡ is_relevant letters.0 whose rule.now }
{
    match rule {
        Rule::File(rule) => covers_some(letters, rule) && (!rule.owner || has_owned(whose)),
        Rule::Cap(_) | Rule::Net(_) | Rule::Other(_) => false,
    }
}

/// Copies of those of some rules that are relevant to a claim about these letters of these files, in their order. All others cover none of the
/// letters, or have `owner` where only files of other users are meant, so no verdict depends on them (`relevant_rules_decide`); and the fewer
/// patterns, the fewer sets of states.
///
/// # Errors
///
/// Where memory runs out.
pub fn relevant_rules(
    alloc: Global,
    rules: &[Rule],
    letters: Perms,
    whose: Whose,
) -> Result<Vec<Rule>, AllocError>
    ensures { IfOk result (λ kept. kept.items ≡ relevant_rules letters.0 whose rules.now) }
{
    let mut kept = Vec::new(alloc);
    for rule in rules {
        if is_relevant(letters, whose, rule) {
            kept.push(rule.try_copy(alloc)?)?;
        }
    }
    Ok(kept)
}
