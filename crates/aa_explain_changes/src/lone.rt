//! The rules on files that only one side has.

ghost use Rattle.std.specs.Prelude.{◌≡◌, ◌++◌, [], IfOk, OnOk, map};
ghost use Rattle.aa_explain_diff.specs.Features.{rules_from, seen_feature};
ghost use Rattle.aa_explain_changes.specs.Lone.{file_at, files_among, lone_features, lone_rules, patterns_of, seen_lone};

use aa_explain_diff::{Feature, lacking};
use aa_glob_pattern::Pattern;
use aa_profile_data::{FileRule, Rule};
use std::alloc::{AllocError, Global};

/// A rule on files that one side has, and the other lacks.
#[derive(Clone, Copy)]
pub struct LoneRule<'a> {
    /// The rule.
    pub rule: &'a FileRule,
    /// Its number among the rules of its side, from 0.
    pub number: usize,
}

// Rules by their numbers.
fn numbered<'a>(alloc: Global, rules: &'a [Rule]) -> Result<Vec<Feature<'a>>, AllocError>
    ensures { IfOk result (λ features. map seen_feature features.items ≡ rules_from 0 rules.now) }
{
    let mut features = Vec::with_capacity(alloc, rules.len())?;
    let mut number = 0;
    let mut rest = rules;
    while let [rule, behind @ ..] = rest {
        features.push(Feature::Rule(rule, number))?;
        number += 1;
        rest = behind;
    }
    Ok(features)
}

// The rules of a list that another list of rules lacks; or all of them, where `all`.
fn lone_features<'a>(
    alloc: Global,
    all: bool,
    others: &'a [Rule],
    rules: &'a [Rule],
) -> Result<Vec<Feature<'a>>, AllocError>
    ensures { IfOk result (λ features. map seen_feature features.items ≡ lone_features all others.now rules.now) }
{
    let own = numbered(alloc, rules)?;
    if all {
        return Ok(own);
    }
    let theirs = numbered(alloc, others)?;
    lacking(alloc, &theirs, &own)
}

// Appends a rule, if it is on files.
fn push_file<'a>(
    rule: &'a Rule,
    number: usize,
    lone: &mut Vec<LoneRule<'a>>,
) -> Result<(), AllocError>
    ensures { OnOk result (map seen_lone lone.new.items ≡ map seen_lone lone.old.items ++ file_at rule.now number []) }
{
    if let Rule::File(rule) = rule {
        lone.push(LoneRule { rule, number })?;
    }
    Ok(())
}

// The rules on files among features.
fn files_among<'a>(alloc: Global, features: &[Feature<'a>]) -> Result<Vec<LoneRule<'a>>, AllocError>
    ensures { IfOk result (λ lone. map seen_lone lone.items ≡ files_among (map seen_feature features.now)) }
{
    let mut lone = Vec::new(alloc);
    let mut rest = features;
    while let [feature, behind @ ..] = rest {
        if let Feature::Rule(rule, number) = *feature {
            push_file(rule, number, &mut lone)?;
        }
        rest = behind;
    }
    Ok(lone)
}

/// The rules on files of a list that another list of rules lacks, in their order; or all of them, where `all`.
///
/// # Errors
///
/// Where memory runs out.
pub fn lone_rules<'a>(
    alloc: Global,
    all: bool,
    others: &'a [Rule],
    rules: &'a [Rule],
) -> Result<Vec<LoneRule<'a>>, AllocError>
    ensures { IfOk result (λ lone. map seen_lone lone.items ≡ lone_rules all others.now rules.now) }
{
    let features = lone_features(alloc, all, others, rules)?;
    files_among(alloc, &features)
}

/// Appends copies of the patterns of rules.
///
/// # Errors
///
/// Where memory runs out.
pub fn push_patterns(
    alloc: Global,
    lone: &[LoneRule<'_>],
    patterns: &mut Vec<Pattern>,
) -> Result<(), AllocError>
    ensures { OnOk result (patterns.new.items ≡ patterns.old.items ++ patterns_of (map seen_lone lone.now)) }
{
    let mut rest = lone;
    while let [one, behind @ ..] = rest {
        patterns.push(one.rule.pattern.try_copy(alloc)?)?;
        rest = behind;
    }
    Ok(())
}
