//! What a section has, one by one.

ghost use Rattle.std.specs.Prelude.{◌≡◌, ◌++◌, IfOk, OnOk, map};
ghost use Rattle.aa_explain_diff.specs.Features.{OfAttachment, OfFlag, feature_if, features_of, rules_from, seen_feature};
ghost use Rattle.aa_explain_diff.specs.Sections.{seen_section};

use crate::sections::Section;
use aa_bytes::Sequence;
use aa_glob_pattern::Pattern;
use aa_profile_data::{Mode, Rule};
use std::alloc::{AllocError, Global};

/// One thing that a profile, a child or a hat has. Two are equal (`==`) where they are of one kind and equal; rules wherever they are among the
/// others.
#[derive(Clone, Copy)]
pub enum Feature<'a> {
    /// The mode that it is in; `None` where it is disabled.
    Mode(Option<Mode>),
    /// The section is a hat.
    Hat,
    /// What each of its rules decides is logged.
    Audit,
    /// A flag that decides nothing.
    Flag(&'a Sequence<u8>),
    /// A pattern of the programs that it attaches to.
    Attachment(&'a Pattern),
    /// A rule, and its index among the rules.
    Rule(&'a Rule, usize),
}

// Appends a feature, if `holds`.
fn push_if<'a>(
    holds: bool,
    feature: Feature<'a>,
    features: &mut Vec<Feature<'a>>,
) -> Result<(), AllocError>
    ensures { OnOk result (map seen_feature features.new.items ≡ map seen_feature features.old.items ++ feature_if holds (seen_feature feature.entry)) }
{
    if holds {
        features.push(feature)?;
    }
    Ok(())
}

// Appends flags as features.
fn push_flags<'a>(
    flags: &'a [Sequence<u8>],
    features: &mut Vec<Feature<'a>>,
) -> Result<(), AllocError>
    ensures { OnOk result (map seen_feature features.new.items ≡ map seen_feature features.old.items ++ map OfFlag flags.now) }
{
    let mut rest = flags;
    while let [flag, behind @ ..] = rest {
        features.push(Feature::Flag(flag))?;
        rest = behind;
    }
    Ok(())
}

// Appends attachments as features.
fn push_attachments<'a>(
    patterns: &'a [Pattern],
    features: &mut Vec<Feature<'a>>,
) -> Result<(), AllocError>
    ensures { OnOk result (map seen_feature features.new.items ≡ map seen_feature features.old.items ++ map OfAttachment patterns.now) }
{
    let mut rest = patterns;
    while let [pattern, behind @ ..] = rest {
        features.push(Feature::Attachment(pattern))?;
        rest = behind;
    }
    Ok(())
}

// Appends rules as features, with their indices.
fn push_rules<'a>(rules: &'a [Rule], features: &mut Vec<Feature<'a>>) -> Result<(), AllocError>
    ensures { OnOk result (map seen_feature features.new.items ≡ map seen_feature features.old.items ++ rules_from 0 rules.now) }
{
    let mut number = 0;
    let mut rest = rules;
    while let [rule, behind @ ..] = rest {
        features.push(Feature::Rule(rule, number))?;
        number += 1;
        rest = behind;
    }
    Ok(())
}

/// All that a section has, in the order of the file: its mode, whether it is a hat, whether it is audited, its flags, its attachments, and its
/// rules.
///
/// # Errors
///
/// Where memory runs out.
pub fn features_of<'a>(alloc: Global, section: &Section<'a>) -> Result<Vec<Feature<'a>>, AllocError>
    ensures { IfOk result (λ features. map seen_feature features.items ≡ features_of (seen_section section.now)) }
{
    let mut features = Vec::with_capacity(alloc, section.rules.len())?;
    features.push(Feature::Mode(section.mode))?;
    push_if(section.hat, Feature::Hat, &mut features)?;
    push_if(section.audit, Feature::Audit, &mut features)?;
    push_flags(section.flags, &mut features)?;
    push_attachments(section.attachments, &mut features)?;
    push_rules(section.rules, &mut features)?;
    Ok(features)
}
