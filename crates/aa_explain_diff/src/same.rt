//! Equality of features.

ghost use Rattle.std.specs.Prelude.{◌≡◌};
ghost use Rattle.std.specs.Cmp as cmp;
ghost use Rattle.std.specs.Cmp.Rules.{hashing};
ghost use Rattle.std.proofs.Common.{rules};
ghost use Rattle.aa_explain_diff.specs.Features.{same_feature, same_mode, same_state, seen_feature};
ghost use Rattle.aa_explain_diff.specs.code.Keys.{caps_of, hashed, link_of, link_of_rule, caps_of_rule, same_key, target_bytes, text_of, text_of_rule};
ghost use Rattle.aa_explain_diff.specs.code.SameKeys.{same-equiv, same-hashed};

use crate::features::Feature;
use aa_bytes::SharedBytes;
use aa_profile_data::{Mode, Rule};
use std::hash::{Hash, Hasher};

// Whether two modes are the same.
fn same_mode(one: Mode, other: Mode) -> bool
    ensures { result ≡ same_mode one other }
{
    match (one, other) {
        (Mode::Enforce, Mode::Enforce) => true,
        (Mode::Complain, Mode::Complain) => true,
        (Mode::Unconfined, Mode::Unconfined) => true,
        _ => false,
    }
}

// Whether two states have the same mode, or are both disabled.
fn same_state(one: Option<Mode>, other: Option<Mode>) -> bool
    ensures { result ≡ same_state one other }
{
    match (one, other) {
        (Some(one), Some(other)) => same_mode(one, other),
        (None, None) => true,
        _ => false,
    }
}

// The bytes of a target, if there is one.
fn target_bytes(target: &Option<SharedBytes>) -> &[u8]
    ensures { result.now ≡ target_bytes target.now }
{
    match target {
        None => &[],
        Some(target) => target.as_slice(),
    }
}

// The text by which most rules differ.
fn text_of_rule(rule: &Rule) -> &[u8]
    ensures { result.now ≡ text_of_rule rule.now }
{
    match rule {
        Rule::File(rule) => rule.pattern.text(),
        Rule::Other(rule) => rule.text.as_slice(),
        Rule::Cap(_) | Rule::Net(_) => &[],
    }
}

// The link target of a rule.
fn link_of_rule(rule: &Rule) -> &[u8]
    ensures { result.now ≡ link_of_rule rule.now }
{
    match rule {
        Rule::File(rule) => target_bytes(&rule.link),
        Rule::Cap(_) | Rule::Net(_) | Rule::Other(_) => &[],
    }
}

// The set of capabilities of a rule on them.
fn caps_of_rule(rule: &Rule) -> u64
    ensures { result ≡ caps_of_rule rule.now }
{
    match rule {
        Rule::Cap(rule) => rule.caps,
        Rule::File(_) | Rule::Net(_) | Rule::Other(_) => 0,
    }
}

impl<'a> Feature<'a> {
    // The text by which most features of a kind differ.
    fn text(self) -> &'a [u8]
        ensures { result.now ≡ text_of (seen_feature self.entry) }
    {
        match self {
            Feature::Flag(flag) => flag.as_slice(),
            Feature::Attachment(pattern) => pattern.text(),
            Feature::Rule(rule, _) => text_of_rule(rule),
            Feature::Mode(_) | Feature::Hat | Feature::Audit => &[],
        }
    }

    // The link target of a rule.
    fn link(self) -> &'a [u8]
        ensures { result.now ≡ link_of (seen_feature self.entry) }
    {
        match self {
            Feature::Rule(rule, _) => link_of_rule(rule),
            _ => &[],
        }
    }

    // The set of capabilities of a rule on them.
    fn caps(self) -> u64
        ensures { result ≡ caps_of (seen_feature self.entry) }
    {
        match self {
            Feature::Rule(rule, _) => caps_of_rule(rule),
            _ => 0,
        }
    }
}

impl<'a> PartialEq for Feature<'a> {
    ghost eq = { same_key };

    ghost laws = { cmp.partial_equiv_from_equiv same-equiv };

    fn eq(&self, other: &Self) -> bool {
        match (self, other) {
            (Feature::Mode(one), Feature::Mode(other)) => same_state(*one, *other),
            (Feature::Hat, Feature::Hat) | (Feature::Audit, Feature::Audit) => true,
            (Feature::Flag(one), Feature::Flag(other)) => one.as_slice() == other.as_slice(),
            (Feature::Attachment(one), Feature::Attachment(other)) => one.text() == other.text(),
            (Feature::Rule(one, _), Feature::Rule(other, _)) => one.is_same(other),
            _ => false,
        }
    }
}

impl<'a> Eq for Feature<'a> {
    ghost laws = { same-equiv };
}

impl<'a> Hash for Feature<'a> {
    ghost hash_input = { λ feature. hashed (seen_feature feature) };

    ghost respects_eq = { same-hashed };

    fn hash<H: Hasher>(&self, state: &mut H) {
        self.text().hash(state);
        self.link().hash(state);
        self.caps().hash(state);
    }
}
