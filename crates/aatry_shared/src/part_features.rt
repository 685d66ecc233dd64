//! What a part has, one by one, and how each of that is printed.

ghost use Rattle.std.specs.Prelude.{◌≡◌, ◌++◌, IfOk, OnOk, map};
ghost use Rattle.aa_explain_diff.specs.Features.{seen_feature};
ghost use Rattle.aa_profile_data.specs.SeenRequests.{request_of};
ghost use Rattle.aatry_shared.specs.PartFeatures.{covering_feature, covering_from, feature_text, place_at, state_text};

use aa_decide_rules::covers;
use aa_explain_diff::Feature;
use aa_profile_data::{Mode, Request, Rule};
use aa_set_answers::{mode_word, push_attachment, push_rule};
use aa_text_files::Place;
use bitflags::Flags;
use std::alloc::{AllocError, Global};

// Appends the word of a mode to a text, or of no mode: a profile in none is disabled.
fn push_mode(mode: Option<Mode>, out: &mut Vec<u8>) -> Result<(), AllocError>
    ensures { OnOk result (out.new.items ≡ out.old.items ++ state_text mode) }
{
    match mode {
        None => out.extend_from_slice(b"disabled"),
        Some(mode) => out.extend_from_slice(mode_word(mode).as_bytes()),
    }
}

// Appends a feature to a text.
fn push_feature(feature: Feature<'_>, out: &mut Vec<u8>) -> Result<(), AllocError>
    ensures { OnOk result (out.new.items ≡ out.old.items ++ feature_text (seen_feature feature.entry)) }
{
    match feature {
        Feature::Mode(mode) => push_mode(mode, out),
        Feature::Hat => out.extend_from_slice(b"hat"),
        Feature::Audit => out.extend_from_slice(b"audit"),
        Feature::Flag(flag) => out.extend_from_slice(flag.as_slice()),
        Feature::Attachment(pattern) => push_attachment(out, pattern),
        Feature::Rule(rule, _) => push_rule(out, rule),
    }
}

/// A feature as it is printed: by the word of a mode or a flag, by `disabled`, or as `show` prints it.
///
/// # Errors
///
/// Where memory runs out.
pub fn feature_text(alloc: Global, feature: Feature<'_>) -> Result<Vec<u8>, AllocError>
    ensures { IfOk result (λ text. text.items ≡ feature_text (seen_feature feature.entry)) }
{
    let mut text = Vec::new(alloc);
    push_feature(feature, &mut text)?;
    Ok(text)
}

/// Where the rule of a number is written, if that is known.
pub fn place_at(places: &[Option<Place>], number: usize) -> Option<Place>
    ensures { result ≡ place_at places.now number }
{
    match places.get(number) {
        None => None,
        Some(place) => *place,
    }
}

// Appends a rule by its number to `features`, if it covers some of the request's needs.
fn push_if_covering<'a>(
    request: &Request<'_>,
    number: usize,
    rule: &'a Rule,
    features: &mut Vec<Feature<'a>>,
) -> Result<(), AllocError>
    ensures { OnOk result (map seen_feature features.new.items
        ≡ map seen_feature features.old.items ++ covering_feature (request_of request.entry.now) number rule.now) }
{
    if !covers(request, rule).is_empty() {
        features.push(Feature::Rule(rule, number))?;
    }
    Ok(())
}

/// Those of some rules that cover some of the request's needs, by their numbers.
///
/// # Errors
///
/// Where memory runs out.
pub fn covering_features<'a>(
    alloc: Global,
    request: &Request<'_>,
    rules: &'a [Rule],
) -> Result<Vec<Feature<'a>>, AllocError>
    ensures { IfOk result (λ features. map seen_feature features.items ≡ covering_from (request_of request.entry.now) 0 rules.now) }
{
    let mut features = Vec::new(alloc);
    let mut number = 0;
    let mut rest = rules;
    while let [rule, behind @ ..] = rest {
        push_if_covering(request, number, rule, &mut features)?;
        number += 1;
        rest = behind;
    }
    Ok(features)
}
