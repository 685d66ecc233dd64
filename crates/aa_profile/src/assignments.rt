//! The variables of a profile's file.

ghost use Rattle.std.specs.Prelude.{◌≡◌, ◌≢◌, ◌<◌, [], Ok, Err, None, Some, IfOk, IfErr, OnOk, true, false, find, length, map};
ghost use Rattle.std.specs.List.{list_any};
ghost use Rattle.std.specs.Option.{option_map};
ghost use Rattle.aa_text_variables.specs.Variables.{names_undefined};
ghost use Rattle.aa_text_files.specs.declared.text_error.TextRefusal.TheVariants as text;
ghost use Rattle.aa_profile.specs.Assignments.{all_assigned, assigned, cycle, first_of, first_undefined, has_no_value, naming, undefined_name, variables_of};
ghost use Rattle.aa_profile.specs.Refusals.{IsRefusalOf};
ghost use Rattle.aa_profile.specs.code.FileReadingProgress.{first_undefined_value};
ghost use Rattle.aa_profile_grammar.specs.Patterns.{have_expansions};
ghost use Rattle.aa_profile_grammar.specs.Refusals.{IsRefusal};
ghost use Rattle.aa_profile_grammar.specs.SeenFiles.{seen_assignment};
ghost use Rattle.aa_profile_parsing.specs.Tokens.{place_of, text_of};
ghost use Rattle.aa_profile_parsing.specs.SeenTokens.{seen_tokens};
ghost use Rattle.aa_profile_parsing.specs.ProfileError.{plain};
ghost use Rattle.aa_profile_parsing.specs.declared.profile_error.ProfileRefusal.TheVariants.{Memory};

use aa_profile_grammar::Assignment;
use aa_profile_parsing::{ProfileError, ProfileRefusal, place_of, placed};
use aa_text_files::{Place, TextError, TextRefusal};
use aa_text_tokens::Spliced;
use aa_text_variables::{Variables, what_a_text_leads_to};
use std::alloc::{AllocError, Global};

// The texts of tokens.
fn texts<'a>(alloc: Global, tokens: &[Spliced<'a>]) -> Result<Vec<&'a [u8]>, AllocError>
    ensures { IfOk result (λ texts. map (λ text. text.now) texts.items ≡ map text_of (seen_tokens tokens.now)) }
{
    let mut texts = Vec::with_capacity(alloc, tokens.len())?;
    for spliced in tokens {
        texts.push(spliced.token.text)?;
    }
    Ok(texts)
}

// Executes an assignment. The caller knows the place of a refusal.
fn assign(
    alloc: Global,
    variables: &mut Variables,
    assignment: Assignment<'_>,
) -> Result<(), TextError>
    requires { has_no_value (seen_assignment assignment) ≡ false }
    ensures ok { OnOk result (assigned variables.old (seen_assignment assignment.entry) ≡ Ok variables.new) }
    ensures refused { IfErr result (λ e. e.refusal ≢ text.Memory → assigned variables.old (seen_assignment assignment.entry) ≡ Err e.refusal) }
{
    let words = texts(alloc, assignment.values)?;
    let name = assignment.sign.token.text;
    if assignment.append {
        variables.append(name, &words)
    } else {
        variables.define(name, &words)
    }
}

/// The variables after assignments in order, without checks of the names in their values.
///
/// # Errors
///
/// - `Redefined` and `AppendUndefined`, at the first assignment that is refused so.
/// - `Memory`: memory ran out.
pub fn assign_all(alloc: Global, assignments: &[Assignment<'_>]) -> Result<Variables, ProfileError>
    requires { list_any has_no_value (map seen_assignment assignments.now) ≡ false }
    ensures ok { IfOk result (λ variables. all_assigned [] (map seen_assignment assignments.now) ≡ Ok variables) }
    ensures refused { IsRefusalOf (all_assigned [] (map seen_assignment assignments.now)) result }
{
    let mut variables = Variables::new(alloc);
    for assignment in assignments {
        if let Err(error) = assign(alloc, &mut variables, *assignment) {
            let place = place_of(assignment.sign);
            return Err(placed(ProfileRefusal::from(error.refusal), place));
        }
    }
    Ok(variables)
}

// The first of some tokens that names a variable that isn't defined, or doesn't close a name.
fn first_undefined(variables: &Variables, tokens: &[Spliced<'_>]) -> Option<Place>
    ensures { result ≡ option_map place_of (first_undefined variables.now (seen_tokens tokens.now)) }
{
    for spliced in tokens {
        if variables.undefined(spliced.token.text) {
            return Some(place_of(*spliced));
        }
    }
    None
}

// The first token of assignments' values that names a variable that isn't defined, or doesn't close a name.
fn first_undefined_value(variables: &Variables, assignments: &[Assignment<'_>]) -> Option<Place>
    ensures { result ≡ first_undefined_value variables.now (map seen_assignment assignments.now) }
{
    for assignment in assignments {
        if let Some(place) = first_undefined(variables, assignment.values) {
            return Some(place);
        }
    }
    None
}

// The first token of a file that names a variable that isn't defined, or doesn't close a name.
fn first_undefined_name(
    variables: &Variables,
    assignments: &[Assignment<'_>],
    patterns: &[Spliced<'_>],
) -> Option<Place>
    ensures { result
        ≡ option_map place_of (first_undefined variables.now (naming (map seen_assignment assignments.now) (seen_tokens patterns.now))) }
{
    match first_undefined_value(variables, assignments) {
        Some(place) => Some(place),
        None => first_undefined(variables, patterns),
    }
}

// Refuses a file where a name in it is that of no variable.
fn check_names(
    variables: &Variables,
    assignments: &[Assignment<'_>],
    patterns: &[Spliced<'_>],
) -> Result<(), ProfileError>
    ensures ok { OnOk result (undefined_name variables.now (map seen_assignment assignments.now) (seen_tokens patterns.now) ≡ None) }
    ensures refused { IfErr result (λ e. undefined_name variables.now (map seen_assignment assignments.now) (seen_tokens patterns.now) ≡ Some e) }
{
    match first_undefined_name(variables, assignments, patterns) {
        Some(place) => Err(placed(ProfileRefusal::Text(TextRefusal::Undefined), place)),
        None => Ok(()),
    }
}

// The place of a variable's first assignment.
fn first_place(name: &[u8], assignments: &[Assignment<'_>]) -> Option<Place>
    ensures { result ≡ option_map (λ assignment. place_of assignment.sign) (first_of name.now (map seen_assignment assignments.now)) }
{
    for assignment in assignments {
        if name == assignment.sign.token.text {
            return Some(place_of(assignment.sign));
        }
    }
    None
}

// Refuses variables of which one leads to itself.
fn check_cycles(variables: &Variables, assignments: &[Assignment<'_>]) -> Result<(), ProfileError>
    ensures ok { OnOk result (cycle variables.now (map seen_assignment assignments.now) ≡ None) }
    ensures refused { IsRefusal (cycle variables.now (map seen_assignment assignments.now)) result }
{
    let Some(at) = variables.first_cycle()? else {
        return Ok(());
    };
    let place = match variables.name(at) {
        Some(name) => first_place(name, assignments),
        None => None,
    };
    Err(ProfileError {
        refusal: ProfileRefusal::Text(TextRefusal::Cycle),
        place,
    })
}

/// The variables of a file: what its assignments define. `patterns` are the tokens of its patterns, in their order.
///
/// # Errors
///
/// The first of these that applies.
/// - `Redefined` and `AppendUndefined`, at the first assignment that is refused so.
/// - `Undefined`, at the first value or pattern that names a variable that isn't defined, or doesn't close a name.
/// - `Cycle`, at the first assignment of the first variable that leads to itself or to one that does.
/// - `Memory`, without a place: memory ran out.
pub fn read_variables(
    alloc: Global,
    assignments: &[Assignment<'_>],
    patterns: &[Spliced<'_>],
) -> Result<Variables, ProfileError>
    requires { list_any has_no_value (map seen_assignment assignments.now) ≡ false }
    ensures ok { IfOk result (λ variables. variables_of (map seen_assignment assignments.now) (seen_tokens patterns.now) ≡ Ok variables) }
    ensures expand { IfOk result (λ variables. have_expansions variables (seen_tokens patterns.now) ≡ true) }
    ensures refused { IsRefusalOf (variables_of (map seen_assignment assignments.now) (seen_tokens patterns.now)) result }
{
    what_a_text_leads_to();
    let variables = assign_all(alloc, assignments)?;
    check_names(&variables, assignments, patterns)?;
    check_cycles(&variables, assignments)?;
    Ok(variables)
}
