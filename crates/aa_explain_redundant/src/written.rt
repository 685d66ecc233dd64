//! Rules, and the written rules that they were made of.

ghost use Rattle.std.specs.Prelude.{◌≡◌, IfOk, map, slice_get};
ghost use Rattle.aa_explain_redundant.specs.Left.{is_among, is_file, is_made_of, numbered, stays_named};
ghost use Rattle.aa_explain_redundant.specs.Seen.{seen_numbered, seen_written};

use aa_profile_data::Rule;
use std::alloc::{AllocError, Global};

/// What a profile, a child or a hat has for files, lent, and of which written rules its rules were made.
#[derive(Clone, Copy)]
pub struct WrittenRules<'a> {
    /// Whether what each of the rules decides is logged.
    pub audit: bool,
    /// The rules, in the order of the file.
    pub rules: &'a [Rule],
    /// For each of them the number of the written rule of which it was made: one written rule makes several, by variables and their values. A rule
    /// past the last number was made of none that can be tried.
    pub written: &'a [usize],
}

/// A rule, and the number of the written rule of which it was made.
#[derive(Clone, Copy)]
pub struct NumberedRule<'a> {
    /// The rule.
    pub rule: &'a Rule,
    /// The number, if it is known.
    pub written: Option<usize>,
}

// The number at an index.
fn number_at(written: &[usize], place: usize) -> Option<usize>
    ensures { result ≡ slice_get written.now place }
{
    match written.get(place) {
        None => None,
        Some(number) => Some(*number),
    }
}

/// Rules with the numbers of the written rules of which they were made.
///
/// # Errors
///
/// Where memory runs out.
pub fn numbered<'a>(
    alloc: Global,
    rules: WrittenRules<'a>,
) -> Result<Vec<NumberedRule<'a>>, AllocError>
    ensures { IfOk result (λ found. map seen_numbered found.items ≡ numbered (seen_written rules.entry)) }
{
    let mut found = Vec::with_capacity(alloc, rules.rules.len())?;
    let mut place = 0;
    let mut rest = rules.rules;
    while let [rule, behind @ ..] = rest {
        found.push(NumberedRule {
            rule,
            written: number_at(rules.written, place),
        })?;
        place += 1;
        rest = behind;
    }
    Ok(found)
}

// Whether a rule is on files.
fn is_file(rule: &Rule) -> bool
    ensures { result ≡ is_file rule.now }
{
    match rule {
        Rule::File(_) => true,
        Rule::Cap(_) | Rule::Net(_) | Rule::Other(_) => false,
    }
}

// Whether a number is among some.
fn is_among(numbers: &[usize], number: Option<usize>) -> bool
    ensures { result ≡ is_among numbers.now number }
{
    match number {
        None => false,
        Some(number) => numbers.contains(&number),
    }
}

/// Whether a rule is on files and was made of one of some written rules. It takes no memory.
pub fn is_made_of(numbers: &[usize], one: NumberedRule<'_>) -> bool
    ensures { result ≡ is_made_of numbers.now (seen_numbered one.entry) }
{
    is_file(one.rule) && is_among(numbers, one.written)
}

/// Whether a written rule isn't in a list. It takes no memory.
pub fn stays_named(told: &[usize], number: usize) -> bool
    ensures { result ≡ stays_named told.now number }
{
    !told.contains(&number)
}
