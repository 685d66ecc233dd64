//! Missing rules, as they are reported.

ghost use Rattle.std.specs.Prelude.{◌≡◌, ◌++◌, IfOk, OnOk};
ghost use Rattle.std.specs.Str.{bytes_eq};
ghost use Rattle.aatry_report.specs.SeenFields.{seen_field};
ghost use Rattle.aatry_report.specs.Shown.{shown};
ghost use Rattle.aatry_why_lines.specs.Lines.{shown_rule};
ghost use Rattle.aatry_why_lines.specs.Missing.{case_part, missing_line, missing_words, pasted_rule, shown_missing};

use crate::lines::rule_text;
use aa_explain_written::written_rule;
use aa_profile_data::Rule;
use aatry_report::{Field, Teller, push_heading, push_shown, tell};
use std::alloc::{AllocError, Global};

/// For what a rule is missing.
#[derive(Clone, Copy)]
pub enum Missing {
    /// For a request.
    OfRequest,
    /// For a request that starts a script.
    OfScript,
}

/// A missing rule, as a profile's file writes it, so that it can be pasted; one that no file writes, as `show` prints it.
///
/// # Errors
///
/// Where memory runs out.
pub fn pasted_rule(alloc: Global, rule: &Rule) -> Result<Vec<u8>, AllocError>
    ensures { IfOk result (λ text. text.items ≡ pasted_rule rule.now) }
{
    match written_rule(alloc, rule)? {
        Some(text) => Ok(text),
        None => rule_text(alloc, rule),
    }
}

// The words over a missing rule.
fn missing_words(case: Missing) -> &'static str
    ensures { result.now ≡ missing_words case }
{
    match case {
        Missing::OfRequest => "missing rule",
        Missing::OfScript => "missing rule, where it is a script",
    }
}

// That a rule is missing where a script is started, in the record.
fn case_part<'x>(case: Missing) -> Field<'x>
    ensures { seen_field result ≡ case_part case }
{
    match case {
        Missing::OfRequest => Field::Words(""),
        Missing::OfScript => Field::MemberWord("for", "script"),
    }
}

// A rule as `show` prints it, as it is shown.
fn shown_rule(alloc: Global, rule: &Rule) -> Result<Vec<u8>, AllocError>
    ensures { IfOk result (λ text. text.items ≡ shown_rule rule.now) }
{
    let text = rule_text(alloc, rule)?;
    let mut told = Vec::new(alloc);
    push_shown(&mut told, &text)?;
    Ok(told)
}

// Whether a text is shown as it is: a terminal obeys none of its bytes.
fn is_shown_whole(alloc: Global, text: &[u8]) -> Result<bool, AllocError>
    ensures { IfOk result (λ whole. whole ≡ bytes_eq (shown text.now) text.now) }
{
    let mut told = Vec::new(alloc);
    push_shown(&mut told, text)?;
    Ok(told.as_slice() == text)
}

/// A missing rule, as it is shown: like `pasted_rule`; where a terminal would obey one of its bytes, as `show` prints it.
///
/// # Errors
///
/// Where memory runs out.
pub fn shown_missing(alloc: Global, rule: &Rule) -> Result<Vec<u8>, AllocError>
    ensures { IfOk result (λ text. text.items ≡ shown_missing rule.now) }
{
    let text = pasted_rule(alloc, rule)?;
    if is_shown_whole(alloc, &text)? {
        Ok(text)
    } else {
        shown_rule(alloc, rule)
    }
}

/// Appends the line of a missing rule to a text, below words of its own; or a record of it, of the kind `missing`, with `for` where it is missing
/// for a script alone. The rule is written like in a profile's file, followed by a comma; and as `show` prints it where no file writes it, and on a
/// line where a terminal obeys one of its bytes.
///
/// # Errors
///
/// Where memory runs out. A beginning may have been appended then.
pub fn push_missing(
    teller: Teller,
    case: Missing,
    rule: &Rule,
    out: &mut Vec<u8>,
) -> Result<(), AllocError>
    ensures { OnOk result (out.new.items ≡ out.old.items ++ missing_line teller.form case rule.now) }
{
    let shown = shown_missing(teller.alloc, rule)?;
    let text = pasted_rule(teller.alloc, rule)?;
    push_heading(teller.form, missing_words(case), out)?;
    tell(
        teller,
        "missing",
        &[
            Field::Words("  "),
            Field::Bytes(&shown),
            Field::Member("rule", &text),
            case_part(case),
        ],
        out,
    )
}
