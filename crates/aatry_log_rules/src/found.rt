//! Rules to add, as they are printed.

ghost use Rattle.std.specs.Prelude.{◌≡◌, ◌++◌, OnOk};
ghost use Rattle.std.specs.Option.{option_copied};
ghost use Rattle.aatry_log_rules.specs.Found.{missing_told, rule_text, wider_field};
ghost use Rattle.aatry_log_rules.specs.SeenWanted.{seen_wanted};
ghost use Rattle.aatry_report.specs.SeenFields.{seen_field};

use crate::wanted::Wanted;
use aa_profile_data::Rule;
use aatry_report::{Field, Teller, tell};
use aatry_why_lines::{pasted_rule, shown_missing};
use std::alloc::AllocError;

// A wider rule in the record, if there is one.
fn wider_field(wider: Option<&[u8]>) -> Field<'_>
    ensures { seen_field result ≡ wider_field (option_copied wider.entry) }
{
    match wider {
        None => Field::Words(""),
        Some(text) => Field::Member("wider", text),
    }
}

// Appends a rule to add to a text: as it is shown and as it can be pasted, how often was asked what it allows, who asks, the file, and a wider rule, if
// there is one.
#[tactic(auto, unfolding(crate::specs::Found::missing_told))]
fn push_missing<'x>(
    teller: Teller,
    shown: &'x [u8],
    text: &'x [u8],
    times: usize,
    who: &'x [u8],
    path: &'x [u8],
    wider: Field<'x>,
    out: &mut Vec<u8>,
) -> Result<(), AllocError>
    ensures { OnOk result (out.new.items
        ≡ out.old.items ++ missing_told teller.form shown.now text.now times who.now path.now (seen_field wider.entry)) }
{
    tell(
        teller,
        "missing",
        &[
            Field::Words("  "),
            Field::Bytes(shown),
            Field::Member("rule", text),
            Field::Words("  # asked "),
            Field::Times("times", times),
            Field::Member("profile", who),
            Field::Member("file", path),
            wider,
        ],
        out,
    )
}

/// Appends a rule to add for a wanted request to a text, and how often was asked what it allows: a line, two spaces in, of the rule as it can be
/// pasted and a comment; or a record of the kind `missing`, with the texts `rule`, `profile` and `file` and the number `times`, and with the text
/// `wider` where there is a wider rule.
///
/// # Errors
///
/// Where memory runs out. A beginning may have been appended then.
pub fn push_rule(
    teller: Teller,
    path: &[u8],
    wanted: &Wanted<'_>,
    rule: &Rule,
    wider: Option<&[u8]>,
    out: &mut Vec<u8>,
) -> Result<(), AllocError>
    ensures { OnOk result (out.new.items
        ≡ out.old.items ++ rule_text teller.form path.now (seen_wanted wanted.now) rule.now (option_copied wider.entry)) }
{
    let shown = shown_missing(teller.alloc, rule)?;
    let text = pasted_rule(teller.alloc, rule)?;
    push_missing(
        teller,
        &shown,
        &text,
        wanted.times as usize,
        wanted.who,
        path,
        wider_field(wider),
        out,
    )
}
