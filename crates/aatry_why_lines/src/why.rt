//! The report on the rules that decide an answer.

ghost use Rattle.std.specs.Prelude.{◌≡◌, ◌++◌, IfOk, OnOk};
ghost use Rattle.aa_profile_data.specs.SeenRequests.{request_of};
ghost use Rattle.aatry_why_lines.specs.Why.{adding_lines, allowing_lines, auditing_lines, deciding, deciding_lines, lacking_lines, lines_of};
ghost use Rattle.aatry_why_lines.specs.Why.{missing_lines, missing_or, nearest_lines, told_lines, why_lines};
ghost use Rattle.aatry_why_lines.specs.Written.{seen_rules};
ghost use Rattle.aa_explain_rules.specs.Asked.{audits_of, rules_of};
ghost use Rattle.aa_explain_rules.specs.InTheWay.{in_the_way};
ghost use Rattle.aa_explain_rules.specs.Told.{told};

use crate::groups::{Group, heading, is_denied, places_in};
use crate::lines::{push_group, push_lines};
use crate::missing::{Missing, push_missing};
use crate::written::WrittenRules;
use aa_explain_rules::{
    AskedRules, ToldRule, leading_rules, missing_rule, near_rules, rules_in_the_way, script_rule,
    told_rules,
};
use aa_profile_data::{Perms, Request, Rule};
use aatry_report::Teller;
use bitflags::Flags;
use std::alloc::{AllocError, Global};

// Appends the lines of the rules of a group to a text.
fn push_told_group(
    teller: Teller,
    written: &WrittenRules<'_>,
    told: &[ToldRule],
    group: Group,
    out: &mut Vec<u8>,
) -> Result<(), AllocError>
    ensures { OnOk result (out.new.items ≡ out.old.items ++ lines_of teller.form (seen_rules written.now) told.now group) }
{
    let indexes = places_in(teller.alloc, group, told)?;
    push_group(teller, written, heading(group), &indexes, out)
}

// The indexes of the rules that decide under which profile a program runs, where its start is asked for.
fn deciding(
    alloc: Global,
    request: &Request<'_>,
    rules: AskedRules<'_>,
) -> Result<Vec<usize>, AllocError>
    ensures { IfOk result (λ places. places.items ≡ deciding (request_of request.entry.now) (rules_of rules.entry)) }
{
    match request {
        Request::File { needs, owned, path } => {
            if needs.contains(Perms::EXEC) {
                leading_rules(alloc, rules, *owned, path)
            } else {
                Ok(Vec::new(alloc))
            }
        }
        _ => Ok(Vec::new(alloc)),
    }
}

// Appends the lines of the rules that decide under which profile a program runs to a text.
fn push_deciding(
    teller: Teller,
    written: &WrittenRules<'_>,
    request: &Request<'_>,
    out: &mut Vec<u8>,
) -> Result<(), AllocError>
    ensures { OnOk result (out.new.items ≡ out.old.items ++ deciding_lines teller.form (seen_rules written.now) (request_of request.entry.now)) }
{
    let indexes = deciding(teller.alloc, request, written.rules)?;
    push_group(teller, written, "decided by", &indexes, out)
}

// Appends the line of a missing rule to a text, if there is one.
fn push_rule_of(
    teller: Teller,
    case: Missing,
    rule: Option<Rule>,
    out: &mut Vec<u8>,
) -> Result<(), AllocError>
    ensures { OnOk result (out.new.items ≡ out.old.items ++ missing_lines teller.form case rule) }
{
    match rule {
        None => Ok(()),
        Some(rule) => push_missing(teller, case, &rule, out),
    }
}

// Appends the line of the rule that a request lacks to a text, and of the one that it lacks where it starts a script.
fn push_adding(
    teller: Teller,
    written: &WrittenRules<'_>,
    request: &Request<'_>,
    out: &mut Vec<u8>,
) -> Result<(), AllocError>
    ensures { OnOk result (out.new.items ≡ out.old.items ++ adding_lines teller.form (seen_rules written.now) (request_of request.entry.now)) }
{
    let rule = missing_rule(teller.alloc, written.rules, request)?;
    push_rule_of(teller, Missing::OfRequest, rule, out)?;
    let rule = script_rule(teller.alloc, written.rules, request)?;
    push_rule_of(teller, Missing::OfScript, rule, out)
}

// Appends the lines of the missing rules to a text, or in their place those of the rules in the way, if there are any.
fn push_missing_rules(
    teller: Teller,
    written: &WrittenRules<'_>,
    request: &Request<'_>,
    out: &mut Vec<u8>,
) -> Result<(), AllocError>
    ensures { OnOk result (out.new.items ≡ out.old.items
        ++ missing_or teller.form (seen_rules written.now) (request_of request.entry.now)
        (in_the_way (request_of request.entry.now) (rules_of written.now.rules))) }
{
    let way = rules_in_the_way(teller.alloc, written.rules, request)?;
    if way.is_empty() {
        return push_adding(teller, written, request, out);
    }
    push_group(teller, written, "in the way", &way, out)
}

// Appends the lines of the nearest rules to a text.
fn push_nearest(
    teller: Teller,
    written: &WrittenRules<'_>,
    request: &Request<'_>,
    out: &mut Vec<u8>,
) -> Result<(), AllocError>
    ensures { OnOk result (out.new.items ≡ out.old.items ++ nearest_lines teller.form (seen_rules written.now) (request_of request.entry.now)) }
{
    let indexes = near_rules(teller.alloc, written.rules, request)?;
    push_group(teller, written, "nearest rules", &indexes, out)
}

// Appends the lines of the missing and of the nearest rules to a text, where something of the request isn't allowed.
fn push_lacking(
    teller: Teller,
    written: &WrittenRules<'_>,
    request: &Request<'_>,
    lacking: bool,
    out: &mut Vec<u8>,
) -> Result<(), AllocError>
    ensures { OnOk result (out.new.items
        ≡ out.old.items ++ lacking_lines teller.form (seen_rules written.now) (request_of request.entry.now) lacking) }
{
    if !lacking {
        return Ok(());
    }
    push_missing_rules(teller, written, request, out)?;
    push_nearest(teller, written, request, out)
}

/// Appends the rules that allow some of a request's needs to a text, like `push_why`, but without words over them.
///
/// # Errors
///
/// Where memory runs out. A beginning may have been appended then.
pub fn push_allowing(
    teller: Teller,
    written: &WrittenRules<'_>,
    request: &Request<'_>,
    out: &mut Vec<u8>,
) -> Result<(), AllocError>
    ensures { OnOk result (out.new.items ≡ out.old.items ++ allowing_lines teller.form (seen_rules written.now) (request_of request.entry.now)) }
{
    let told = told_rules(teller.alloc, written.rules, request)?;
    let indexes = places_in(teller.alloc, Group::Allowing, &told)?;
    push_lines(teller, written, heading(Group::Allowing), &indexes, out)
}

// Appends the lines of the rules whose effect is logged to a text; none where something of the request isn't allowed.
fn push_auditing(
    teller: Teller,
    written: &WrittenRules<'_>,
    told: &[ToldRule],
    lacking: bool,
    out: &mut Vec<u8>,
) -> Result<(), AllocError>
    ensures { OnOk result (out.new.items ≡ out.old.items ++ auditing_lines teller.form (seen_rules written.now) lacking told.now) }
{
    if lacking {
        return Ok(());
    }
    let denied = is_denied(told);
    push_told_group(teller, written, told, Group::Auditing { denied }, out)
}

// Appends the lines of the rules of each group to a text.
fn push_groups(
    teller: Teller,
    written: &WrittenRules<'_>,
    told: &[ToldRule],
    lacking: bool,
    out: &mut Vec<u8>,
) -> Result<(), AllocError>
    ensures { OnOk result (out.new.items ≡ out.old.items ++ told_lines teller.form (seen_rules written.now) lacking told.now) }
{
    push_told_group(teller, written, told, Group::Denying, out)?;
    push_told_group(teller, written, told, Group::Allowing, out)?;
    push_auditing(teller, written, told, lacking, out)
}

// Appends the lines of the rules that apply to a request to a text.
fn push_applying(
    teller: Teller,
    written: &WrittenRules<'_>,
    request: &Request<'_>,
    lacking: bool,
    out: &mut Vec<u8>,
) -> Result<(), AllocError>
    ensures { OnOk result (out.new.items
        ≡ out.old.items
        ++ told_lines teller.form (seen_rules written.now) lacking (told (audits_of written.now.rules) (request_of request.entry.now) (rules_of written.now.rules))) }
{
    let told = told_rules(teller.alloc, written.rules, request)?;
    push_groups(teller, written, &told, lacking, out)
}

/// Appends the rules that decide the answer to a request to a text: those that deny, that allow, and by which the answer is logged, those that
/// decide under which profile a program runs, where its start is asked for, each group below its words, and, where `lacking` says that something of
/// it isn't allowed, the rule that is missing (`aa_explain_rules::missing_rule`), with the one that is missing where a script is started
/// (`script_rule`), or the rules in the way of it (`rules_in_the_way`), and those that are near. A rule that is in two groups is in both. Each has a
/// line of its own: `base` with the file's name, the line and the column where it is written, and the rule as `show` prints it; one that says where
/// a program goes that no other rule leads is followed by the words that it is by `all`. As records, of the kind `rule`, these are `file`, `line`
/// and `column`, `rule`, and for such a one `made_by`, with the words of the group, `group`, in each and none above; a missing rule, of the kind
/// `missing`, has `rule`, and `for` where it is that of a script.
///
/// # Errors
///
/// Where memory runs out. A beginning may have been appended then.
pub fn push_why(
    teller: Teller,
    written: &WrittenRules<'_>,
    request: &Request<'_>,
    lacking: bool,
    out: &mut Vec<u8>,
) -> Result<(), AllocError>
    ensures { OnOk result (out.new.items ≡ out.old.items ++ why_lines teller.form (seen_rules written.now) (request_of request.entry.now) lacking) }
{
    push_applying(teller, written, request, lacking, out)?;
    push_deciding(teller, written, request, out)?;
    push_lacking(teller, written, request, lacking, out)
}
