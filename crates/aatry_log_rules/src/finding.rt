//! The rule that is missing for a wanted request.

ghost use Rattle.std.specs.Prelude.{◌≡◌, IfOk, is_some};
ghost use Rattle.aa_decide_ready.specs.Slots.{filled};
ghost use Rattle.aa_explain_rules.specs.Asked.{rules_of};
ghost use Rattle.aa_explain_written.specs.Written.{written_rule};
ghost use Rattle.aa_profile_data.specs.SeenRequests.{request_of};
ghost use Rattle.aatry_log_rules.specs.Findings.{finding_in, finding_of, written_finding};
ghost use Rattle.aatry_log_rules.specs.SeenWanted.{seen_wanted};

use crate::asker::rules_by;
use crate::wanted::Wanted;
use aa_decide::IndexedSlots;
use aa_explain_rules::{AskedRules, missing_rule, rules_in_the_way};
use aa_explain_written::written_rule;
use aa_profile_data::{Request, Rule};
use std::alloc::{AllocError, Global};

/// Why there is no rule to add for a request.
#[derive(Clone, Copy)]
pub enum NoRule {
    /// A rule denies something of it.
    Denied,
    /// A rule leads its program elsewhere than the missing one would.
    InTheWay,
    /// The missing rule can't be written in a profile's file.
    Unwritten,
}

/// The finding for a wanted request.
#[derive(Drop)]
pub enum Finding {
    /// The missing rule.
    Missing(Rule),
    /// No rule.
    None(NoRule),
}

// The finding of a rule that is missing, if it can be written.
fn written_finding(alloc: Global, rule: Option<Rule>) -> Result<Finding, AllocError>
    ensures { IfOk result (λ finding. finding ≡ written_finding rule) }
{
    let Some(rule) = rule else {
        return Ok(Finding::None(NoRule::Unwritten));
    };
    if written_rule(alloc, &rule)?.is_some() {
        Ok(Finding::Missing(rule))
    } else {
        Ok(Finding::None(NoRule::Unwritten))
    }
}

// The finding for a request by some rules: the rule that it lacks, unless some are in its way.
fn finding_in(
    alloc: Global,
    rules: AskedRules<'_>,
    request: &Request<'_>,
) -> Result<Finding, AllocError>
    ensures { IfOk result (λ finding. finding ≡ finding_in (rules_of rules.entry) (request_of request.entry.now)) }
{
    if !rules_in_the_way(alloc, rules, request)?.is_empty() {
        return Ok(Finding::None(NoRule::InTheWay));
    }
    let rule = missing_rule(alloc, rules, request)?;
    written_finding(alloc, rule)
}

/// The finding for a wanted request: the rule that it lacks (`aa_explain_rules::missing_rule`), where none is in the way of it (`rules_in_the_way`)
/// and it can be written (`aa_explain_written::written_rule`).
///
/// # Errors
///
/// Where memory runs out.
pub fn finding_of(
    alloc: Global,
    slots: &IndexedSlots<'_>,
    wanted: &Wanted<'_>,
) -> Result<Finding, AllocError>
    ensures { IfOk result (λ finding. finding ≡ finding_of (filled slots.now) (seen_wanted wanted.now)) }
{
    finding_in(alloc, rules_by(slots, wanted.who), &wanted.request)
}
