//! Askers, by the rules that they decide by.

ghost use Rattle.std.specs.Prelude.{◌≡◌, IfOk};
ghost use Rattle.std.specs.Option.{option_map};
ghost use Rattle.aa_decide.specs.SeenExec.{seen_asker};
ghost use Rattle.aa_decide_ready.specs.Slots.{filled};
ghost use Rattle.aa_explain_rules.specs.Asked.{rules_of};
ghost use Rattle.aa_profile_data.specs.SeenRequests.{request_of};
ghost use Rattle.aa_set_answers.specs.Askers.{asker};
ghost use Rattle.aatry_log_rules.specs.Outcomes.{outcome_by, outcome_in, outcome_of, outcome_under, rules_by};

use aa_decide::{Answer, Asker, Confinement, IndexedSlots};
use aa_decide_rules::Mediation;
use aa_explain_rules::AskedRules;
use aa_profile_data::Request;
use aa_set_answers::find_asker;
use std::alloc::{AllocError, Global};

/// The outcome of a request of a log, by the rules of its asker.
#[derive(Clone, Copy)]
pub enum Outcome {
    /// No profile, child or hat of the name is loaded.
    Nobody,
    /// It is allowed, or no rule decides.
    Allowed,
    /// A rule denies something of it.
    Denied,
    /// No rule allows something of it, and none denies anything.
    Lacks,
}

// The outcome of an answer.
fn outcome_of(answer: Answer) -> Outcome
    ensures { result ≡ outcome_of answer }
{
    match answer {
        Answer::Allow => Outcome::Allowed,
        Answer::Deny => Outcome::Denied,
        Answer::Refuse | Answer::Complain => Outcome::Lacks,
    }
}

// The outcome of a request by the asker's rules, as in enforce mode.
fn outcome_by(alloc: Global, asker: Asker<'_>, request: &Request<'_>) -> Result<Outcome, AllocError>
    ensures { IfOk result (λ outcome. outcome ≡ outcome_by (seen_asker asker.entry) (request_of request.entry.now)) }
{
    let section = asker.entry.ready().section(asker.child);
    let verdict = section.decide_once(alloc, Mediation::Enforcing, request)?;
    Ok(outcome_of(verdict.answer))
}

// The outcome of a request by what confines the asker: in mode unconfined no rule decides.
fn outcome_under(
    alloc: Global,
    asker: Asker<'_>,
    request: &Request<'_>,
) -> Result<Outcome, AllocError>
    ensures { IfOk result (λ outcome. outcome ≡ outcome_under (seen_asker asker.entry) (request_of request.entry.now)) }
{
    match asker.entry.confinement(asker.child) {
        Confinement::ByName => Ok(Outcome::Allowed),
        Confinement::Unconfined | Confinement::By { .. } => outcome_by(alloc, asker, request),
    }
}

/// The outcome of a request for the asker, by a full name or as the word `unconfined`, by the rules of the loaded profile, child or hat; whatever
/// its mode is, unless that is `unconfined`, and also where it is disabled.
///
/// # Errors
///
/// Where memory runs out.
pub fn outcome_in(
    alloc: Global,
    slots: &IndexedSlots<'_>,
    who: &[u8],
    request: &Request<'_>,
) -> Result<Outcome, AllocError>
    ensures { IfOk result (λ outcome. outcome ≡ outcome_in (filled slots.now) who.now (request_of request.entry.now)) }
{
    match find_asker(slots, who) {
        None => Ok(Outcome::Nobody),
        Some(None) => Ok(Outcome::Allowed),
        Some(Some(asker)) => outcome_under(alloc, asker, request),
    }
}

/// The rules by which the asker decides; none where nothing of the name is loaded.
pub fn rules_by<'a>(slots: &IndexedSlots<'a>, who: &[u8]) -> AskedRules<'a>
    ensures { rules_of result ≡ rules_by (asker (filled slots.now) who.now) }
{
    match find_asker(slots, who) {
        Some(Some(asker)) => AskedRules::Loaded(asker.entry.ready().section(asker.child)),
        _ => AskedRules::Listed {
            audit: false,
            rules: &[],
        },
    }
}
