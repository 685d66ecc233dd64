//! The rules of a policy set that the requests of logs want.

ghost use Rattle.std.specs.Prelude.{◌≡◌, ◌≤◌, ◌<◌, ◌-◌, ◌^◌, ◌+◌, IfOk, OnOk};
ghost use Rattle.aa_decide_ready.specs.Slots.{filled};
ghost use Rattle.aatry_log_rules.specs.Gathered.{IsGathered, nothing, seen_wants, wanted_of, with_outcome, with_tally};
ghost use Rattle.aatry_log_rules.specs.SeenWanted.{seen_wanted};
ghost use Rattle.aatry_requests.specs.SeenTallies.{seen_tally};

use crate::asker::{Outcome, outcome_in};
use crate::wanted::{Wanted, WantedRules};
use aa_decide::IndexedSlots;
use aatry_requests::{Tallies, Tally, most_asked_first, rule_request, who_asks};
use std::alloc::{AllocError, Global};

/// The rules of a policy set that requests want.
#[derive(Drop)]
pub struct RuleWants<'t, 'a> {
    /// The requests that lack something, for which rules are wanted.
    pub wanted: WantedRules<'t>,
    /// The requests of which a rule denies something.
    pub denied: Vec<&'t Tally<'a>>,
    /// How many requests have an asker that isn't loaded.
    pub nobody: usize,
}

// The wanted request of a tally.
fn wanted_of<'t>(tally: &'t Tally<'_>) -> Wanted<'t>
    ensures { seen_wanted result ≡ wanted_of (seen_tally tally.now) }
{
    let question = tally.question.question();
    Wanted {
        who: who_asks(&question),
        request: rule_request(&question),
        times: tally.times,
    }
}

impl<'t, 'a> RuleWants<'t, 'a> {
    // No requests.
    fn new(alloc: Global) -> RuleWants<'t, 'a>
        ensures { seen_wants result ≡ nothing }
    {
        RuleWants {
            wanted: WantedRules::new(alloc),
            denied: Vec::new(alloc),
            nobody: 0,
        }
    }

    // Notes the outcome of a tally.
    fn note(
        &mut self,
        alloc: Global,
        outcome: Outcome,
        tally: &'t Tally<'a>,
    ) -> Result<(), AllocError>
        requires { self.old.nobody < 2 ^ 64 - 1 }
        ensures noted { OnOk result (seen_wants self.new ≡ with_outcome (seen_tally tally.now) (seen_wants self.old) outcome) }
        ensures few { OnOk result (self.new.nobody ≤ self.old.nobody + 1) }
    {
        match outcome {
            Outcome::Allowed => Ok(()),
            Outcome::Nobody => {
                self.nobody += 1;
                Ok(())
            }
            Outcome::Denied => {
                self.denied.push(tally)?;
                Ok(())
            }
            Outcome::Lacks => self.wanted.want(alloc, wanted_of(tally)),
        }
    }

    // Asks a policy set by a tally, and notes the outcome.
    fn ask(
        &mut self,
        alloc: Global,
        slots: &IndexedSlots<'_>,
        tally: &'t Tally<'a>,
    ) -> Result<(), AllocError>
        requires { self.old.nobody < 2 ^ 64 - 1 }
        ensures noted { OnOk result (seen_wants self.new ≡ with_tally (filled slots.now) (seen_wants self.old) (seen_tally tally.now)) }
        ensures few { OnOk result (self.new.nobody ≤ self.old.nobody + 1) }
    {
        let wanted = wanted_of(tally);
        let outcome = outcome_in(alloc, slots, wanted.who, &wanted.request)?;
        self.note(alloc, outcome, tally)
    }
}

/// The rules of a policy set that the requests of logs want, the most frequent first.
///
/// # Errors
///
/// Where memory runs out.
pub fn gather_wants<'t, 'a>(
    alloc: Global,
    slots: &IndexedSlots<'_>,
    tallies: &'t Tallies<'a>,
) -> Result<RuleWants<'t, 'a>, AllocError>
    ensures { IfOk result (λ wants. IsGathered (filled slots.now) tallies.now (seen_wants wants)) }
{
    let mut wants = RuleWants::new(alloc);
    let told = most_asked_first(alloc, tallies)?;
    for tally in told {
        wants.ask(alloc, slots, tally)?;
    }
    Ok(wants)
}
