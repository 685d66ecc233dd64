//! Where the rules of an asker lead a program that is started.

ghost use Rattle.std.specs.Prelude.{◌≡◌, IfOk, IfSome, option_and_then};
ghost use Rattle.std.specs.Option.{option_map};
ghost use Rattle.aa_decide.specs.Exec.{led, led_by_word};
ghost use Rattle.aa_decide.specs.SeenExec.{IsIn, seen_asker};
ghost use Rattle.aa_decide_rules.specs.SeenChoices.{seen_choice};
ghost use Rattle.aa_decide_ready.specs.Slots.{filled};
ghost use Rattle.aa_profile_data.specs.ExecWords.{row};
ghost use Rattle.aa_explain.specs.Leads.{IsThere, LeadsThere, lead_by, lead_of, seen_destination, seen_lead};
ghost use Rattle.aa_explain_rules.specs.Leading.{chosen_transition};

use aa_bytes::SharedBytes;
use aa_decide::{
    Asker, Confinement, ExecChoice, ExecTo, IndexedSlots, choice_of, led, led_by_word,
};
use aa_profile_data::{Destination, Transition};
use std::alloc::{AllocError, Global};

/// Where the rules of an asker lead a program that is started.
#[derive(Clone, Copy)]
pub struct Lead<'a> {
    /// The transition on which the rules decide together.
    pub transition: &'a Transition,
    /// Where its word leads; `None` where that doesn't exist.
    pub to: Option<ExecTo<'a>>,
    /// Where its fallback leads, which is used where its word leads nowhere; `None` where it has no fallback, or where that doesn't exist either.
    pub fallback: Option<ExecTo<'a>>,
}

// The transition of a choice, if it leads somewhere.
fn chosen_transition<'a>(choice: ExecChoice<'a>) -> Option<&'a Transition>
    ensures { option_map (λ transition. transition.now) result ≡ chosen_transition (seen_choice choice.entry) }
{
    match choice {
        ExecChoice::Denied { .. } => None,
        ExecChoice::Missing => None,
        ExecChoice::Leading { transition, .. } => Some(transition),
    }
}

// Where the word of a transition leads for an asker, if that exists.
fn word_of<'a>(
    alloc: Global,
    slots: &IndexedSlots<'_>,
    asker: Asker<'_>,
    path: &[u8],
    transition: &'a Transition,
) -> Result<Option<ExecTo<'a>>, AllocError>
    requires { IsIn slots.now asker }
    ensures to { IfOk result (λ to.
        seen_destination slots.now to ≡ led_by_word path.now (filled slots.now) (seen_asker asker.entry) transition.now) }
    ensures there { IfOk result (IsThere slots.now) }
{
    led_by_word(alloc, slots, asker, path, transition)
}

// Where a destination leads for an asker, if that exists.
fn destination_of<'a>(
    alloc: Global,
    slots: &IndexedSlots<'_>,
    asker: Asker<'_>,
    path: &[u8],
    target: &Option<SharedBytes>,
    destination: Destination,
) -> Result<Option<ExecTo<'a>>, AllocError>
    requires { IsIn slots.now asker }
    ensures to { IfOk result (λ to.
        seen_destination slots.now to ≡ led path.now target.now (filled slots.now) (seen_asker asker.entry) destination) }
    ensures there { IfOk result (IsThere slots.now) }
{
    led(alloc, slots, asker, path, target, destination)
}

// Where the fallback of a transition leads, if it has one.
fn fallback_of<'a>(
    alloc: Global,
    slots: &IndexedSlots<'_>,
    asker: Asker<'_>,
    path: &[u8],
    transition: &Transition,
) -> Result<Option<ExecTo<'a>>, AllocError>
    requires { IsIn slots.now asker }
    ensures to { IfOk result (λ to.
        seen_destination slots.now to
        ≡ option_and_then (led path.now transition.now.target (filled slots.now) (seen_asker asker.entry)) (row transition.now.word).fallback) }
    ensures there { IfOk result (IsThere slots.now) }
{
    match transition.word.fallback() {
        None => Ok(None),
        Some(fallback) => destination_of(alloc, slots, asker, path, &transition.target, fallback),
    }
}

// Where a transition leads for an asker.
fn lead_by<'a>(
    alloc: Global,
    slots: &IndexedSlots<'_>,
    asker: Asker<'_>,
    path: &[u8],
    transition: &'a Transition,
) -> Result<Lead<'a>, AllocError>
    requires { IsIn slots.now asker }
    ensures lead { IfOk result (λ found. seen_lead slots.now found ≡ lead_by path.now (filled slots.now) (seen_asker asker.entry) transition.now) }
    ensures there { IfOk result (LeadsThere slots.now) }
{
    let to = word_of(alloc, slots, asker, path, transition)?;
    let fallback = fallback_of(alloc, slots, asker, path, transition)?;
    Ok(Lead {
        transition,
        to,
        fallback,
    })
}

// Where a transition leads for an asker, if there is one.
fn led_by<'a>(
    alloc: Global,
    slots: &IndexedSlots<'_>,
    asker: Asker<'_>,
    path: &[u8],
    transition: Option<&'a Transition>,
) -> Result<Option<Lead<'a>>, AllocError>
    requires { IsIn slots.now asker }
    ensures lead { IfOk result (λ found.
        option_map (seen_lead slots.now) found
        ≡ option_map (lead_by path.now (filled slots.now) (seen_asker asker.entry)) (option_map (λ transition. transition.now) transition.entry)) }
    ensures there { IfOk result (λ found. IfSome found (LeadsThere slots.now)) }
{
    match transition {
        None => Ok(None),
        Some(transition) => Ok(Some(lead_by(alloc, slots, asker, path, transition)?)),
    }
}

/// Where the rules of an asker lead the program of a path that is started (docs/policy.md, "The start of a program"): the transition on which they
/// decide together, where its word leads, and where its fallback does, as `aa_decide::exec_by` uses them. `None` where a deny rule with `x` applies,
/// where no rule says where to go, and where no rule is looked at: where nothing confines the asker, and in mode unconfined. `owned` says whether
/// the task's user owns the file. The contract speaks of the filled slots in their order, and a profile in the result is in a filled one.
///
/// # Errors
///
/// Where memory runs out.
pub fn lead_of<'a>(
    alloc: Global,
    slots: &IndexedSlots<'_>,
    asker: Asker<'a>,
    owned: bool,
    path: &[u8],
) -> Result<Option<Lead<'a>>, AllocError>
    requires { IsIn slots.now asker }
    ensures lead { IfOk result (λ found.
        option_map (seen_lead slots.now) found ≡ lead_of owned path.now (filled slots.now) (seen_asker asker.entry)) }
    ensures there { IfOk result (λ found. IfSome found (LeadsThere slots.now)) }
{
    match asker.entry.confinement(asker.child) {
        Confinement::Unconfined => Ok(None),
        Confinement::ByName => Ok(None),
        Confinement::By { section, .. } => {
            let choice = choice_of(alloc, section, owned, path)?;
            led_by(alloc, slots, asker, path, chosen_transition(choice))
        }
    }
}
