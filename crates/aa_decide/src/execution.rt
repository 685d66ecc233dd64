//! Under which profile a program runs that is started.

ghost use Rattle.std.specs.Prelude.{◌≡◌, IfOk, IfSome, List, None, Option, Some};
ghost use Rattle.std.specs.Option.{option_map};
ghost use Rattle.aa_decide.specs.Exec.{by_choice, carried_out, exec_answer, exec_verdict, led, led_by, led_by_word, missing, own_start};
ghost use Rattle.aa_decide.specs.Exec.{place_of_child, stopped, tag_if, to_child, to_profile, unconfined_start};
ghost use Rattle.aa_decide_ready.specs.Entries.{Loaded};
ghost use Rattle.aa_decide_ready.specs.Slots.{filled};
ghost use Rattle.aa_decide.specs.code.SeenExec.{IsAnswerAnywhere, IsDestinationOf};
ghost use Rattle.aa_decide.specs.SeenExec.{IsAnswer, IsDestination, IsIn, asker_in, seen_asker, seen_to};
ghost use Rattle.aa_decide_rules.specs.declared.verdict.Answer.TheVariants.{Allow};
ghost use Rattle.aa_decide_rules.specs.declared.verdict.Tag.TheVariants.{Audit};
ghost use Rattle.aa_decide_rules.specs.Choices.{choice};
ghost use Rattle.aa_decide_rules.specs.SeenChoices.{seen_choice};

use crate::asker::{Asker, Who, asker_in, under};
use crate::attachment::{attach, attached_child};
use crate::slots::by_full_name;
use crate::stacks::{named_stack, to_stack};
use aa_bytes::SharedBytes;
use aa_decide_ready::{Confinement, IndexedSlots, Ready, ReadySection};
use aa_decide_rules::{
    Answer, ExecChoice, ExecTo, ExecVerdict, Mediation, Tag, Verdict, exec_choice,
};
use aa_profile_data::{Destination, Perms, Transition, child_place};
use std::alloc::{AllocError, Global};

// A verdict on the start of a program.
fn exec_verdict(answer: Answer, tag: Option<Tag>) -> Verdict
    ensures { result ≡ exec_verdict answer tag }
{
    Verdict {
        answer,
        tag,
        mask: Perms::EXEC,
    }
}

// A tag, where it is audited.
fn tag_if(audited: bool, tag: Tag) -> Option<Tag>
    ensures { result ≡ tag_if audited tag }
{
    if audited { Some(tag) } else { None }
}

// The program isn't started.
fn stopped<'a>(answer: Answer, tag: Option<Tag>) -> ExecVerdict<'a>
    ensures { IsAnswerAnywhere result (stopped answer tag) }
{
    ExecVerdict {
        verdict: exec_verdict(answer, tag),
        to: ExecTo::Nowhere,
        scrub: false,
    }
}

// No rule says under which profile to run.
fn missing<'a>(mediation: Mediation) -> ExecVerdict<'a>
    ensures { IsAnswerAnywhere result (missing mediation) }
{
    match mediation {
        Mediation::Enforcing => stopped(Answer::Refuse, Some(Tag::Denied)),
        Mediation::Complaining => ExecVerdict {
            verdict: exec_verdict(Answer::Complain, Some(Tag::Allowed)),
            to: ExecTo::Null,
            scrub: false,
        },
    }
}

// The program runs.
fn started<'a>(audited: bool, to: ExecTo<'a>, scrub: bool) -> ExecVerdict<'a>
    ensures verdict { result.verdict ≡ exec_verdict Allow (tag_if audited Audit) }
    ensures to { result.to ≡ to.entry }
    ensures scrub { result.scrub ≡ scrub }
{
    ExecVerdict {
        verdict: exec_verdict(Answer::Allow, tag_if(audited, Tag::Audit)),
        to,
        scrub,
    }
}

// The profile that attaches to a path.
fn to_attached<'a>(
    alloc: Global,
    slots: &IndexedSlots<'_>,
    path: &[u8],
) -> Result<Option<ExecTo<'a>>, AllocError>
    ensures { IfOk result (λ to. IsDestination slots.now to (to_profile path.now None (filled slots.now))) }
{
    match attach(alloc, slots, path)? {
        None => Ok(None),
        Some(slot) => Ok(Some(ExecTo::Profile { slot, child: None })),
    }
}

// A profile in force: the one that is named, or else the one that attaches to the path.
fn to_profile<'a>(
    alloc: Global,
    slots: &IndexedSlots<'_>,
    path: &[u8],
    target: &Option<SharedBytes>,
) -> Result<Option<ExecTo<'a>>, AllocError>
    ensures { IfOk result (λ to. IsDestination slots.now to (to_profile path.now target.now (filled slots.now))) }
{
    match target {
        None => to_attached(alloc, slots, path),
        Some(name) => Ok(by_full_name(slots, name.as_slice())),
    }
}

// The index of a child or hat: of the one that is named, or else of the child that attaches to the path.
fn place_of_child(
    alloc: Global,
    ready: &Ready,
    path: &[u8],
    target: &Option<SharedBytes>,
) -> Result<Option<usize>, AllocError>
    ensures { IfOk result (λ place. place ≡ place_of_child path.now target.now ready.now) }
{
    match target {
        None => attached_child(alloc, ready, path),
        Some(name) => Ok(child_place(name.as_slice(), ready.profile.children.as_slice())),
    }
}

// A child or hat of the profile that asks.
fn to_child<'a>(
    alloc: Global,
    asker: Asker<'_>,
    path: &[u8],
    target: &Option<SharedBytes>,
) -> Result<Option<ExecTo<'a>>, AllocError>
    ensures { IfOk result (λ to. IsDestinationOf asker.entry to (to_child path.now target.now (seen_asker asker.entry))) }
{
    if asker.child.is_some() {
        return Ok(None);
    }
    match place_of_child(alloc, asker.entry.ready(), path, target)? {
        None => Ok(None),
        Some(place) => Ok(Some(ExecTo::Profile {
            slot: asker.slot,
            child: Some(place),
        })),
    }
}

/// Where a destination leads for an asker who starts the program of a path, with the target of the transition, if that exists (docs/policy.md, "Exec
/// and attachment"): to the profile in force of the target's full name, or else to the one that attaches to the path; to a child or hat of the
/// profile that asks, by its name or else by the path, of which a child has none; to the asker itself; or to no profile. `None` where that doesn't
/// exist. A profile in the result is in a filled slot, and in force unless it is the asker.
///
/// # Errors
///
/// Where memory runs out.
pub fn led<'a>(
    alloc: Global,
    slots: &IndexedSlots<'_>,
    asker: Asker<'_>,
    path: &[u8],
    target: &Option<SharedBytes>,
    destination: Destination,
) -> Result<Option<ExecTo<'a>>, AllocError>
    requires { IsIn slots.now asker }
    ensures { IfOk result (λ to.
        IsDestination slots.now to (led path.now target.now (filled slots.now) (seen_asker asker.entry) destination)) }
{
    match destination {
        Destination::Profile => to_profile(alloc, slots, path, target),
        Destination::Child => to_child(alloc, asker, path, target),
        Destination::Inherit => Ok(Some(under(asker))),
        Destination::Unconfined => Ok(Some(ExecTo::Unconfined)),
    }
}

/// Where the word of a transition leads for an asker who starts the program of a path, if that exists (docs/policy.md, "Exec and attachment"): where
/// the transition names a stack, to that, and else where the word's destination leads ([`led`]). A stack exists where each of its members is in
/// force and, if it is on a base, that exists too: for a word that leads to a profile it is the profile in force that attaches to the path, or else
/// what the word's fallback leads to; for one that leads to a child it is the profile that asks, and there is none where a child or hat asks.
///
/// # Errors
///
/// Where memory runs out.
pub fn led_by_word<'a>(
    alloc: Global,
    slots: &IndexedSlots<'_>,
    asker: Asker<'_>,
    path: &[u8],
    transition: &'a Transition,
) -> Result<Option<ExecTo<'a>>, AllocError>
    requires { IsIn slots.now asker }
    ensures { IfOk result (λ to.
        IsDestination slots.now to (led_by_word path.now (filled slots.now) (seen_asker asker.entry) transition.now)) }
{
    let word = transition.word;
    let destination = word.destination();
    match named_stack(transition) {
        Some(stack) => to_stack(alloc, slots, asker, path, word, stack),
        None => led(alloc, slots, asker, path, &transition.target, destination),
    }
}

// Where a transition leads: where its word does, or else where its fallback does.
fn led_by<'a>(
    alloc: Global,
    slots: &IndexedSlots<'_>,
    asker: Asker<'_>,
    path: &[u8],
    transition: &'a Transition,
) -> Result<Option<ExecTo<'a>>, AllocError>
    requires { IsIn slots.now asker }
    ensures { IfOk result (λ to.
        IsDestination slots.now to (led_by path.now (filled slots.now) (seen_asker asker.entry) transition.now)) }
{
    match led_by_word(alloc, slots, asker, path, transition)? {
        Some(to) => Ok(Some(to)),
        None => match transition.word.fallback() {
            None => Ok(None),
            Some(fallback) => led(alloc, slots, asker, path, &transition.target, fallback),
        },
    }
}

// Carries a transition out.
fn carried_out<'a>(
    alloc: Global,
    slots: &IndexedSlots<'_>,
    asker: Asker<'_>,
    mediation: Mediation,
    path: &[u8],
    transition: &'a Transition,
    audited: bool,
) -> Result<ExecVerdict<'a>, AllocError>
    requires { IsIn slots.now asker }
    ensures { IfOk result (λ found.
        IsAnswer slots.now found
        (carried_out path.now (filled slots.now) (seen_asker asker.entry) mediation transition.now audited)) }
{
    match led_by(alloc, slots, asker, path, transition)? {
        None => Ok(missing(mediation)),
        Some(to) => Ok(started(audited, to, transition.word.scrubs())),
    }
}

/// The answer to the start of the program of a path by a profile, or its child or hat, whose rules are asked, by what these say together of it
/// ([`choice_of`], or `exec_choice` of `aa_decide_rules` where it is known which of them match). [`exec_by`] answers so; this is for who asks for
/// many starts by the same rules, and finds those that match by an automaton that is built once. `mediation` is that of its mode
/// ([`Confinement`]).
///
/// # Errors
///
/// Where memory runs out.
pub fn by_choice<'a>(
    alloc: Global,
    slots: &IndexedSlots<'_>,
    asker: Asker<'_>,
    mediation: Mediation,
    path: &[u8],
    choice: ExecChoice<'a>,
) -> Result<ExecVerdict<'a>, AllocError>
    requires { IsIn slots.now asker }
    ensures { IfOk result (λ found.
        IsAnswer slots.now found
        (by_choice path.now (filled slots.now) (seen_asker asker.entry) mediation (seen_choice choice.entry))) }
{
    match choice {
        ExecChoice::Denied { audited } => Ok(stopped(Answer::Deny, tag_if(audited, Tag::Denied))),
        ExecChoice::Missing => Ok(missing(mediation)),
        ExecChoice::Leading {
            transition,
            audited,
        } => carried_out(alloc, slots, asker, mediation, path, transition, audited),
    }
}

// The answer to an asker that no profile confines.
fn unconfined_start<'a>(
    alloc: Global,
    slots: &IndexedSlots<'_>,
    path: &[u8],
) -> Result<ExecVerdict<'a>, AllocError>
    ensures { IfOk result (λ found. IsAnswer slots.now found (unconfined_start path.now (filled slots.now))) }
{
    match to_attached(alloc, slots, path)? {
        None => Ok(started(false, ExecTo::Unconfined, false)),
        Some(to) => Ok(started(false, to, false)),
    }
}

// The answer to an asker in mode unconfined.
fn own_start<'a>(
    alloc: Global,
    slots: &IndexedSlots<'_>,
    asker: Asker<'_>,
    path: &[u8],
) -> Result<ExecVerdict<'a>, AllocError>
    requires { IsIn slots.now asker }
    ensures { IfOk result (λ found.
        IsAnswer slots.now found (own_start path.now (filled slots.now) (seen_asker asker.entry))) }
{
    match to_attached(alloc, slots, path)? {
        None => Ok(started(false, under(asker), false)),
        Some(to) => Ok(started(false, to, false)),
    }
}

/// What the rules of a profile, or of a child or hat, say together of the start of the program of a path (docs/policy.md, "The start of a program"):
/// that it is denied, where a deny rule with `x` applies; that no rule applies to it; or where it leads, which is the transition of the first rule
/// that dominates. `owned` says whether the task's user owns the file.
///
/// # Errors
///
/// Where memory runs out.
pub fn choice_of<'a>(
    alloc: Global,
    section: ReadySection<'a>,
    owned: bool,
    path: &[u8],
) -> Result<ExecChoice<'a>, AllocError>
    ensures { IfOk result (λ found. seen_choice found ≡ choice section.entry.audit owned path.now section.entry.rules.now) }
{
    let places = section.matching_once(alloc, path)?;
    exec_choice(
        alloc,
        section.audit,
        section.rules,
        places.as_slice(),
        owned,
    )
}

// The answer to an asker with a loaded profile.
fn asked_by<'a>(
    alloc: Global,
    slots: &IndexedSlots<'_>,
    asker: Asker<'a>,
    owned: bool,
    path: &[u8],
) -> Result<ExecVerdict<'a>, AllocError>
    requires { IsIn slots.now asker }
    ensures { IfOk result (λ found.
        IsAnswer slots.now found (exec_answer (filled slots.now) (Some (seen_asker asker.entry)) owned path.now)) }
{
    match asker.entry.confinement(asker.child) {
        Confinement::Unconfined => unconfined_start(alloc, slots, path),
        Confinement::ByName => own_start(alloc, slots, asker, path),
        Confinement::By { section, mediation } => {
            let choice = choice_of(alloc, section, owned, path)?;
            by_choice(alloc, slots, asker, mediation, path, choice)
        }
    }
}

/// Under which profile a program runs that is started by its path, and how that is logged (docs/policy.md, "Exec and attachment").
///
/// Without an asker, for a task that no profile confines, and for a disabled profile: under the profile in force that attaches to the path, or else
/// under none. For a profile, child or hat in mode unconfined, whose rules aren't looked at: under the profile that attaches to the path, or else
/// under the asker. For any other profile in force, by its own rules, or those of its child or hat: `Deny` where a deny rule with `x` applies; by its
/// mode `Refuse` or `Complain`, where no allow rule with an exec word applies; else where the first rule leads that dominates, or else where its
/// fallback leads. A rule may lead to several profiles at once, a stack ([`led_by_word`]), each of which is in force. The rules of a profile that was
/// made ready agree ([`ReadySection::rules_agree`]), and of such rules all that dominate have one transition (`where_agreeing_rules_lead` of
/// `aa_decide_rules`). No program runs under a disabled profile. `owned` says whether the task's user owns the file. The contract speaks of the
/// filled slots in their order, and a profile in the result is in a filled one.
///
/// # Errors
///
/// Where memory runs out.
pub fn exec_by<'a>(
    alloc: Global,
    slots: &IndexedSlots<'_>,
    asker: Option<Asker<'a>>,
    owned: bool,
    path: &[u8],
) -> Result<ExecVerdict<'a>, AllocError>
    requires { IfSome asker (IsIn slots.now) }
    ensures { IfOk result (λ found.
        IsAnswer slots.now found (exec_answer (filled slots.now) (option_map seen_asker asker.entry) owned path.now)) }
{
    match asker {
        None => unconfined_start(alloc, slots, path),
        Some(asker) => asked_by(alloc, slots, asker, owned, path),
    }
}

/// Answers as [`exec_by`], for an asker by slot: a task that no profile confines, and an empty slot, are no asker.
///
/// # Errors
///
/// Where memory runs out.
pub fn exec<'a>(
    alloc: Global,
    slots: &IndexedSlots<'a>,
    who: Who,
    owned: bool,
    path: &[u8],
) -> Result<ExecVerdict<'a>, AllocError>
    ensures { IfOk result (λ found.
        IsAnswer slots.now found (exec_answer (filled slots.now) (asker_in slots.now who) owned path.now)) }
{
    exec_by(alloc, slots, asker_in(slots.as_slice(), who), owned, path)
}
