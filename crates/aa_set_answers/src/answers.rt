//! Answers to questions, and the lines of the replies to questions and to `show`.

ghost use Rattle.std.specs.Prelude.{◌≡◌, ◌++◌, [], codes, None, Some, Ok, IfOk, IfErr, OnOk, false};
ghost use Rattle.aa_set_commands.specs.Question.{OfAccess, OfExec};
ghost use Rattle.aa_set_commands.specs.Refusal.{IsRefusalOf, plain};
ghost use Rattle.aa_set_commands.specs.declared.refusal.RefusalKind.TheVariants.{Memory};
ghost use Rattle.aa_decide_ready.specs.Slots.{filled};
ghost use Rattle.aa_decide_ready.specs.Confinement.{found};
ghost use Rattle.aa_profile_data.specs.SeenRequests.{request_of};
ghost use Rattle.aa_decide_rules.specs.LogLines.{exec_line};
ghost use Rattle.aa_set_answers.specs.Answers.{answered, asks_absent, confined_told, lines_of, told_verdict};
ghost use Rattle.aa_set_answers.specs.Answers.{scrub_text, shown, shows_absent, stack_text, unconfined_text, under_text};
ghost use Rattle.aa_set_answers.specs.code.SeenTexts.{seen_stack_text, seen_text};
ghost use Rattle.aa_profile_data.specs.Stacks.{parts_of};
ghost use Rattle.std.specs.Option.{option_copied};

use crate::asker::{confinement, find_asker};
use crate::names::full_name;
use crate::show::show_lines;
use crate::stacks::stack_name;
use aa_bytes::{Sequence, push_text};
use aa_decide::{
    Answer, Confinement, ExecTo, ExecVerdict, IndexedSlots, Request, StackBase, Verdict, entry_at,
    exec_by, exec_line, find_loaded, log_line,
};
use aa_profile_data::Profile;
use aa_set_commands::{Refusal, RefusalKind, plain};
use std::alloc::{AllocError, Global};

/// The answer to a question.
#[derive(Drop)]
pub struct Answered {
    /// The answer of the verdict; `None` where the asker is unconfined, or confined by its name alone, and asks for something other than the start
    /// of a program.
    pub answer: Option<Answer>,
    /// The text of the answer, one line without its line feed: the answer's word, `unconfined`, or under which profile a program runs that is
    /// started.
    pub text: Sequence<u8>,
    /// The audit line, with its line feed; empty where nothing is logged.
    pub logged: Sequence<u8>,
}

// The answer to any request where no rule is looked at.
fn unconfined(alloc: Global) -> Result<Answered, AllocError>
    ensures { IfOk result (λ told. told ≡ record { answer = None; text = codes "unconfined"; logged = [] }) }
{
    Ok(Answered {
        answer: None,
        text: Sequence::from_vec(Vec::from_slice(alloc, b"unconfined")?),
        logged: Sequence::from_vec(Vec::new(alloc)),
    })
}

// The answer to a request by its verdict.
fn told_verdict(
    alloc: Global,
    who: &[u8],
    request: &Request<'_>,
    verdict: &Verdict,
) -> Result<Answered, AllocError>
    ensures { IfOk result (λ told. told ≡ told_verdict who.now (request_of request.entry.now) (Some verdict.now)) }
{
    let text = Vec::from_slice(alloc, verdict.answer.word().as_bytes())?;
    let logged = log_line(alloc, who, request, verdict)?;
    Ok(Answered {
        answer: Some(verdict.answer),
        text: Sequence::from_vec(text),
        logged: Sequence::from_vec(logged),
    })
}

// The answer to a request by what confines the asker.
fn confined_told(
    alloc: Global,
    who: &[u8],
    request: &Request<'_>,
    confinement: Confinement<'_>,
) -> Result<Answered, AllocError>
    ensures { IfOk result (λ told. told ≡ confined_told who.now (request_of request.entry.now) (found confinement.entry)) }
{
    match confinement {
        Confinement::Unconfined => unconfined(alloc),
        Confinement::ByName => unconfined(alloc),
        Confinement::By { section, mediation } => {
            let verdict = section.decide_once(alloc, mediation, request)?;
            told_verdict(alloc, who, request, &verdict)
        }
    }
}

/// The answer to a request of an asker by this full name, or by the word `unconfined`.
///
/// # Errors
///
/// `Absent` where no profile, child or hat of the full name is loaded, which is found without allocating, and `Memory` where memory ran out.
pub fn access_answer(
    alloc: Global,
    slots: &IndexedSlots<'_>,
    who: &[u8],
    request: &Request<'_>,
) -> Result<Answered, Refusal>
    ensures answered { IfOk result (λ told. answered (filled slots.now) (OfAccess who.now (request_of request.entry.now)) ≡ Ok told) }
    ensures refused { IfErr result (IsRefusalOf (answered (filled slots.now) (OfAccess who.now (request_of request.entry.now)))) }
    ensures memory { IfErr result (λ refusal.
        refusal ≡ plain Memory → asks_absent (filled slots.now) (OfAccess who.now (request_of request.entry.now)) ≡ false) }
{
    let Some(asker) = find_asker(slots, who) else {
        return Err(plain(RefusalKind::Absent));
    };
    Ok(confined_told(alloc, who, request, confinement(asker))?)
}

// Appends ` scrub` to a text, if a program's environment is scrubbed.
fn push_scrub(text: &mut Vec<u8>, scrub: bool) -> Result<(), AllocError>
    ensures { OnOk result (text.new.items ≡ text.old.items ++ scrub_text scrub) }
{
    if scrub {
        text.extend_from_slice(b" scrub")?;
    }
    Ok(())
}

// The text for a program that runs under a profile, or a child or hat of it.
fn under_text(
    alloc: Global,
    profile: &Profile,
    child: Option<usize>,
    scrub: bool,
) -> Result<Vec<u8>, AllocError>
    ensures { IfOk result (λ text. text.items ≡ under_text profile.now child scrub) }
{
    let name = full_name(alloc, profile, child)?;
    let mut text = Vec::from_slice(alloc, b"allow to ")?;
    push_text(&mut text, name.as_slice())?;
    push_scrub(&mut text, scrub)?;
    Ok(text)
}

// The text for a program that runs under a stack of these members, on a base of this name, if it has one.
fn stack_text(
    alloc: Global,
    base: Option<&[u8]>,
    members: &[u8],
    scrub: bool,
) -> Result<Vec<u8>, AllocError>
    ensures { IfOk result (λ text. text.items ≡ stack_text (option_copied base.entry) (parts_of members.now) scrub) }
{
    let name = stack_name(alloc, base, members)?;
    let mut text = Vec::from_slice(alloc, b"allow to ")?;
    push_text(&mut text, name.as_slice())?;
    push_scrub(&mut text, scrub)?;
    Ok(text)
}

// The text for a program that runs under a stack on a base by slot; empty where the base's slot isn't filled.
fn based_text(
    alloc: Global,
    slots: &IndexedSlots<'_>,
    base: StackBase,
    members: &[u8],
    scrub: bool,
) -> Result<Vec<u8>, AllocError>
    ensures { IfOk result (λ text. text.items ≡ seen_stack_text slots.now (Some base) (parts_of members.now) scrub) }
{
    match base {
        StackBase::Unconfined => stack_text(alloc, Some(b"unconfined".as_slice()), members, scrub),
        StackBase::Profile { slot, child } => match entry_at(slots.as_slice(), slot) {
            None => Ok(Vec::new(alloc)),
            Some(entry) => {
                let name = full_name(alloc, entry.profile(), child)?;
                stack_text(alloc, Some(name.as_slice()), members, scrub)
            }
        },
    }
}

// The text for a program that runs under a stack.
fn stacked_text(
    alloc: Global,
    slots: &IndexedSlots<'_>,
    base: Option<StackBase>,
    members: &[u8],
    scrub: bool,
) -> Result<Vec<u8>, AllocError>
    ensures { IfOk result (λ text. text.items ≡ seen_stack_text slots.now base (parts_of members.now) scrub) }
{
    match base {
        None => stack_text(alloc, None, members, scrub),
        Some(base) => based_text(alloc, slots, base, members, scrub),
    }
}

// The text for a program that runs under no profile.
fn unconfined_text(alloc: Global, scrub: bool) -> Result<Vec<u8>, AllocError>
    ensures { IfOk result (λ text. text.items ≡ unconfined_text scrub) }
{
    let mut text = Vec::from_slice(alloc, b"allow unconfined")?;
    push_scrub(&mut text, scrub)?;
    Ok(text)
}

// The text for the start of a program, by its verdict.
fn started_text(
    alloc: Global,
    slots: &IndexedSlots<'_>,
    verdict: &ExecVerdict<'_>,
) -> Result<Vec<u8>, AllocError>
    ensures { IfOk result (λ text. text.items ≡ seen_text slots.now verdict.now) }
{
    match verdict.to {
        ExecTo::Profile { slot, child } => match entry_at(slots.as_slice(), slot) {
            None => Ok(Vec::new(alloc)),
            Some(entry) => under_text(alloc, entry.profile(), child, verdict.scrub),
        },
        ExecTo::Unconfined => unconfined_text(alloc, verdict.scrub),
        ExecTo::Stack { base, members } => {
            stacked_text(alloc, slots, base, members, verdict.scrub)
        }
        ExecTo::Null => Vec::from_slice(alloc, b"complain null"),
        ExecTo::Nowhere => Vec::from_slice(alloc, verdict.verdict.answer.word().as_bytes()),
    }
}

// The answer to the start of the program of a path, by its verdict.
fn exec_told(
    alloc: Global,
    slots: &IndexedSlots<'_>,
    who: &[u8],
    path: &[u8],
    verdict: &ExecVerdict<'_>,
) -> Result<Answered, AllocError>
    ensures { IfOk result (λ told. told ≡ record {
      answer = Some verdict.now.verdict.answer;
      text = seen_text slots.now verdict.now;
      logged = exec_line who.now path.now verdict.now.verdict;
    }) }
{
    let text = started_text(alloc, slots, verdict)?;
    let logged = exec_line(alloc, who, path, verdict)?;
    Ok(Answered {
        answer: Some(verdict.verdict.answer),
        text: Sequence::from_vec(text),
        logged: Sequence::from_vec(logged),
    })
}

/// The answer to the start of the program of a path, for an asker by this full name, or by the word `unconfined`.
///
/// # Errors
///
/// `Absent` where no profile, child or hat of the full name is loaded, which is found without allocating, and `Memory` where memory ran out.
pub fn exec_answer(
    alloc: Global,
    slots: &IndexedSlots<'_>,
    who: &[u8],
    owned: bool,
    path: &[u8],
) -> Result<Answered, Refusal>
    ensures answered { IfOk result (λ told. answered (filled slots.now) (OfExec who.now owned path.now) ≡ Ok told) }
    ensures refused { IfErr result (IsRefusalOf (answered (filled slots.now) (OfExec who.now owned path.now))) }
    ensures memory { IfErr result (λ refusal. refusal ≡ plain Memory → asks_absent (filled slots.now) (OfExec who.now owned path.now) ≡ false) }
{
    let Some(asker) = find_asker(slots, who) else {
        return Err(plain(RefusalKind::Absent));
    };
    let verdict = exec_by(alloc, slots, asker, owned, path)?;
    Ok(exec_told(alloc, slots, who, path, &verdict)?)
}

/// The lines of the reply for an answer, each with its line feed: its text, followed by the audit line, where it is logged.
///
/// # Errors
///
/// Where memory runs out.
pub fn lines_of(alloc: Global, told: &Answered) -> Result<Vec<u8>, AllocError>
    ensures { IfOk result (λ lines. lines.items ≡ lines_of told.now) }
{
    let (text, logged) = (told.text.as_slice(), told.logged.as_slice());
    let size = text.len().saturating_add(1).saturating_add(logged.len());
    let mut lines = Vec::with_capacity(alloc, size)?;
    lines.extend_from_slice(text)?;
    lines.push(b'\n')?;
    lines.extend_from_slice(logged)?;
    Ok(lines)
}

/// The lines of the reply to `show NAME`: what the profile, child or hat of this full name has (docs/commands.md, "What is loaded").
///
/// # Errors
///
/// `Absent` where no profile, child or hat of the full name is loaded, which is found without allocating, and `Memory` where memory ran out.
pub fn shown_lines(alloc: Global, slots: &IndexedSlots<'_>, name: &[u8]) -> Result<Vec<u8>, Refusal>
    ensures answered { IfOk result (λ lines. shown (filled slots.now) name.now ≡ Ok lines.items) }
    ensures refused { IfErr result (IsRefusalOf (shown (filled slots.now) name.now)) }
    ensures memory { IfErr result (λ refusal. refusal ≡ plain Memory → shows_absent (filled slots.now) name.now ≡ false) }
{
    let Some(named) = find_loaded(slots, name) else {
        return Err(plain(RefusalKind::Absent));
    };
    Ok(show_lines(alloc, named.entry, named.child)?)
}
