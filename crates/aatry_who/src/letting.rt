//! Which profiles, children and hats would let a request through.

ghost use Rattle.std.specs.Prelude.{◌≡◌, ◌∷◌, [], ◌++◌, IfOk, OnOk, option_map};
ghost use Rattle.aa_decide_ready.specs.Slots.{filled};
ghost use Rattle.aa_profile_data.specs.SeenRequests.{request_of};
ghost use Rattle.aa_set_answers.specs.Children.{lines_of_children};
ghost use Rattle.aa_set_commands.specs.Question.{seen_question};
ghost use Rattle.aatry_policy.specs.FolderParts.{seen_folder};
ghost use Rattle.aatry_policy.specs.SeenProfiles.{seen_part};
ghost use Rattle.aatry_who.specs.Letting.{asks_rules, by_rules, child_lines, entry_lines, lets_through};
ghost use Rattle.aatry_who.specs.Letting.{lines_of, named_lines, rule_lines, told_lines, who_lines, written_of};
ghost use Rattle.aatry_who.specs.Sought.{seen_sought};
ghost use Rattle.aatry_why_lines.specs.Written.{seen_rules};

use crate::sought::{Sought, answer_to};
use crate::telling::push_let;
use aa_decide::{Answer, Entry, Request};
use aa_explain_rules::AskedRules;
use aa_profile_data::{Child, Mode};
use aa_set_answers::{Answered, full_name};
use aa_set_commands::{Question, RefusalKind};
use aa_set_manager::PolicySet;
use aatry_policy::{FolderParts, Part, part_of};
use aatry_report::Teller;
use aatry_requests::rule_request;
use aatry_why_lines::{WrittenRules, push_allowing};
use std::alloc::AllocError;

// Whether a request with this answer is let through; where there is no answer, no rule decides, and everything is.
fn lets_through(answer: Option<Answer>) -> bool
    ensures { result ≡ lets_through answer }
{
    match answer {
        None | Some(Answer::Allow | Answer::Complain) => true,
        Some(Answer::Deny | Answer::Refuse) => false,
    }
}

// The rules of a part of a folder, with where they are written.
fn written_of<'a>(folder: &FolderParts<'a>, part: &Part<'a>) -> WrittenRules<'a>
    ensures { seen_rules result ≡ written_of (seen_folder folder.now) (seen_part part.now) }
{
    WrittenRules {
        below: folder.below,
        name: part.file,
        rules: AskedRules::Listed {
            audit: part.section.audit,
            rules: part.section.rules,
        },
        places: part.places,
    }
}

// Whether the rules of a profile, child or hat in a mode decide.
fn asks_rules(mode: Option<Mode>) -> bool
    ensures { result ≡ asks_rules mode }
{
    match mode {
        Some(Mode::Enforce | Mode::Complain) => true,
        Some(Mode::Unconfined) | None => false,
    }
}

// Appends the lines of the rules of a part that allow some of a request's needs to a text, where they decide, if there is a part.
fn push_rules(
    text: &mut Vec<u8>,
    teller: Teller,
    folder: &FolderParts<'_>,
    part: Option<&Part<'_>>,
    request: &Request<'_>,
) -> Result<(), AllocError>
    ensures { OnOk result (text.new.items ≡ text.old.items
        ++ rule_lines teller.form (seen_folder folder.now) (option_map (λ part. seen_part part.now) part.entry) (request_of request.entry.now)) }
{
    let Some(part) = part else {
        return Ok(());
    };
    if !asks_rules(part.section.mode) {
        return Ok(());
    }
    push_allowing(teller, &written_of(folder, part), request, text)
}

// Appends the rules by which a name lets the request through to a text; none, where its mode does.
fn push_by_rules(
    text: &mut Vec<u8>,
    teller: Teller,
    sought: &Sought<'_>,
    name: &[u8],
    answer: Option<Answer>,
) -> Result<(), AllocError>
    ensures { OnOk result (text.new.items ≡ text.old.items ++ by_rules teller.form (seen_sought sought.now) name.now answer) }
{
    match answer {
        Some(Answer::Allow) => {
            let part = part_of(sought.folder.parts, name);
            push_rules(
                text,
                teller,
                sought.folder,
                part,
                &rule_request(sought.question),
            )
        }
        Some(Answer::Complain | Answer::Deny | Answer::Refuse) | None => Ok(()),
    }
}

// Appends a name with its answer to a text, and by which rules, if it lets the request through.
fn push_told(
    text: &mut Vec<u8>,
    teller: Teller,
    sought: &Sought<'_>,
    name: &[u8],
    told: &Answered,
) -> Result<(), AllocError>
    ensures { OnOk result (text.new.items ≡ text.old.items ++ told_lines teller.form (seen_sought sought.now) name.now told.now) }
{
    if !lets_through(told.answer) {
        return Ok(());
    }
    push_let(text, teller, sought, name, told)?;
    push_by_rules(text, teller, sought, name, told.answer)
}

// Appends the lines of a name to a text, by its answer.
fn push_named(
    text: &mut Vec<u8>,
    teller: Teller,
    sought: &Sought<'_>,
    name: &[u8],
) -> Result<(), AllocError>
    ensures { OnOk result (text.new.items ≡ text.old.items ++ named_lines teller.form (seen_sought sought.now) name.now) }
{
    match answer_to(teller.alloc, sought, name) {
        Ok(told) => push_told(text, teller, sought, name, &told),
        Err(refusal) => {
            if refusal.refusal == RefusalKind::Memory {
                return Err(AllocError);
            }
            Ok(())
        }
    }
}

// Appends the lines of a profile, or of its child or hat at an index, to a text.
fn push_lines(
    text: &mut Vec<u8>,
    teller: Teller,
    sought: &Sought<'_>,
    entry: &Entry,
    child: Option<usize>,
) -> Result<(), AllocError>
    ensures { OnOk result (text.new.items ≡ text.old.items ++ lines_of teller.form (seen_sought sought.now) entry.now child) }
{
    let name = full_name(teller.alloc, entry.profile(), child)?;
    push_named(text, teller, sought, &name)
}

// Appends the lines of these children and hats of a profile to a text.
fn push_children(
    text: &mut Vec<u8>,
    teller: Teller,
    sought: &Sought<'_>,
    entry: &Entry,
    children: &[Child],
) -> Result<(), AllocError>
    ensures { OnOk result (text.new.items ≡ text.old.items
        ++ lines_of_children (child_lines teller.form (seen_sought sought.now) entry.now) children.now) }
{
    for (place, _) in children.iter().enumerate() {
        push_lines(text, teller, sought, entry, Some(place))?;
    }
    Ok(())
}

// Appends the lines of a profile, and of its children and hats, to a text.
fn push_entry(
    text: &mut Vec<u8>,
    teller: Teller,
    sought: &Sought<'_>,
    entry: &Entry,
) -> Result<(), AllocError>
    ensures { OnOk result (text.new.items ≡ text.old.items ++ entry_lines teller.form (seen_sought sought.now) entry.now) }
{
    push_lines(text, teller, sought, entry, None)?;
    push_children(
        text,
        teller,
        sought,
        entry,
        entry.profile().children.as_slice(),
    )
}

// Appends the lines of what a slot holds to a text.
fn push_slot(
    text: &mut Vec<u8>,
    teller: Teller,
    sought: &Sought<'_>,
    slot: &Option<Entry>,
) -> Result<(), AllocError>
    ensures { OnOk result (text.new.items ≡ text.old.items ++ who_lines teller.form (seen_sought sought.now) (filled (slot.now ∷ []))) }
{
    match slot {
        None => Ok(()),
        Some(entry) => push_entry(text, teller, sought, entry),
    }
}

// Appends the lines of what slots hold to a text.
fn push_slots(
    text: &mut Vec<u8>,
    teller: Teller,
    sought: &Sought<'_>,
    slots: &[Option<Entry>],
) -> Result<(), AllocError>
    ensures { OnOk result (text.new.items ≡ text.old.items ++ who_lines teller.form (seen_sought sought.now) (filled slots.now)) }
{
    let mut rest = slots;
    while let [slot, behind @ ..] = rest {
        push_slot(text, teller, sought, slot)?;
        rest = behind;
    }
    Ok(())
}

/// The lines of the profiles, children and hats of a policy set that would let a question's request through, whoever its asker: a line for each,
/// with its full name and the answer where it is the asker, as `ask` prints that; and below one that allows it the rules that allow some of the
/// request's needs, as a folder has them of that name (`aatry_why_lines::push_allowing`). One in mode unconfined or disabled has `unconfined`, or
/// under which profile the program runs that it starts: no rule decides, and everything is let through. They are in the order of the set, children
/// and hats after their profile. As records the lines are of the kind `let`, with the members `name` and `answer`, and of a program that is started
/// `leads_to` and `on`; and of the kind `rule`.
///
/// # Errors
///
/// Where memory runs out.
pub fn who_lines(
    teller: Teller,
    folder: &FolderParts<'_>,
    set: &PolicySet<'_>,
    question: &Question<'_>,
) -> Result<Vec<u8>, AllocError>
    ensures { IfOk result (λ lines. lines.items ≡ who_lines teller.form
        (record { folder = seen_folder folder.now; entries = set.now; question = seen_question question.entry.now }) set.now) }
{
    let sought = Sought {
        folder,
        slots: set.slots(),
        question,
    };
    let mut text = Vec::new(teller.alloc);
    push_slots(&mut text, teller, &sought, sought.slots.as_slice())?;
    Ok(text)
}
