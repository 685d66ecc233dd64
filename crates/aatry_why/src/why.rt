//! Questions to the policy of a folder, answered with the rules that decide the answer.

ghost use Rattle.std.specs.Prelude.{◌≡◌, ◌++◌, ◌⊎◌, Bool, Ok, IfErr, IfOk, OnOk, map, string_bytes};
ghost use Rattle.aa_decide.specs.SeenExec.{seen_asker};
ghost use Rattle.aa_profile_data.specs.SeenRequests.{request_of};
ghost use Rattle.aa_set_answers.specs.Answers.{who_asks};
ghost use Rattle.aa_set_answers.specs.Askers.{asker};
ghost use Rattle.aa_set_commands.specs.Question.{IsWellFormed, seen_question};
ghost use Rattle.aa_start.specs.Gathering.{texts_of};
ghost use Rattle.aatry_folder.specs.Reports.{failed_by, seen_report};
ghost use Rattle.aatry_folder.specs.declared.fault.Fault.TheVariants as fault;
ghost use Rattle.aatry_policy.specs.Folders.{left_out_note, loaded_in, origins_in, policy_in, seen_folder};
ghost use Rattle.aatry_requests.specs.AskedWords.{AskNothing};
ghost use Rattle.aatry_requests.specs.Questions.{rule_request};
ghost use Rattle.aatry_uncertain.specs.LeftOutHeads.{heads_left_out};
ghost use Rattle.aatry_uncertain.specs.SeenHeads.{all_left_out};
ghost use Rattle.aatry_why.specs.Ends.{IsEndOfWhy};
ghost use Rattle.aatry_why.specs.How.{confinement_of};
ghost use Rattle.aatry_why.specs.Meant.{meant_name};
ghost use Rattle.aatry_why.specs.Sources.{seen_sources};
ghost use Rattle.aatry_why.specs.Why.{IsWhyTold, IsWhyToldBelow, answered_text, asked_text, confined_reasons, has_answer, how_of, reasons, refused_text, replied_text, sources_in};

use crate::asks::push_asks;
use crate::how::push_how;
use crate::meant::meant_name;
use crate::replies::{is_lacking, push_refused, push_reply};
use crate::sources::{Sources, asked_origin, written_by};
use crate::unasked::push_unasked;
use crate::uncertain::push_uncertain;
use aa_decide::{Asker, Confinement};
use aa_profile_data::Request;
use aa_profile_parsing::Language;
use aa_set_answers::{Answered, find_asker};
use aa_set_commands::{Question, Refusal, RefusalKind};
use aa_set_manager::Manager;
use aa_start::FileSystem;
use aatry_arguments::Asking;
use aatry_folder::{Fault, Folders, PolicyFolder, Report, failed_by, policy_below};
use aatry_policy::{LoadedFolder, load_folder};
use aatry_report::Teller;
use aatry_requests::{asked_by, rule_request, who_asks};
use aatry_uncertain::{LeftOutHeads, heads_left_out};
use aatry_why_lines::push_why;
use std::alloc::{AllocError, Global};

// Appends how the answer to the start of a program came about to a text; for any other question, nothing.
fn push_how_of(
    teller: Teller,
    manager: &Manager,
    question: &Question<'_>,
    out: &mut Vec<u8>,
) -> Result<(), AllocError>
    ensures { OnOk result (out.new.items ≡ out.old.items ++ how_of teller.form manager.now.machine.now (seen_question question.entry.now)) }
{
    match question {
        Question::Exec { who, owned, path } => {
            push_how(
                teller,
                &manager.policy_set().slots(),
                who,
                *owned,
                path,
                out,
            )
        }
        _ => Ok(()),
    }
}

// Appends the rules that decide the answer to the asker of a loaded profile to a text; where it is in mode unconfined, that none does.
fn push_confined_reasons(
    teller: Teller,
    sources: &Sources<'_>,
    asker: Asker<'_>,
    request: &Request<'_>,
    lacking: bool,
    out: &mut Vec<u8>,
) -> Result<(), AllocError>
    ensures { OnOk result (out.new.items ≡ out.old.items
        ++ confined_reasons teller.form (seen_sources sources.now) (seen_asker asker.entry) (request_of request.entry.now) lacking
        (confinement_of (seen_asker asker.entry))) }
{
    match asker.entry.confinement(asker.child) {
        Confinement::ByName => push_unasked(teller, out),
        Confinement::Unconfined | Confinement::By { .. } => {
            let written = written_by(sources, asker);
            push_why(teller, &written, request, lacking, out)
        }
    }
}

// Appends the rules that decide the answer to the asker to a text; where it is no one in particular, or doesn't exist, nothing.
fn push_reasons(
    teller: Teller,
    sources: &Sources<'_>,
    manager: &Manager,
    question: &Question<'_>,
    lacking: bool,
    out: &mut Vec<u8>,
) -> Result<(), AllocError>
    ensures { OnOk result (out.new.items ≡ out.old.items
        ++ reasons teller.form (seen_sources sources.now) (asker manager.now.machine.now (who_asks (seen_question question.entry.now)))
        (rule_request (seen_question question.entry.now)) lacking) }
{
    match find_asker(&manager.policy_set().slots(), who_asks(question)) {
        Some(Some(asker)) => push_confined_reasons(
            teller,
            sources,
            asker,
            &rule_request(question),
            lacking,
            out,
        ),
        _ => Ok(()),
    }
}

// Appends the answer to a question to a text, the rules that decide it, and how it came about.
fn push_replied(
    teller: Teller,
    sources: &Sources<'_>,
    manager: &Manager,
    question: &Question<'_>,
    told: &Answered,
    out: &mut Vec<u8>,
) -> Result<(), AllocError>
    ensures { OnOk result (out.new.items ≡ out.old.items
        ++ replied_text teller.form (seen_sources sources.now) manager.now.machine.now (seen_question question.entry.now) (Ok told.now)) }
{
    push_reply(teller, told, out)?;
    push_reasons(
        teller,
        sources,
        manager,
        question,
        is_lacking(told.answer),
        out,
    )?;
    push_how_of(teller, manager, question, out)
}

// Appends why a question is refused to a text, and which loaded name may have been meant, where the asker doesn't exist.
fn push_unanswered(
    teller: Teller,
    manager: &Manager,
    question: &Question<'_>,
    refusal: Refusal,
    out: &mut Vec<u8>,
) -> Result<(), AllocError>
    ensures { OnOk result (out.new.items ≡ out.old.items
        ++ refused_text teller.form refusal (meant_name manager.now.machine.now (who_asks (seen_question question.entry.now)) refusal.refusal)) }
{
    let meant = meant_name(teller.alloc, manager, who_asks(question), refusal.refusal)?;
    push_refused(teller, refusal, &meant, out)
}

/// Appends the answer of a policy set to a question to a text, followed by the rules by which the asker decides, as `why` prints them: those of the
/// loaded profile, child or hat, with where they are written; or that no rule decides, where it is in mode unconfined. Returns whether there is an
/// answer. The question has to be well-formed, like one of `Question::read`.
///
/// # Errors
///
/// Where memory runs out. A beginning may have been appended then.
pub fn push_answer(
    teller: Teller,
    sources: &Sources<'_>,
    manager: &Manager,
    question: &Question<'_>,
    out: &mut Vec<u8>,
) -> Result<bool, AllocError>
    requires { IsWellFormed question.now }
    ensures told { OnOk result (out.new.items ≡ out.old.items
        ++ answered_text teller.form (seen_sources sources.now) manager.now.machine.now (seen_question question.entry.now)) }
    ensures found { IfOk result (λ found. found ≡ has_answer manager.now.machine.now (seen_question question.entry.now)) }
{
    match manager.answered(question) {
        Ok(told) => {
            push_replied(teller, sources, manager, question, &told, out)?;
            Ok(true)
        }
        Err(refusal) => {
            if refusal.refusal == RefusalKind::Memory {
                return Err(AllocError);
            }
            push_unanswered(teller, manager, question, refusal, out)?;
            Ok(false)
        }
    }
}

// Appends the answer of the policy of a loaded folder to a question to a text, with the rules that decide it, and returns whether there is an
// answer. What the policy remembers of the question doesn't change its answers.
fn push_own(
    teller: Teller,
    loaded: &mut LoadedFolder<'_>,
    question: &Question<'_>,
    out: &mut Vec<u8>,
) -> Result<bool, AllocError>
    requires asked { IsWellFormed question.now }
    requires set { loaded.old.policy.manager ≡ loaded_in (seen_folder loaded.old.folder.now) }
    requires origins { loaded.old.policy.origins.items ≡ origins_in (seen_folder loaded.old.folder.now) }
    ensures told { OnOk result (out.new.items ≡ out.old.items
        ++ answered_text teller.form (sources_in (seen_folder loaded.old.folder.now) (seen_question question.entry.now))
        (policy_in (seen_folder loaded.old.folder.now)) (seen_question question.entry.now)) }
    ensures found { IfOk result (λ found. found ≡ has_answer (policy_in (seen_folder loaded.old.folder.now)) (seen_question question.entry.now)) }
    ensures folder { loaded.new.folder.now ≡ loaded.old.folder.now }
    ensures manager { loaded.new.policy.manager ≡ loaded.old.policy.manager }
    ensures places { loaded.new.policy.origins.items ≡ loaded.old.policy.origins.items }
{
    loaded.policy.manager.remember(question);
    let sources = Sources {
        below: loaded.folder.lent(),
        origin: asked_origin(&loaded.policy.origins, question),
    };
    push_answer(teller, &sources, &loaded.policy.manager, question, out)
}

/// Appends the answer of the policy of a loaded folder to a question to a text, with the rules that decide it, followed by the profiles of its files
/// that are left out on which it could depend, as `why` prints them; and returns whether there is an answer. What the policy remembers of the
/// question doesn't change its answers.
///
/// # Errors
///
/// Where memory runs out. A beginning may have been appended then.
pub fn push_asked(
    teller: Teller,
    loaded: &mut LoadedFolder<'_>,
    left_out: &LeftOutHeads<'_>,
    question: &Question<'_>,
    out: &mut Vec<u8>,
) -> Result<bool, AllocError>
    requires asked { IsWellFormed question.now }
    requires set { loaded.old.policy.manager ≡ loaded_in (seen_folder loaded.old.folder.now) }
    requires origins { loaded.old.policy.origins.items ≡ origins_in (seen_folder loaded.old.folder.now) }
    requires base { left_out.now.base.now ≡ (seen_folder loaded.old.folder.now).base }
    requires heads { all_left_out left_out.now.heads.items ≡ heads_left_out (seen_folder loaded.old.folder.now) }
    ensures told { OnOk result (out.new.items
        ≡ out.old.items ++ asked_text teller.form (seen_folder loaded.old.folder.now) (seen_question question.entry.now)) }
    ensures found { IfOk result (λ found. found ≡ has_answer (policy_in (seen_folder loaded.old.folder.now)) (seen_question question.entry.now)) }
    ensures folder { loaded.new.folder.now ≡ loaded.old.folder.now }
    ensures manager { loaded.new.policy.manager ≡ loaded.old.policy.manager }
    ensures places { loaded.new.policy.origins.items ≡ loaded.old.policy.origins.items }
{
    let found = push_own(teller, loaded, question, out)?;
    let slots = loaded.policy.manager.policy_set().slots();
    push_uncertain(teller, &slots, left_out, question, out)?;
    Ok(found)
}

// The report on a folder that was read, by words, with the files that are left out in front, and the notes on them.
fn told_of(teller: Teller, folder: &PolicyFolder<'_>, words: &[String]) -> Result<Report, Fault>
    ensures told { IfOk result (λ report. (found : Bool) × IsWhyTold teller.form teller.verbose (seen_folder folder.now) (map string_bytes words.now) report.text.items found
        × (report.failed ≡ failed_by found)) }
    ensures noted { IfOk result (λ report. report.notes.items ≡ left_out_note (seen_folder folder.now)) }
    ensures fault { IfErr result (λ told. (told ≡ fault.NoMemory) ⊎ ((told ≡ fault.BadQuestion) × AskNothing (map string_bytes words.now))) }
{
    let Some(asked) = asked_by(teller.alloc, words)? else {
        return Err(Fault::BadQuestion);
    };
    let mut report = Report::new(teller.alloc);
    let mut loaded = load_folder(teller, folder, &mut report)?;
    let question = asked.question();
    push_asks(teller, words, &question, &mut report.text)?;
    let left_out = heads_left_out(teller.alloc, &loaded)?;
    let found = push_asked(teller, &mut loaded, &left_out, &question, &mut report.text)?;
    report.failed = failed_by(found);
    Ok(report)
}

/// The answer of the policy of a folder, read by a language, to a question, and the rules that decide it, in a form. The question is that of the
/// words, as after `ask`; or, where they are one word, that of a line of a log (`aatry_requests::asked_by`). The folder is read as by
/// `aatry_folder::policy_below`. First come the files that are left out, where these are reported, and it is noted how many they are
/// (`aatry_policy::load_folder`). For a line of a log the question comes then, in the words in which it could be asked. Then comes the reply that
/// `ask` would have, followed by the rules, each with the place where it is written (`aatry_why_lines`); where something isn't allowed, the rule
/// that is missing and the nearest ones too; and for the start of a program where its transition leads and what may attach to its path. Where the
/// asker is in mode unconfined, it is reported in place of rules that none decides. Where nothing of the name is loaded, the refusal is reported,
/// and one failed; and the loaded name that may have been meant, if one is near. Last come the profiles of files that are left out on which the
/// answer could depend (`push_uncertain`).
///
/// As records, the reply is one of the kind `answer`, with the texts `answer` and `audit`, the line that logs it, which is empty where it isn't
/// logged; and a refusal is one of the kind `refused`, with `number` and `refusal`, and with `near`, the name that may have been meant, where one is
/// near. That no rule decides is one of the kind `mode`, with `mode`. The question of a line of a log is one of the kind `request`, with `question`.
///
/// # Errors
///
/// - `Unreadable` with the first folder or file that can't be read.
/// - `TooMany` where there are more than 65,536 files and folders.
/// - `BadQuestion` where the words make no question.
/// - `NoMemory` where memory ran out.
pub fn why_folder<F: Folders, D: FileSystem>(
    teller: Teller,
    language: Language,
    folders: &F,
    disk: &D,
    asked: Asking,
) -> Result<Report, Fault>
    ensures told { IfOk result (λ report. IsWhyToldBelow teller.form teller.verbose language (F.told folders.now) (D.known disk.now) (string_bytes asked.base)
        (texts_of asked.words) (seen_report report)) }
    ensures fault { IfErr result (IsEndOfWhy (F.told folders.now) (string_bytes asked.base) (texts_of asked.words)) }
{
    let Asking { base, words } = asked;
    let folder = policy_below(teller.alloc, language, folders, disk, base.as_str())?;
    told_of(teller, &folder, &words)
}
