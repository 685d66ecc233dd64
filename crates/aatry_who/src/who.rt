//! Which profiles would let a request through by the policy of a folder.

ghost use Rattle.std.specs.Prelude.{◌≡◌, ◌++◌, ◌⊎◌, Bool, IfErr, IfOk, OnOk, map, string_bytes};
ghost use Rattle.aa_set_commands.specs.Question.{seen_question};
ghost use Rattle.aa_start.specs.Gathering.{texts_of};
ghost use Rattle.aatry_folder.specs.Reports.{failed_by, seen_report};
ghost use Rattle.aatry_folder.specs.declared.fault.Fault.TheVariants as fault;
ghost use Rattle.aatry_policy.specs.Folders.{left_out_note, loaded_in, origins_in, outcomes_in, seen_folder};
ghost use Rattle.aatry_requests.specs.AskedWords.{AskNothing, letting_words};
ghost use Rattle.aatry_who.specs.Ends.{IsEndOfWho};
ghost use Rattle.aatry_who.specs.Unsure.{unsure_in};
ghost use Rattle.aatry_who.specs.Who.{IsWhoTold, IsWhoToldBelow, is_let, let_by};

use crate::letting::who_lines;
use crate::unsure::push_unsure_in;
use aa_profile_parsing::Language;
use aa_set_commands::Question;
use aa_start::FileSystem;
use aatry_arguments::Asking;
use aatry_folder::{Fault, Folders, PolicyFolder, Report, failed_by, policy_below};
use aatry_policy::{LoadedFolder, by_parts, load_folder, parts_of};
use aatry_report::Teller;
use aatry_requests::letting_question;
use std::alloc::AllocError;

// Whether a text has a name.
fn is_let(text: &[u8]) -> bool
    ensures { result ≡ is_let text.now }
{
    !text.is_empty()
}

// The names that let a question's request through, and by which rules, by the policy of a loaded folder.
fn let_by(
    teller: Teller,
    loaded: &LoadedFolder<'_>,
    question: &Question<'_>,
) -> Result<Vec<u8>, AllocError>
    requires set { loaded.now.policy.manager ≡ loaded_in (seen_folder loaded.now.folder.now) }
    requires origins { loaded.now.policy.origins.items ≡ origins_in (seen_folder loaded.now.folder.now) }
    ensures { IfOk result (λ lines. lines.items ≡ let_by teller.form (seen_folder loaded.now.folder.now) (seen_question question.entry.now)) }
{
    let set = loaded.policy.manager.policy_set();
    let parts = parts_of(teller.alloc, &set, &loaded.policy.origins)?;
    who_lines(teller, &by_parts(loaded.folder, &parts), &set, question)
}

// Appends the names that let a question's request through to a text, and those of which it isn't known; returns whether there is one that does.
fn push_let_by(
    teller: Teller,
    loaded: &LoadedFolder<'_>,
    question: &Question<'_>,
    out: &mut Vec<u8>,
) -> Result<bool, AllocError>
    requires set { loaded.now.policy.manager ≡ loaded_in (seen_folder loaded.now.folder.now) }
    requires outcomes { loaded.now.policy.outcomes.items ≡ outcomes_in (seen_folder loaded.now.folder.now) }
    requires origins { loaded.now.policy.origins.items ≡ origins_in (seen_folder loaded.now.folder.now) }
    ensures told { OnOk result (out.new.items ≡ out.old.items ++ let_by teller.form (seen_folder loaded.now.folder.now) (seen_question question.entry.now)
        ++ unsure_in teller.form (seen_folder loaded.now.folder.now)) }
    ensures found { IfOk result (λ found. found ≡ is_let (let_by teller.form (seen_folder loaded.now.folder.now) (seen_question question.entry.now))) }
{
    let own = let_by(teller, loaded, question)?;
    out.extend_from_slice(&own)?;
    push_unsure_in(teller, loaded, out)?;
    Ok(is_let(&own))
}

// The report on a folder that was read, by words, with the files that are left out in front, and the notes on them.
fn told_of(teller: Teller, folder: &PolicyFolder<'_>, words: &[String]) -> Result<Report, Fault>
    ensures told { IfOk result (λ report. (found : Bool) × IsWhoTold teller.form teller.verbose (seen_folder folder.now) (map string_bytes words.now) report.text.items found
        × (report.failed ≡ failed_by found)) }
    ensures noted { IfOk result (λ report. report.notes.items ≡ left_out_note (seen_folder folder.now)) }
    ensures fault { IfErr result (λ told. (told ≡ fault.NoMemory)
        ⊎ ((told ≡ fault.BadQuestion) × AskNothing (letting_words (map string_bytes words.now)))) }
{
    let Some(question) = letting_question(teller.alloc, words)? else {
        return Err(Fault::BadQuestion);
    };
    let mut report = Report::new(teller.alloc);
    let loaded = load_folder(teller, folder, &mut report)?;
    let found = push_let_by(teller, &loaded, &question, &mut report.text)?;
    report.failed = failed_by(found);
    Ok(report)
}

/// Which profiles, children and hats of a folder, read by a language, would let a question's request through, in a form. The words are those of the
/// question without the asker (`aatry_requests::letting_question`). The folder is read as by `aatry_folder::policy_below`. First come the files that
/// are left out, where these are reported, and it is noted how many they are (`aatry_policy::load_folder`). Then comes a line for each, with its
/// full name and the answer where it is the asker: `allow` or, in complain mode, `complain`, and for the start of a program under which profile that
/// runs, or `complain null`; and below one that allows it the rules that allow some of the request's needs (`aatry_why_lines::push_allowing`). Where
/// one is in mode unconfined, none of its rules decides, and everything is let through: it has `unconfined`, or likewise under which profile the
/// program runs. They are in the order of the set, children and hats after their profile. One failed where there is none. Last come the profiles of
/// files that are left out, of which it isn't known whether they would let the request through (`push_unsure_in`).
///
/// As records the lines are of the kind `let`, with the members `name` and `answer`, and of a program that is started with the full name under which
/// it runs, or the word, `leads_to`, and the base of the stack that this is, `on`, if it has one; and of the kind `rule`.
///
/// # Errors
///
/// - `Unreadable` with the first folder or file that can't be read.
/// - `TooMany` where there are more than 65,536 files and folders.
/// - `BadQuestion` where the words make no question.
/// - `NoMemory` where memory ran out.
pub fn who_folder<F: Folders, D: FileSystem>(
    teller: Teller,
    language: Language,
    folders: &F,
    disk: &D,
    asked: Asking,
) -> Result<Report, Fault>
    ensures told { IfOk result (λ report. IsWhoToldBelow teller.form teller.verbose language (F.told folders.now) (D.known disk.now) (string_bytes asked.base)
        (texts_of asked.words) (seen_report report)) }
    ensures fault { IfErr result (IsEndOfWho (F.told folders.now) (string_bytes asked.base) (texts_of asked.words)) }
{
    let Asking { base, words } = asked;
    let folder = policy_below(teller.alloc, language, folders, disk, base.as_str())?;
    told_of(teller, &folder, &words)
}
