//! A session over a folder of policy: lines of an input, answered as they come.

ghost use Rattle.std.specs.Prelude.{◌≡◌, ◌≤◌, ◌+◌, ◌*◌, ◌^◌, ◌++◌, ℕ, List, [], true, false, IfErr, IfOk, IsErrOf, OnErr, OnOk, map, string_bytes};
ghost use Rattle.std.specs.Io.KnownBytes.{Appends};
ghost use Rattle.aa_profile.specs.FileReading.{file_profiles_in};
ghost use Rattle.aatry_folder.specs.Loadings.{seen_top};
ghost use Rattle.aatry_policy.specs.Policies.{profile_names};
ghost use Rattle.aatry_session.specs.Switching.{all_switched};
ghost use Rattle.aa_set_commands.specs.Question.{IsWellFormed, seen_question};
ghost use Rattle.aa_set_commands.specs.Streams.{AppendsFront};
ghost use Rattle.aatry_why.specs.Why.{answered_text};
ghost use Rattle.aatry_why.specs.Sources.{seen_sources};
ghost use Rattle.aatry_folder.specs.Unread.{IsOfFolder};
ghost use Rattle.aatry_session_run.specs.Ends.{IsEndOfSession};
ghost use Rattle.aatry_folder.specs.declared.fault.Fault.TheVariants as fault;
ghost use Rattle.aatry_session_run.specs.Broken.{IsBrokenRun, IsBrokenSession, IsBrokenStep};
ghost use Rattle.aatry_logs.specs.OpenedInputs.{most_reads};
ghost use Rattle.aatry_session_run.specs.Session.{goes_on, is_taken, left_out_line, loading_text, settled, sources_of};
ghost use Rattle.aatry_session_run.specs.Session.{IsLastStep, IsLoaded, IsReadAnew, IsRun, IsSession, IsStep, IsTold, IsTurn, LoadsEach, LoadsOne};
ghost use Rattle.aatry_session_run.specs.code.Sessions.{seen_table, standing};
ghost use Rattle.aatry_report.specs.declared.form.Form.TheVariants as form;
ghost use Rattle.aatry_session.specs.SeenTurns.{IsAskable, seen_turn};
ghost use Rattle.aatry_session.specs.Turns.{Told};

use crate::faults::push_told;
use crate::note::push_note;
use crate::state::{Setting, Table};
use crate::status::push_status;
use aa_profile::{Profile, ProfileRefusal, read_file_in};
use aa_profile_data::cut_full_name;
use aa_profile_parsing::Language;
use aa_set_commands::{Question, Sink, Source, write_all};
use aa_start::FileSystem;
use aa_text_files::Files;
use aatry_folder::{Fault, Folders, Loading, PolicyFiles, PolicyFolder, TopFile, policy_below};
use aatry_logs::{Lines, MOST_LINES, all_lines, next_line};
use aatry_report::{Form, Teller, push_shown};
use aatry_requests::who_asks;
use aatry_session::{Session, Turn};
use aatry_why::{Sources, push_answer};
use std::alloc::{AllocError, Global};

// The reply for a file that is taken, as it is loaded.
const TAKEN: &[u8] = b"ok\n";

// Appends the line of a file that is left out to a text.
fn push_left_out(name: &str, out: &mut Vec<u8>) -> Result<(), AllocError>
    ensures { OnOk result (out.new.items ≡ out.old.items ++ left_out_line name.now) }
{
    out.extend_from_slice(b"left out: ")?;
    push_shown(out, name.as_bytes())?;
    out.push(b'\n')?;
    Ok(())
}

// Appends the report on the loading of a file to a text: that it is left out, and why; and nothing for one that is taken.
fn push_loading(name: &str, turn: &Turn<'_>, out: &mut Vec<u8>) -> Result<(), AllocError>
    ensures { OnOk result (out.new.items ≡ out.old.items ++ loading_text name.now (seen_turn turn.now)) }
{
    match turn {
        Turn::Told(text) if text.as_slice() != TAKEN => {
            push_left_out(name, out)?;
            out.extend_from_slice(text.as_slice())
        }
        _ => Ok(()),
    }
}

// Whether a file was taken, by the reply.
fn is_taken(turn: &Turn<'_>) -> bool
    ensures { result ≡ is_taken (seen_turn turn.now) }
{
    match turn {
        Turn::Told(text) => text.as_slice() == TAKEN,
        _ => false,
    }
}

// Makes the change of each of some profiles, as their file is loaded.
fn switch_each(
    alloc: Global,
    session: &mut Session,
    loading: Loading,
    profiles: &[Profile],
) -> Result<(), AllocError>
    ensures { OnOk result (session.new ≡ all_switched loading session.old (map (λ profile. profile.name) profiles.now)) }
{
    let mut rest = profiles;
    while let [profile, behind @ ..] = rest {
        session.switch(alloc, loading, profile.name.as_slice())?;
        rest = behind;
    }
    Ok(())
}

// Makes the change of each profile of a file that was taken, as the file is loaded. The file is read for their names.
fn switch_file(
    alloc: Global,
    language: Language,
    files: &Files,
    session: &mut Session,
    file: &TopFile,
) -> Result<(), AllocError>
    ensures { OnOk result (session.new
        ≡ all_switched file.now.loading session.old (profile_names (file_profiles_in language files.now (string_bytes file.now.name)))) }
{
    match read_file_in(alloc, language, files, file.name.as_bytes()) {
        Ok(read) => switch_each(alloc, session, file.loading, &read.profiles),
        Err(error) => {
            if error.refusal == ProfileRefusal::Memory {
                return Err(AllocError);
            }
            Ok(())
        }
    }
}

// Makes the change of each profile of a file, as the file is loaded, where it was taken and something is to be changed.
fn settle(
    alloc: Global,
    language: Language,
    files: &Files,
    session: &mut Session,
    file: &TopFile,
    turn: &Turn<'_>,
) -> Result<(), AllocError>
    ensures { OnOk result (session.new ≡ settled language files.now (seen_top file.now) (is_taken (seen_turn turn.now)) session.old) }
{
    match file.loading {
        Loading::ByFlags => Ok(()),
        Loading::ForceComplain | Loading::Disable => {
            if is_taken(turn) {
                switch_file(alloc, language, files, session, file)?;
            }
            Ok(())
        }
    }
}

// Adds the profiles of a file, like a line of the session would, loaded as the file is to be, and appends why it is left out, if it is.
fn load_file(
    alloc: Global,
    language: Language,
    files: &Files,
    base: &str,
    session: &mut Session,
    file: &TopFile,
    out: &mut Vec<u8>,
) -> Result<(), AllocError>
    ensures { OnOk result ((text : List ℕ) × (out.new.items ≡ out.old.items ++ text)
        × LoadsOne language files.now base.now session.old (seen_top file.now) session.new text) }
{
    let turn = session.add(alloc, files, base, file.name.as_bytes())?;
    settle(alloc, language, files, session, file, &turn)?;
    push_loading(file.name.as_str(), &turn, out)
}

// Adds the profiles of each of these files, loaded as the file is to be, and appends why it is left out, if it is.
fn load_each(
    alloc: Global,
    language: Language,
    files: &Files,
    base: &str,
    session: &mut Session,
    top: &[TopFile],
    out: &mut Vec<u8>,
) -> Result<(), AllocError>
    ensures { OnOk result ((text : List ℕ) × (out.new.items ≡ out.old.items ++ text)
        × LoadsEach language files.now base.now session.old (map seen_top top.now) session.new text) }
{
    for file in top {
        load_file(alloc, language, files, base, session, file, out)?;
    }
    Ok(())
}

// Reads everything below the folder again, and appends that this was done: where in the files the loaded profiles have what they have isn't known
// any more then. Where something can't be read, the fault is appended, and what was read before stays.
fn reload<F: Folders, D: FileSystem>(
    alloc: Global,
    setting: &Setting<'_, F, D>,
    table: &mut Table,
    out: &mut Vec<u8>,
) -> Result<(), AllocError>
    ensures { OnOk result ((text : List ℕ) × (out.new.items ≡ out.old.items ++ text)
        × IsReadAnew (F.told setting.now.folders.now) (D.known setting.now.disk.now) setting.now.base.now
        (seen_table table.old) (seen_table table.new) text) }
{
    match policy_below(
        alloc,
        setting.language,
        setting.folders,
        setting.disk,
        setting.base,
    ) {
        Ok(read) => {
            table.files = read.files;
            table.session.forget_places();
            out.extend_from_slice(TAKEN)
        }
        Err(fault) => push_told(&fault, out),
    }
}

// Where the rules of the asker are written, as far as the session knows.
fn sources_of<'a>(base: &'a str, table: &'a Table, question: &Question<'_>) -> Sources<'a>
    ensures { seen_sources result ≡ sources_of base.now (seen_table table.now) (seen_question question.entry.now) }
{
    let (profile, _) = cut_full_name(who_asks(question));
    Sources {
        below: PolicyFiles {
            files: &table.files,
            base: base.as_bytes(),
        },
        origin: table.session.origin(profile),
    }
}

// Appends the answer of a session's policy set to a question, with the rules of the loaded profile that decide it.
fn answer_question(
    alloc: Global,
    base: &str,
    table: &Table,
    question: &Question<'_>,
    out: &mut Vec<u8>,
) -> Result<(), AllocError>
    requires { IsWellFormed question.now }
    ensures { OnOk result (out.new.items ≡ out.old.items ++ answered_text form.Lines
        (sources_of base.now (seen_table table.now) (seen_question question.entry.now)) table.now.session.managed.machine.now
        (seen_question question.entry.now)) }
{
    let sources = sources_of(base, table, question);
    let teller = Teller {
        alloc,
        form: Form::Lines,
        verbose: false,
    };
    push_answer(teller, &sources, table.session.manager(), question, out)?;
    Ok(())
}

// Appends the text of a turn, and returns whether the session goes on. What is to be read again is read, and the history leaves out nothing any more
// where it is to.
fn tell<F: Folders, D: FileSystem>(
    alloc: Global,
    setting: &Setting<'_, F, D>,
    table: &mut Table,
    turn: Turn<'_>,
    out: &mut Vec<u8>,
) -> Result<bool, AllocError>
    requires { IsAskable turn }
    ensures told { IfOk result (λ _. (text : List ℕ) × (out.new.items ≡ out.old.items ++ text)
        × IsTold (F.told setting.now.folders.now) (D.known setting.now.disk.now) setting.now.base.now
        (seen_table table.old) (seen_turn turn.entry) (seen_table table.new) text) }
    ensures goes { IfOk result (λ goes. goes ≡ goes_on (seen_turn turn.entry)) }
{
    match turn {
        Turn::Told(text) => {
            out.extend_from_slice(text.as_slice())?;
            Ok(true)
        }
        Turn::Quit => Ok(false),
        Turn::Reload => {
            reload(alloc, setting, table, out)?;
            Ok(true)
        }
        Turn::Status => {
            push_status(alloc, setting, table, out)?;
            Ok(true)
        }
        Turn::Widen => {
            table.session.widen_history();
            out.extend_from_slice(TAKEN)?;
            Ok(true)
        }
        Turn::Why(question) => {
            table.session.remember(&question);
            answer_question(alloc, setting.base, table, &question, out)?;
            Ok(true)
        }
    }
}

// Answers a line of the session: appends the text of its turn, and returns whether the session goes on.
fn answer_line<F: Folders, D: FileSystem>(
    alloc: Global,
    setting: &Setting<'_, F, D>,
    table: &mut Table,
    line: &[u8],
    out: &mut Vec<u8>,
) -> Result<bool, AllocError>
    ensures turn { IfOk result (λ goes. (text : List ℕ) × (out.new.items ≡ out.old.items ++ text)
        × IsTurn (F.told setting.now.folders.now) (D.known setting.now.disk.now) setting.now.base.now
        (seen_table table.old) line.now (seen_table table.new) text goes) }
{
    let turn = table
        .session
        .answer(alloc, &table.files, setting.base, line)?;
    let goes = tell(alloc, setting, table, turn, out)?;
    push_note(alloc, setting, &table.files, line, out)?;
    Ok(goes)
}

// Writes a text.
fn show<W: Sink>(writer: &mut W, text: &[u8]) -> Result<(), Fault>
    ensures ok { OnOk result (Appends (W.written writer.old) (W.written writer.new) text.now) }
    ensures err { OnErr result (AppendsFront (W.written writer.old) (W.written writer.new) text.now) }
    ensures fault { IfErr result (λ told. told ≡ fault.Write) }
    ensures failed { OnErr result (W.failed writer.new ≡ true) }
{
    match write_all(writer, text) {
        Ok(()) => Ok(()),
        Err(_) => Err(Fault::Write),
    }
}

// Prompts, answers the next line and writes the text of its turn, and returns whether the session goes on.
fn step<F: Folders, D: FileSystem, S: Source, W: Sink>(
    alloc: Global,
    setting: &Setting<'_, F, D>,
    table: &mut Table,
    reader: &mut S,
    lines: &mut Lines,
    writer: &mut W,
) -> Result<bool, Fault>
    requires { S.reads reader.old ≤ 2 ^ 63 }
    ensures on { IfOk result (λ goes. goes ≡ true → (taken : List ℕ)
        × IsStep (F.told setting.now.folders.now) (D.known setting.now.disk.now) setting.now.base.now setting.now.prompt.now
        (standing (S.left reader.old) lines.old.input (W.written writer.old) table.old) taken
        (standing (S.left reader.new) lines.new.input (W.written writer.new) table.new) true) }
    ensures off { IfOk result (λ goes. goes ≡ false
        → IsLastStep (F.told setting.now.folders.now) (D.known setting.now.disk.now) setting.now.base.now setting.now.prompt.now
        (standing (S.left reader.old) lines.old.input (W.written writer.old) table.old)
        (standing (S.left reader.new) lines.new.input (W.written writer.new) table.new)) }
    ensures broken { IfErr result (IsBrokenStep (F.told setting.now.folders.now) (D.known setting.now.disk.now) setting.now.base.now setting.now.prompt.now
        (standing (S.left reader.old) lines.old.input (W.written writer.old) table.old) (W.written writer.new)) }
    ensures failed { IsErrOf result Fault.Write → W.failed writer.new ≡ true }
    ensures bound { S.reads reader.new ≤ S.reads reader.old + most_reads }
{
    show(writer, setting.prompt)?;
    if !next_line(reader, lines)? {
        return Ok(false);
    }
    let mut text = Vec::new(alloc);
    let goes = answer_line(alloc, setting, table, lines.line.as_slice(), &mut text)?;
    show(writer, &text)?;
    Ok(goes)
}

// Answers the lines of an input one after the other, to the session's end.
fn run<F: Folders, D: FileSystem, S: Source, W: Sink>(
    alloc: Global,
    setting: &Setting<'_, F, D>,
    table: &mut Table,
    reader: &mut S,
    lines: &mut Lines,
    writer: &mut W,
) -> Result<(), Fault>
    requires { S.reads reader.old ≤ 2 ^ 62 }
    ensures ran { OnOk result (IsRun (F.told setting.now.folders.now) (D.known setting.now.disk.now) setting.now.base.now setting.now.prompt.now
        (standing (S.left reader.old) lines.old.input (W.written writer.old) table.old)
        (standing (S.left reader.new) lines.new.input (W.written writer.new) table.new)) }
    ensures broken { IfErr result (IsBrokenRun (F.told setting.now.folders.now) (D.known setting.now.disk.now) setting.now.base.now setting.now.prompt.now
        (standing (S.left reader.old) lines.old.input (W.written writer.old) table.old) (W.written writer.new)) }
    ensures failed { IsErrOf result Fault.Write → W.failed writer.new ≡ true }
{
    for _count in 0..MOST_LINES {
        let goes = step(alloc, setting, table, reader, lines, writer)?;
        if !goes {
            return Ok(());
        }
    }
    Err(Fault::Read)
}

// Begins a session over a folder: the files at its top are added, one after the other and each as it is loaded, and the reports on those that are
// refused are appended to a text. Its history begins after that.
fn begin<F: Folders, D: FileSystem>(
    alloc: Global,
    setting: &Setting<'_, F, D>,
    out: &mut Vec<u8>,
) -> Result<Table, Fault>
    ensures loaded { IfOk result (λ table. (text : List ℕ) × (out.new.items ≡ out.old.items ++ text)
        × IsLoaded setting.now.language (F.told setting.now.folders.now) (D.known setting.now.disk.now) setting.now.base.now
        (seen_table table) text) }
    ensures fault { IfErr result (IsOfFolder (F.told setting.now.folders.now) setting.now.base.now) }
{
    let PolicyFolder { files, top, .. } = policy_below(
        alloc,
        setting.language,
        setting.folders,
        setting.disk,
        setting.base,
    )?;
    let mut session = Session::new(alloc, setting.language, false);
    load_each(
        alloc,
        setting.language,
        &files,
        setting.base,
        &mut session,
        &top,
        out,
    )?;
    session.begin_history();
    Ok(Table { files, session })
}

// Runs a session: begins it, writes the report on that, and answers the lines of the input to its end.
fn have_session<F: Folders, D: FileSystem, S: Source, W: Sink>(
    alloc: Global,
    setting: &Setting<'_, F, D>,
    reader: &mut S,
    writer: &mut W,
) -> Result<(), Fault>
    requires { S.reads reader.old ≤ 2 ^ 62 }
    ensures had { OnOk result (IsSession setting.now.language (F.told setting.now.folders.now) (D.known setting.now.disk.now) setting.now.base.now setting.now.prompt.now
        (S.left reader.old) (W.written writer.old) (W.written writer.new)) }
    ensures broken { IfErr result (IsBrokenSession setting.now.language (F.told setting.now.folders.now) (D.known setting.now.disk.now) setting.now.base.now setting.now.prompt.now
        (S.left reader.old) (W.written writer.old) (W.written writer.new)) }
    ensures fault { IfErr result (IsEndOfSession (F.told setting.now.folders.now) setting.now.base.now) }
    ensures failed { IsErrOf result Fault.Write → W.failed writer.new ≡ true }
{
    let mut text = Vec::new(alloc);
    let mut table = begin(alloc, setting, &mut text)?;
    let mut lines = all_lines(alloc)?;
    show(writer, &text)?;
    run(alloc, setting, &mut table, reader, &mut lines, writer)
}

/// Runs a session by a language over the folder of policy that is asked for: the folder is read as by `aatry_folder::policy_below`, the profiles of
/// the files at its top are added, one file after the other and each as it is to be loaded, and the refused ones are reported. Then each line of the
/// input is answered as by `aatry_session::Session::answer`, until a line ends the session, or the input does. `prompt` is written before each line
/// is read. `reload` reads everything below the folder again: the policy set and its history stay, and where in the files the loaded profiles have
/// their rules isn't known any more. `why` prints the rules of the loaded profile, each with the place where it was read, while that is known. The
/// history begins after the changes that loaded the files, which `undo` leaves alone, until `loading` includes them. `status` prints what is loaded,
/// and reads everything below the folder again to print how it differs from what was read last, which stays. The reply to `add` or `replace` is
/// followed by a note where the disk has another file than the one that was loaded; the file is read for that alone.
///
/// # Errors
///
/// - `Unreadable` with the first folder or file that can't be read, `TooMany` where there are more than 65,536: nothing was written then.
/// - `Read` where a read of the input failed, a line took more than 2,147,483,648 reads, or 1,073,741,824 lines didn't end the session. The replies
///   to the lines so far are written then, followed by the prompt, except where there were so many lines.
/// - `Write` where a write failed: a prefix of what a session writes is written then.
/// - `NoMemory` where memory ran out: nothing is written then, or the replies to the lines so far, followed by the prompt.
pub fn session_folder<F: Folders, D: FileSystem, S: Source, W: Sink>(
    alloc: Global,
    language: Language,
    folders: &F,
    disk: &D,
    asked: aatry_arguments::Session,
    prompt: &[u8],
    reader: &mut S,
    writer: &mut W,
) -> Result<(), Fault>
    requires { S.reads reader.old ≤ 2 ^ 62 }
    ensures had { OnOk result (IsSession language (F.told folders.now) (D.known disk.now) (string_bytes asked.base) prompt.now
        (S.left reader.old) (W.written writer.old) (W.written writer.new)) }
    ensures broken { IfErr result (IsBrokenSession language (F.told folders.now) (D.known disk.now) (string_bytes asked.base) prompt.now
        (S.left reader.old) (W.written writer.old) (W.written writer.new)) }
    ensures fault { IfErr result (IsEndOfSession (F.told folders.now) (string_bytes asked.base)) }
    ensures failed { IsErrOf result Fault.Write → W.failed writer.new ≡ true }
{
    let aatry_arguments::Session { base } = asked;
    let setting = Setting {
        language,
        folders,
        disk,
        base: base.as_str(),
        prompt,
    };
    have_session(alloc, &setting, reader, writer)
}
