//! The assertions of a transcript, each asked of the policy set after the commands before it.

ghost use Rattle.std.specs.Prelude.{◌≡◌, ◌<◌, ◌≤◌, ◌+◌, ◌-◌, ◌^◌, IfOk, OnOk, false};
ghost use Rattle.aa_set_manager.specs.Manager.{new_manager_in};
ghost use Rattle.aatry_test.specs.Running.{AreAsserted, Asserted as SeenAsserted, GoesOn, IsAssertedAt, IsLineAsserted, IsTranscriptAsserted, and_asserted, lacks_memory, seen_asserted};
ghost use Rattle.aatry_transcripts.specs.Transcripts.{command_in, texts};

use crate::asserted::Asserted;
use crate::asserting::push_assertion;
use crate::headings::push_heading;
use aa_profile_parsing::Language;
use aa_set_commands::RefusalKind;
use aa_set_manager::{Manager, Reply, reply_to};
use aa_text_files::Files;
use aatry_transcripts::{
    assertion_count, assertion_in, command_in, is_assertion, is_command, line_at,
};
use std::alloc::{AllocError, Global};

/// What is run: files, by a language, for the transcript of a path.
#[derive(Clone, Copy)]
pub struct Run<'a> {
    /// The language.
    pub language: Language,
    /// The files.
    pub files: &'a Files,
    /// The path.
    pub path: &'a [u8],
}

// Whether memory ran out at a command.
fn lacks_memory(reply: &Reply) -> bool
    ensures { result ≡ lacks_memory reply.now }
{
    match reply {
        Reply::Refused(refusal) => matches!(refusal.refusal, RefusalKind::Memory),
        Reply::Silent | Reply::Done | Reply::Answered(_) => false,
    }
}

// Has the machine go on after a command.
fn obey(files: &Files, command: &[u8], manager: &mut Manager) -> Result<(), AllocError>
    ensures { OnOk result (GoesOn files.now manager.old command.now manager.new) }
{
    let reply = reply_to(files, manager, command);
    if lacks_memory(&reply) {
        Err(AllocError)
    } else {
        Ok(())
    }
}

// Asks the assertion of a line, and appends its outcome to that of the others.
fn push_asserted(
    alloc: Global,
    run: Run<'_>,
    number: usize,
    line: &[u8],
    manager: &Manager,
    all: &mut Asserted,
) -> Result<(), AllocError>
    requires { all.old.failing < 2 ^ 64 - 1 }
    ensures told { OnOk result ((own : SeenAsserted) × (seen_asserted all.new ≡ and_asserted (seen_asserted all.old) own)
        × IsAssertedAt run.entry.language run.entry.files.now run.entry.path.now number manager.now line.now manager.now own) }
    ensures few { OnOk result (all.new.failing ≤ all.old.failing + 1) }
{
    let mut told = Vec::new(alloc);
    let set = manager.policy_set();
    if push_assertion(
        alloc,
        run.language,
        run.files,
        &set,
        assertion_in(line),
        &mut told,
    )? {
        return Ok(());
    }
    push_heading(&mut all.text, run.path, number, line)?;
    all.text.extend_from_slice(&told)?;
    all.failing += 1;
    Ok(())
}

// Has the machine go on after a line, if it holds a command; and where it holds an assertion, asks that, and appends its outcome to that of the
// others.
fn push_line(
    alloc: Global,
    run: Run<'_>,
    number: usize,
    line: &[u8],
    manager: &mut Manager,
    all: &mut Asserted,
) -> Result<(), AllocError>
    requires { all.old.failing < 2 ^ 64 - 1 }
    ensures told { OnOk result ((own : SeenAsserted) × (seen_asserted all.new ≡ and_asserted (seen_asserted all.old) own)
        × IsLineAsserted run.entry.language run.entry.files.now run.entry.path.now number manager.old line.now manager.new own) }
    ensures few { OnOk result (all.new.failing ≤ all.old.failing + 1) }
{
    if is_command(line) {
        obey(run.files, command_in(line), manager)
    } else if is_assertion(line) {
        push_asserted(alloc, run, number, line, manager, all)
    } else {
        Ok(())
    }
}

// The outcome of the assertions of lines.
fn assert_each(alloc: Global, run: Run<'_>, lines: &[&[u8]]) -> Result<Asserted, AllocError>
    ensures { IfOk result (λ all. AreAsserted run.entry.language run.entry.files.now run.entry.path.now 1 (new_manager_in run.entry.language false)
        (texts lines.now) (seen_asserted all)) }
{
    let mut manager = Manager::new_in(alloc, run.language, false);
    let mut all = Asserted::new(alloc);
    for at in 0..lines.len() {
        let line = line_at(at, lines);
        push_line(alloc, run, at + 1, line, &mut manager, &mut all)?;
    }
    Ok(all)
}

/// The outcome of the assertions of a transcript, by its lines: each is asked of the policy set after the commands before it, from the empty one on,
/// as the machine answers them (`aa_set_manager::reply_to`). The report on one that doesn't hold has the path and the number of its line. Of a
/// transcript without assertions no command is run.
///
/// # Errors
///
/// Where memory runs out, also for a command.
pub fn assert_lines(alloc: Global, run: Run<'_>, lines: &[&[u8]]) -> Result<Asserted, AllocError>
    ensures { IfOk result (λ all. IsTranscriptAsserted run.entry.language run.entry.files.now run.entry.path.now (texts lines.now) (seen_asserted all)) }
{
    if assertion_count(lines) == 0 {
        return Ok(Asserted::new(alloc));
    }
    assert_each(alloc, run, lines)
}
