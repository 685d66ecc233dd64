//! A line for the machine over commands, obeyed, and the text of its reply.

ghost use Rattle.std.specs.Prelude.{◌≡◌, ◌<◌, ◌++◌, Bool, OnErr, OnOk, None, Some, length, vec_capacity};
ghost use Rattle.aa_set_manager.specs.Outcomes.{command_in};
ghost use Rattle.aa_set_commands.specs.Command.{seen_change};
ghost use Rattle.aatry_session.specs.Changes.{kept_with};
ghost use Rattle.aatry_session_told.specs.Commands.{change_in};
ghost use Rattle.aatry_session.specs.SeenSessions.{seen_session};
ghost use Rattle.aatry_session.specs.Turns.{Adds, AddsOrLeaves, Leaves, LeavesAs, Obeys, ObeysAs, line_obeyed, reply_told, undoable};

use crate::changes::{Changes, keep, make_room};
use crate::making::{Made, add, make};
use aa_bytes::Sequence;
use aa_profile_parsing::Language;
use aa_set_commands::{PolicyChange, RefusalKind, plain};
use aa_set_manager::{Manager, Reply, reply_to};
use aa_text_files::Files;
use aatry_report::push_shown_lines;
use aatry_session_told::{change_in, push_moves, push_refusal, text_of, undoes_more};
use std::alloc::{AllocError, Global};

// Appends the text of a reply to `out`. `from` is how many changes were done before it, `to` how many are done now.
fn push_reply(
    alloc: Global,
    language: Language,
    files: &Files,
    base: &[u8],
    texts: &[Sequence<u8>],
    from: usize,
    to: usize,
    reply: &Reply,
    out: &mut Vec<u8>,
) -> Result<(), AllocError>
    ensures { OnOk result (out.new.items ≡ out.old.items ++ reply_told language files.now base.now texts.now from to reply.now) }
{
    match reply {
        Reply::Silent => Ok(()),
        Reply::Done => push_moves(out, texts, from, to),
        Reply::Answered(lines) => push_shown_lines(out, lines.as_slice()),
        Reply::Refused(refusal) => push_refusal(alloc, language, files, base, *refusal, out),
    }
}

// Keeps a change that was made after `done` others, and appends the text of its reply.
fn keep_and_tell(
    alloc: Global,
    language: Language,
    files: &Files,
    base: &[u8],
    changes: &mut Changes,
    done: usize,
    text: Sequence<u8>,
    made: Made,
    out: &mut Vec<u8>,
) -> Result<(), AllocError>
    requires text_room { length changes.old.texts.items < vec_capacity changes.old.texts }
    requires origin_room { length changes.old.origins.items < vec_capacity changes.old.origins }
    ensures texts { changes.new.texts.items ≡ kept_with done text made.reply changes.old.texts.items }
    ensures origins { changes.new.origins.items ≡ kept_with done made.origins made.reply changes.old.origins.items }
    ensures loaded { changes.new.loaded ≡ changes.old.loaded }
    ensures told { OnOk result (out.new.items
        ≡ out.old.items ++ reply_told language files.now base.now changes.new.texts.items done done made.reply) }
{
    let Made { reply, origins } = made;
    keep(changes, done, text, origins, &reply);
    push_reply(
        alloc,
        language,
        files,
        base,
        &changes.texts,
        done,
        done,
        &reply,
        out,
    )
}

// Obeys a line that makes a change, and appends the text of the reply.
fn obey_change(
    alloc: Global,
    files: &Files,
    base: &[u8],
    manager: &mut Manager,
    changes: &mut Changes,
    change: PolicyChange<'_>,
    line: &[u8],
    out: &mut Vec<u8>,
) -> Result<(), AllocError>
    requires { change_in (command_in line.now) ≡ Some (seen_change change) }
    ensures told { OnOk result (ObeysAs files.now base.now (seen_session manager.old changes.old) (seen_session manager.new changes.new)
        (Some (seen_change change.entry)) (line_obeyed files.now changes.old.loaded manager.old line.now) out.old.items out.new.items) }
    ensures left { OnErr result (LeavesAs files.now (seen_session manager.old changes.old) (seen_session manager.new changes.new)
        (Some (seen_change change.entry)) (line_obeyed files.now changes.old.loaded manager.old line.now)) }
{
    let text = text_of(alloc, change)?;
    make_room(changes)?;
    let done = manager.depth();
    let made = make(alloc, files, manager, change, line);
    keep_and_tell(
        alloc,
        manager.language(),
        files,
        base,
        changes,
        done,
        text,
        made,
        out,
    )
}

/// Adds the profiles of a file, keeps that change, and appends the text of the reply to `out`.
///
/// # Errors
///
/// Where memory runs out: for what is kept, and nothing is added then; or for the text, and the change is made and kept. A beginning of the text may
/// have been appended.
pub fn obey_add(
    alloc: Global,
    files: &Files,
    base: &[u8],
    manager: &mut Manager,
    changes: &mut Changes,
    name: &[u8],
    out: &mut Vec<u8>,
) -> Result<(), AllocError>
    ensures told { OnOk result (Adds files.now base.now (seen_session manager.old changes.old) (seen_session manager.new changes.new) name.now
        out.old.items out.new.items) }
    ensures left { OnErr result (AddsOrLeaves files.now (seen_session manager.old changes.old) (seen_session manager.new changes.new) name.now) }
{
    let text = text_of(alloc, PolicyChange::Add(name))?;
    make_room(changes)?;
    let done = manager.depth();
    let made = add(alloc, files, manager, name);
    keep_and_tell(
        alloc,
        manager.language(),
        files,
        base,
        changes,
        done,
        text,
        made,
        out,
    )
}

// How many changes can be undone, where the history leaves out so many.
fn undoable(manager: &Manager, loaded: usize) -> usize
    ensures { result ≡ undoable loaded manager.now }
{
    manager.depth().saturating_sub(loaded)
}

// The reply to a line, which can't undo the first `loaded` changes, those that the history leaves out.
fn reply_behind(files: &Files, manager: &mut Manager, loaded: usize, line: &[u8]) -> Reply
    ensures { (flag : Bool)
        × (record { reply = result; managed = manager.new } ≡ line_obeyed files.now loaded manager.old line.now flag) }
{
    if undoes_more(undoable(manager, loaded), line) {
        return Reply::Refused(plain(RefusalKind::NothingToUndo));
    }
    reply_to(files, manager, line)
}

// Obeys a line that makes no change, and appends the text of the reply.
fn obey_other(
    alloc: Global,
    files: &Files,
    base: &[u8],
    manager: &mut Manager,
    changes: &Changes,
    line: &[u8],
    out: &mut Vec<u8>,
) -> Result<(), AllocError>
    ensures told { OnOk result (ObeysAs files.now base.now (seen_session manager.old changes.now) (seen_session manager.new changes.now) None
        (line_obeyed files.now changes.now.loaded manager.old line.now) out.old.items out.new.items) }
    ensures left { OnErr result (LeavesAs files.now (seen_session manager.old changes.now) (seen_session manager.new changes.now) None
        (line_obeyed files.now changes.now.loaded manager.old line.now)) }
{
    let from = manager.depth();
    let reply = reply_behind(files, manager, changes.loaded, line);
    let to = manager.depth();
    push_reply(
        alloc,
        manager.language(),
        files,
        base,
        &changes.texts,
        from,
        to,
        &reply,
        out,
    )
}

/// Obeys a line, keeps the change that it makes, if it makes one, and appends the text of the reply to `out`.
///
/// # Errors
///
/// Where memory runs out: for what is kept of a change, and the line isn't obeyed then; or for the text, and it is. A beginning of that may have
/// been appended.
pub fn obey(
    alloc: Global,
    files: &Files,
    base: &[u8],
    manager: &mut Manager,
    changes: &mut Changes,
    line: &[u8],
    out: &mut Vec<u8>,
) -> Result<(), AllocError>
    ensures told { OnOk result (Obeys files.now base.now (seen_session manager.old changes.old) (seen_session manager.new changes.new) line.now
        out.old.items out.new.items) }
    ensures left { OnErr result (Leaves files.now (seen_session manager.old changes.old) (seen_session manager.new changes.new) line.now) }
{
    match change_in(line) {
        Some(change) => obey_change(alloc, files, base, manager, changes, change, line, out),
        None => obey_other(alloc, files, base, manager, changes, line, out),
    }
}
