//! Replies to lines.

ghost use Rattle.std.specs.Prelude.{◌≡◌, Bool, MatchResult};
ghost use Rattle.aa_set_commands.specs.Command.{AsksWell, Make, seen_change, seen_command};
ghost use Rattle.aa_set_manager.specs.Outcomes.{line_outcome, obeyed_flagged};
ghost use Rattle.aa_set_manager.specs.declared.reply.Reply.TheVariants.{Answered, Done, Refused};

use crate::manager::Manager;
use aa_bytes::Sequence;
use aa_set_commands::{Command, LONGEST_LINE, PolicyChange, Refusal, RefusalKind, plain, read};
use aa_text_files::Files;

/// The reply to a line.
#[derive(Debug, Drop)]
pub enum Reply {
    /// Nothing: the line is blank.
    Silent,
    /// A change was made, undone or redone, or the policy set was marked or a mark was gone to.
    Done,
    /// The line was refused.
    Refused(Refusal),
    /// A question was answered, by these lines.
    Answered(Sequence<u8>),
}

/// Executes a line, and returns the reply. The manager changes as the line says, or not at all where it is refused or asks.
pub fn reply_to(files: &Files, manager: &mut Manager, line: &[u8]) -> Reply
    ensures { (flag : Bool) × (record { reply = result; managed = manager.new } ≡ line_outcome files.now manager.old line.now flag) }
{
    if line.len() > LONGEST_LINE {
        return Reply::Refused(plain(RefusalKind::LineTooLong));
    }
    match read(line) {
        Ok(Some(command)) => obey(files, manager, command),
        Ok(None) => Reply::Silent,
        Err(refusal) => Reply::Refused(refusal),
    }
}

// Executes a command, and returns the reply.
fn obey(files: &Files, manager: &mut Manager, command: Command<'_>) -> Reply
    requires { AsksWell command }
    ensures { (flag : Bool)
        × (record { reply = result; managed = manager.new }
        ≡ obeyed_flagged files.now manager.old flag (seen_command command.entry)) }
{
    match command {
        Command::Change(change) => make(files, manager, change),
        Command::Undo(count) => done(manager.undo(count)),
        Command::Redo(count) => done(manager.redo(count)),
        Command::Mark(name) => done(manager.mark(name)),
        Command::Back(name) => done(manager.back(name)),
        Command::Ask(question) => {
            manager.remember(&question);
            answered(manager.ask(&question))
        }
        Command::List => answered(manager.list()),
        Command::Show(name) => {
            manager.index_names();
            answered(manager.show(name))
        }
    }
}

// Makes a change, and returns the reply.
fn make(files: &Files, manager: &mut Manager, change: PolicyChange<'_>) -> Reply
    ensures { (flag : Bool)
        × (record { reply = result; managed = manager.new }
        ≡ obeyed_flagged files.now manager.old flag (Make (seen_change change.entry))) }
{
    match change {
        PolicyChange::Add(file) => done(manager.add(files, file)),
        PolicyChange::Replace(file) => done(manager.replace(files, file)),
        PolicyChange::Remove(file) => done(manager.remove(files, file)),
        PolicyChange::Enforce(name) => {
            manager.index_names();
            done(manager.enforce(name))
        }
        PolicyChange::Complain(name) => {
            manager.index_names();
            done(manager.complain(name))
        }
        PolicyChange::Disable(name) => {
            manager.index_names();
            done(manager.disable(name))
        }
    }
}

fn done(outcome: Result<(), Refusal>) -> Reply
    ensures { MatchResult outcome (λ _. result ≡ Done) (λ refusal. result ≡ Refused refusal) }
{
    match outcome {
        Ok(()) => Reply::Done,
        Err(refusal) => Reply::Refused(refusal),
    }
}

fn answered(outcome: Result<Vec<u8>, Refusal>) -> Reply
    ensures { MatchResult outcome (λ lines. result ≡ Answered lines.items) (λ refusal. result ≡ Refused refusal) }
{
    match outcome {
        Ok(lines) => Reply::Answered(Sequence::from_vec(lines)),
        Err(refusal) => Reply::Refused(refusal),
    }
}
