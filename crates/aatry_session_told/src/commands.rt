//! What the commands of lines do to the policy set of a session, and to its history.

ghost use Rattle.std.specs.Prelude.{◌≡◌};
ghost use Rattle.std.specs.Option.{option_map};
ghost use Rattle.aa_set_commands.specs.Command.{line_command, seen_change};
ghost use Rattle.aa_set_commands.specs.Words.{words_of};
ghost use Rattle.aatry_session_told.specs.Commands.{change_in, loaded_file, undo_count, undoes_more};

use aa_set_commands::{Command, LONGEST_LINE, PolicyChange, read};

/// The change that the command of a line makes, if it is one that changes the policy set.
pub fn change_in(line: &[u8]) -> Option<PolicyChange<'_>>
    ensures { option_map seen_change result ≡ change_in (line_command (words_of line.now)) }
{
    match read(line) {
        Ok(Some(Command::Change(change))) => Some(change),
        _ => None,
    }
}

/// The name of the file whose profiles the command of a line loads, if it is `add` or `replace`. A line of more than 65,536 bytes does nothing.
pub fn loaded_file(line: &[u8]) -> Option<&[u8]>
    ensures { option_map (λ name. name.now) result ≡ loaded_file line.now }
{
    if line.len() > LONGEST_LINE {
        return None;
    }
    match change_in(line) {
        Some(PolicyChange::Add(name)) => Some(name),
        Some(PolicyChange::Replace(name)) => Some(name),
        _ => None,
    }
}

// How many changes the command of a line undoes, if it is `undo`.
fn undo_count(line: &[u8]) -> Option<usize>
    ensures { result ≡ undo_count (line_command (words_of line.now)) }
{
    match read(line) {
        Ok(Some(Command::Undo(count))) => Some(count),
        _ => None,
    }
}

/// Whether the command of a line undoes more changes than so many. A line of more than 65,536 bytes undoes none.
pub fn undoes_more(most: usize, line: &[u8]) -> bool
    ensures { result ≡ undoes_more most line.now }
{
    if line.len() > LONGEST_LINE {
        return false;
    }
    match undo_count(line) {
        Some(count) => count > most,
        None => false,
    }
}
