//! Commands, read from their lines.

ghost use Rattle.std.specs.Prelude.{◌≡◌, ◌≤◌, true, Ok, Err, IfOk, IfErr, IfSome, OnOk, map, length};
ghost use Rattle.std.specs.List.{list_all};
ghost use Rattle.std.specs.Option.{option_map};
ghost use Rattle.aa_bytes.specs.Bytes.{is_digit};
ghost use Rattle.aa_set_commands.specs.Command.{AsksWell, Listed, change_of, change_command, count_of, is_count, line_command, seen_change};
ghost use Rattle.aa_set_commands.specs.Command.{most_digits, no_word, number_of_digits, command_of, seen_command, the_word};
ghost use Rattle.aa_set_commands.specs.Words.{words_of};

use crate::question::Question;
use crate::refusal::{Refusal, RefusalKind, plain};
use crate::words::Words;

// The most digits of a number, which then fits.
const MOST_DIGITS: usize = 9;

/// A change of the policy set.
#[derive(Clone, Copy)]
pub enum PolicyChange<'a> {
    /// Adds the profiles of the file of this name.
    Add(&'a [u8]),
    /// Replaces profiles by those of the file of this name.
    Replace(&'a [u8]),
    /// Removes the profiles that have the names of those of the file of this name.
    Remove(&'a [u8]),
    /// Sets the profile of this name to enforce mode.
    Enforce(&'a [u8]),
    /// Sets the profile of this name to complain mode.
    Complain(&'a [u8]),
    /// Disables the profile of this name.
    Disable(&'a [u8]),
}

/// A command.
#[derive(Clone, Copy)]
pub enum Command<'a> {
    /// Changes the policy set.
    Change(PolicyChange<'a>),
    /// Undoes as many changes, at least one.
    Undo(usize),
    /// Redoes as many changes, at least one.
    Redo(usize),
    /// Marks the policy set now by this name.
    Mark(&'a [u8]),
    /// Goes to the policy set that is marked by this name.
    Back(&'a [u8]),
    /// Answers a question.
    Ask(Question<'a>),
    /// Lists the names and states of what is loaded.
    List,
    /// Shows what the profile, child or hat of this full name has.
    Show(&'a [u8]),
}

/// The command of a line, or `None` where the line has only blanks. It takes no memory.
///
/// # Errors
///
/// - `BadCommand` where its quotes are bad, its first word is no command's, another number of words follows, or `undo` or `redo` is given something
///   that is no number from 1 to 999,999,999.
/// - Else as `Question::read` refuses a question.
pub fn read(line: &[u8]) -> Result<Option<Command<'_>>, Refusal>
    ensures ok { IfOk result (λ found. line_command (words_of line.now) ≡ Ok (option_map seen_command found)) }
    ensures refused { IfErr result (λ refusal. line_command (words_of line.now) ≡ Err refusal) }
    ensures well { IfOk result (λ found. IfSome found AsksWell) }
{
    let Ok(words) = Words::cut(line) else {
        return Err(plain(RefusalKind::BadCommand));
    };
    let [first, rest @ ..] = words.as_slice() else {
        return Ok(None);
    };
    Ok(Some(read_words(first, rest)?))
}

// The command of a first word and those after it.
fn read_words<'a>(first: &[u8], rest: &[&'a [u8]]) -> Result<Command<'a>, Refusal>
    ensures ok { IfOk result (λ command. command_of first.now (map (λ word. word.now) rest.now) ≡ Ok (seen_command command)) }
    ensures refused { IfErr result (λ refusal. command_of first.now (map (λ word. word.now) rest.now) ≡ Err refusal) }
    ensures well { IfOk result AsksWell }
{
    if first == b"undo".as_slice() {
        Ok(Command::Undo(read_count(rest)?))
    } else if first == b"redo".as_slice() {
        Ok(Command::Redo(read_count(rest)?))
    } else if first == b"mark".as_slice() {
        Ok(Command::Mark(the_word(rest)?))
    } else if first == b"back".as_slice() {
        Ok(Command::Back(the_word(rest)?))
    } else if first == b"ask".as_slice() {
        Ok(Command::Ask(Question::read(rest)?))
    } else if first == b"list".as_slice() {
        no_word(rest)?;
        Ok(Command::List)
    } else if first == b"show".as_slice() {
        Ok(Command::Show(the_word(rest)?))
    } else {
        read_change(first, rest)
    }
}

// The change of a first word and those after it.
fn read_change<'a>(first: &[u8], rest: &[&'a [u8]]) -> Result<Command<'a>, Refusal>
    ensures ok { IfOk result (λ command. change_command first.now (map (λ word. word.now) rest.now) ≡ Ok (seen_command command)) }
    ensures refused { IfErr result (λ refusal. change_command first.now (map (λ word. word.now) rest.now) ≡ Err refusal) }
    ensures well { IfOk result AsksWell }
{
    match rest {
        [name] => match change_of(first, name) {
            Some(change) => Ok(Command::Change(change)),
            None => Err(plain(RefusalKind::BadCommand)),
        },
        _ => Err(plain(RefusalKind::BadCommand)),
    }
}

// The change of a first word with the name after it, if it is the word of a change.
fn change_of<'a>(first: &[u8], name: &'a [u8]) -> Option<PolicyChange<'a>>
    ensures { option_map seen_change result ≡ change_of first.now name.now }
{
    if first == b"add".as_slice() {
        Some(PolicyChange::Add(name))
    } else if first == b"replace".as_slice() {
        Some(PolicyChange::Replace(name))
    } else if first == b"remove".as_slice() {
        Some(PolicyChange::Remove(name))
    } else if first == b"enforce".as_slice() {
        Some(PolicyChange::Enforce(name))
    } else if first == b"complain".as_slice() {
        Some(PolicyChange::Complain(name))
    } else if first == b"disable".as_slice() {
        Some(PolicyChange::Disable(name))
    } else {
        None
    }
}

// Refuses words after a command that takes none.
fn no_word(rest: &[&[u8]]) -> Result<(), Refusal>
    ensures ok { OnOk result (no_word (map (λ word. word.now) rest.now) ≡ Ok Listed) }
    ensures refused { IfErr result (λ refusal. no_word (map (λ word. word.now) rest.now) ≡ Err refusal) }
{
    if rest.is_empty() {
        Ok(())
    } else {
        Err(plain(RefusalKind::BadCommand))
    }
}

// The one word that a command takes.
fn the_word<'a>(rest: &[&'a [u8]]) -> Result<&'a [u8], Refusal>
    ensures ok { IfOk result (λ word. the_word (map (λ word. word.now) rest.now) ≡ Ok word.now) }
    ensures refused { IfErr result (λ refusal. the_word (map (λ word. word.now) rest.now) ≡ Err refusal) }
{
    match rest {
        [word] => Ok(word),
        _ => Err(plain(RefusalKind::BadCommand)),
    }
}

// How many changes to undo or redo.
fn read_count(rest: &[&[u8]]) -> Result<usize, Refusal>
    ensures ok { IfOk result (λ count. count_of (map (λ word. word.now) rest.now) ≡ Ok count) }
    ensures refused { IfErr result (λ refusal. count_of (map (λ word. word.now) rest.now) ≡ Err refusal) }
{
    match rest {
        [] => Ok(1),
        [word] if is_count(word) => Ok(number_of_digits(word)),
        _ => Err(plain(RefusalKind::BadCommand)),
    }
}

// Whether a word is a number of changes.
fn is_count(word: &[u8]) -> bool
    ensures { result ≡ is_count word.now }
{
    !word.is_empty() && word.len() <= MOST_DIGITS && are_digits(word) && number_of_digits(word) > 0
}

fn are_digits(word: &[u8]) -> bool
    ensures { result ≡ list_all is_digit word.now }
{
    word.iter().all(|byte| byte.is_ascii_digit())
}

// The number of some digits, which are few enough for it to fit.
fn number_of_digits(digits: &[u8]) -> usize
    requires few { length digits.now ≤ most_digits }
    requires digits { list_all is_digit digits.now ≡ true }
    ensures { result ≡ number_of_digits digits.now }
{
    let mut number = 0;
    for digit in digits {
        number = 10 * number + usize::from(*digit - b'0');
    }
    number
}
