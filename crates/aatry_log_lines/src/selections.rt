//! Which lines of a log count.

ghost use Rattle.std.specs.Prelude.{◌≡◌, IfOk, option_map};
ghost use Rattle.aatry_log_lines.specs.Selections.{ends_name, is_another, is_before, is_of_another, is_passed_over, is_undenied, is_within};
ghost use Rattle.aatry_log_lines.specs.Selections.{seen_selection, tells_undenied, word_in};
ghost use Rattle.aatry_log_lines.specs.code.Askers.{seen_asker};

use crate::lines::{Asker, asker_of, tells_request};
use crate::pairs::value_of;
use crate::stamps::time_in;
use crate::values::quoted_text;
use aa_bytes::{begins_with, behind};
use std::alloc::{AllocError, Global};

/// Which lines of a log count. A line is passed over that shows by itself that it isn't one of them.
#[derive(Clone, Copy)]
pub struct Selection<'s> {
    /// Whether only lines count that log a request as DENIED.
    pub denied: bool,
    /// The profile whose requests count, by its full name, with its children and hats, if only those of one do.
    pub profile: Option<&'s [u8]>,
    /// The first second, since 1970, with which a line may be stamped, if there is one.
    pub since: Option<u64>,
}

// The word of a line that is the answer to a request, or something else.
fn word_in(line: &[u8]) -> Option<&[u8]>
    ensures { option_map (λ word. word.now) result ≡ word_in line.now }
{
    match value_of(line, b"apparmor=") {
        Some(value) => quoted_text(value),
        None => quoted_text(value_of(line, b"msg='apparmor=")?),
    }
}

// Whether a word says that a request wasn't denied.
fn is_undenied(word: &[u8]) -> bool
    ensures { result ≡ is_undenied word.now }
{
    tells_request(word) && word != b"DENIED".as_slice()
}

// Whether a line logs a request that wasn't denied.
fn tells_undenied(line: &[u8]) -> bool
    ensures { result ≡ tells_undenied line.now }
{
    match word_in(line) {
        Some(word) => is_undenied(word),
        None => false,
    }
}

// Whether a name may end before this text: it is empty, or the name of a child or hat.
fn ends_name(rest: &[u8]) -> bool
    ensures { result ≡ ends_name rest.now }
{
    rest.is_empty() || begins_with(b"//", rest)
}

// Whether an asker is the profile of a name, or a child or hat of it.
fn is_within(name: &[u8], who: &[u8]) -> bool
    ensures { result ≡ is_within name.now who.now }
{
    begins_with(name, who) && ends_name(behind(name.len(), who))
}

// Whether the asker is one by a name that can be read, and isn't the profile of a name, or a child or hat of it.
fn is_another(name: &[u8], asker: &Asker<'_>) -> bool
    ensures { result ≡ is_another name.now (seen_asker asker.now) }
{
    match asker {
        Asker::One(Some(who)) => !is_within(name, who.as_slice()),
        Asker::One(None) | Asker::Several => false,
    }
}

// Whether the asker of a line is another than the selected profile, if one is selected.
fn is_of_another(alloc: Global, name: Option<&[u8]>, line: &[u8]) -> Result<bool, AllocError>
    ensures { IfOk result (λ is. is ≡ is_of_another (option_map (λ name. name.now) name.entry) line.now) }
{
    let Some(name) = name else {
        return Ok(false);
    };
    Ok(is_another(name, &asker_of(alloc, line)?))
}

// Whether a time is before the first one that counts, if both are there.
fn is_before(since: Option<u64>, time: Option<u64>) -> bool
    ensures { result ≡ is_before since time }
{
    match (since, time) {
        (Some(since), Some(time)) => time < since,
        _ => false,
    }
}

/// Whether a line that is no record of the journal is passed over. It takes memory only for the asker's name where the line has it in hexadecimal.
///
/// # Errors
///
/// Where memory runs out.
pub fn is_passed_over(
    alloc: Global,
    selection: Selection<'_>,
    line: &[u8],
) -> Result<bool, AllocError>
    ensures { IfOk result (λ is. is ≡ is_passed_over (seen_selection selection.entry) line.now) }
{
    if is_before(selection.since, time_in(line)) {
        return Ok(true);
    }
    if selection.denied && tells_undenied(line) {
        return Ok(true);
    }
    is_of_another(alloc, selection.profile, line)
}
