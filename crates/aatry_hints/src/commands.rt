//! The commands, and the options of each; and the first option among words that is unknown, or that a command doesn't take.

ghost use Rattle.std.specs.Prelude.{◌≡◌, map, option_map, string_bytes};
ghost use Rattle.aatry_hints.specs.Commands.{is_taken, not_taken_by, not_taken_in, own_options, own_options_by, unknown_in};
ghost use Rattle.aatry_hints.specs.Parts.{parts};

use crate::options::{is_known, is_word_of};
use crate::parts::{Part, first_part};

/// The commands.
pub const COMMANDS: [&str; 10] = [
    "check", "why", "log", "who", "never", "always", "reach", "diff", "session", "test",
];

// The options that every command takes.
const COMMON: [&str; 4] = ["--language", "--color", "--help", "-h"];

// The options that a command, or some of them, take beside these.
const CHECK: [&str; 6] = [
    "-b",
    "--json",
    "--verbose",
    "--rules",
    "--included",
    "--limit",
];

const ASKING: [&str; 3] = ["-b", "--json", "--verbose"];

const LOG: [&str; 9] = [
    "-b",
    "--json",
    "--verbose",
    "--denied",
    "--profile",
    "--since",
    "--rules",
    "--globs",
    "--strict",
];

const CLAIM: [&str; 5] = ["-b", "--json", "--verbose", "--names", "--limit"];

const REACH: [&str; 5] = ["-b", "--json", "--verbose", "--dot", "--limit"];

const DIFF: [&str; 8] = [
    "--json",
    "--verbose",
    "--log",
    "--questions",
    "--stat",
    "--all",
    "--quiet-audit",
    "--limit",
];

const SESSION: [&str; 1] = ["-b"];

const TEST: [&str; 2] = ["-b", "--accept"];

// The options that a command takes beside those of every command; `None` where no command has the name.
fn own_options(command: &[u8]) -> Option<&'static [&'static str]>
    ensures { option_map (λ names. map (λ name. name.now) names.now) result ≡ own_options command.now }
{
    if command == b"check".as_slice() {
        Some(&CHECK)
    } else if command == b"why".as_slice() {
        Some(&ASKING)
    } else if command == b"log".as_slice() {
        Some(&LOG)
    } else if command == b"who".as_slice() {
        Some(&ASKING)
    } else if command == b"never".as_slice() {
        Some(&CLAIM)
    } else if command == b"always".as_slice() {
        Some(&CLAIM)
    } else if command == b"reach".as_slice() {
        Some(&REACH)
    } else if command == b"diff".as_slice() {
        Some(&DIFF)
    } else if command == b"session".as_slice() {
        Some(&SESSION)
    } else if command == b"test".as_slice() {
        Some(&TEST)
    } else {
        None
    }
}

/// The options that the command of a word takes beside those of every command, if there is one. It takes no memory.
pub fn own_options_by(command: Option<&[u8]>) -> Option<&'static [&'static str]>
    ensures { option_map (λ names. map (λ name. name.now) names.now) result ≡ own_options_by (option_map (λ word. word.now) command.entry) }
{
    match command {
        None => None,
        Some(command) => own_options(command),
    }
}

/// Whether a command with these options of its own takes an option. It takes no memory.
pub fn is_taken(own: &[&str], name: &[u8]) -> bool
    ensures { result ≡ is_taken (map (λ name. name.now) own.now) name.now }
{
    is_word_of(&COMMON, name) || is_word_of(own, name)
}

/// The name of the first word that has the form of an option and is none. It takes no memory.
pub fn unknown_in(words: &[String]) -> Option<&[u8]>
    ensures { option_map (λ name. name.now) result ≡ unknown_in (parts (map string_bytes words.now)) }
{
    let mut rest = words;
    while let Some((part, behind)) = first_part(rest) {
        if let Part::Given(name, _) = part
            && !is_known(name)
        {
            return Some(name);
        }
        rest = behind;
    }
    None
}

// The first option among some words that a command with these options of its own doesn't take.
fn not_taken_in<'a>(own: &[&str], words: &'a [String]) -> Option<&'a [u8]>
    ensures { option_map (λ name. name.now) result ≡ not_taken_in (map (λ name. name.now) own.now) (parts (map string_bytes words.now)) }
{
    let mut rest = words;
    while let Some((part, behind)) = first_part(rest) {
        if let Part::Given(name, _) = part
            && !is_taken(own, name)
        {
            return Some(name);
        }
        rest = behind;
    }
    None
}

/// The first option among some words that a command with these options of its own doesn't take, if there is such a command. It takes no memory.
pub fn not_taken_by<'a>(own: Option<&[&str]>, words: &'a [String]) -> Option<&'a [u8]>
    ensures { option_map (λ name. name.now) result
        ≡ not_taken_by (option_map (λ names. map (λ name. name.now) names.now) own.entry) (parts (map string_bytes words.now)) }
{
    match own {
        None => None,
        Some(own) => not_taken_in(own, words),
    }
}
