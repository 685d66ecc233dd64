//! The form of a command's report, verbose or not.

ghost use Rattle.std.specs.Prelude.{◌≡◌, drop, map, string_bytes};
ghost use Rattle.aatry_arguments.specs.Arguments.{asked};
ghost use Rattle.aa_start.specs.Options.{asked_as, asked_then};
ghost use Rattle.aatry_arguments.specs.Forms.{asked_by, asked_call, asked_in, at_length, call_with, in_records};
ghost use Rattle.aa_start.specs.Given.{IsGivenFor};
ghost use Rattle.aatry_arguments.specs.Given.{meant_call, meant_command};
ghost use Rattle.aatry_report.specs.declared.form.Form.TheVariants as form;

use crate::arguments::{Call, Command};
use crate::flags::{is_given, without_flag};
use crate::languages::by_language;
use crate::reading::command_behind;
use aa_profile_parsing::Language;
use aa_start::ArgumentFault;
use aatry_report::Form;
use std::alloc::Global;

// The flag that asks for records.
const JSON: &str = "--json";

// The flag that asks for verbose lines.
const VERBOSE: &str = "--verbose";

// A command whose report is in lines.
fn in_lines(language: Language, command: Command) -> Call
    ensures { meant_call result ≡ call_with language form.Lines (meant_command command) }
{
    Call {
        language,
        form: Form::Lines,
        verbose: false,
        command,
    }
}

// A command whose report is in records: a test and a session have none.
fn in_records(language: Language, command: Command) -> Result<Call, ArgumentFault>
    ensures { IsGivenFor meant_call (in_records language (meant_command command)) result }
{
    match command {
        Command::Test(_) | Command::Session(_) => Err(ArgumentFault::Bad),
        command => Ok(Call {
            language,
            form: Form::Records,
            verbose: false,
            command,
        }),
    }
}

// The call that words ask for, none of which asks for records.
fn call_in_lines(alloc: Global, language: Language, words: &[String]) -> Result<Call, ArgumentFault>
    ensures { IsGivenFor meant_call (asked_as (call_with language form.Lines) (asked (map string_bytes words.now))) result }
{
    match command_behind(alloc, words) {
        Ok(command) => Ok(in_lines(language, command)),
        Err(fault) => Err(fault),
    }
}

// The call that words ask for beside the flag that asks for records.
fn call_in_records(
    alloc: Global,
    language: Language,
    words: &[String],
) -> Result<Call, ArgumentFault>
    ensures { IsGivenFor meant_call (asked_then (in_records language) (asked (map string_bytes words.now))) result }
{
    match command_behind(alloc, words) {
        Ok(command) => in_records(language, command),
        Err(fault) => Err(fault),
    }
}

// The call that words ask for by a language.
fn call_in(alloc: Global, language: Language, words: &[String]) -> Result<Call, ArgumentFault>
    ensures { IsGivenFor meant_call (asked_in language (map string_bytes words.now)) result }
{
    if !is_given(JSON, words) {
        return call_in_lines(alloc, language, words);
    }
    match without_flag(alloc, JSON, words) {
        Ok(others) => call_in_records(alloc, language, &others),
        Err(_) => Err(ArgumentFault::Memory),
    }
}

// A verbose call: of a command that may leave out files.
fn at_length(call: Call) -> Result<Call, ArgumentFault>
    ensures { IsGivenFor meant_call (at_length (meant_call call)) result }
{
    let Call {
        language,
        form,
        command,
        ..
    } = call;
    match command {
        Command::Check(_) | Command::Test(_) | Command::Session(_) => Err(ArgumentFault::Bad),
        command => Ok(Call {
            language,
            form,
            verbose: true,
            command,
        }),
    }
}

// The call that words ask for by a language beside the flag that asks for verbose lines.
fn call_at_length(
    alloc: Global,
    language: Language,
    words: &[String],
) -> Result<Call, ArgumentFault>
    ensures { IsGivenFor meant_call (asked_then at_length (asked_in language (map string_bytes words.now))) result }
{
    match call_in(alloc, language, words) {
        Ok(call) => at_length(call),
        Err(fault) => Err(fault),
    }
}

// The call that words ask for by a language, verbose or not.
fn call_by(alloc: Global, language: Language, words: &[String]) -> Result<Call, ArgumentFault>
    ensures { IsGivenFor meant_call (asked_by language (map string_bytes words.now)) result }
{
    if !is_given(VERBOSE, words) {
        return call_in(alloc, language, words);
    }
    match without_flag(alloc, VERBOSE, words) {
        Ok(others) => call_at_length(alloc, language, &others),
        Err(_) => Err(ArgumentFault::Memory),
    }
}

// The call that the words after the program's own name ask for.
fn call_behind(alloc: Global, words: &[String]) -> Result<Call, ArgumentFault>
    ensures { IsGivenFor meant_call (asked_call (map string_bytes words.now)) result }
{
    match by_language(alloc, words) {
        Ok(Some(read)) => call_by(alloc, read.language, &read.words),
        Ok(None) => Err(ArgumentFault::Bad),
        Err(_) => Err(ArgumentFault::Memory),
    }
}

/// The command that is asked for by the words that the program was started with, the language by which it reads policy, and the form of its report.
///
/// The first word is the program's own name, whatever it is, and the second is the command's name. After `check` a word is a NAME, after `test` a
/// FILE, after `who` and `why` a word of the question, and after `diff` a folder, unless it is an option: a hyphen followed by more. After `session`
/// there are only options. After `log` a word is the path of a log. After the word `--` none is an option.
///
/// `-b` takes the path of the folder of policy, and after `diff`, which has no `-b`, `--log` and `--questions` take the path of a file. The path
/// follows the option in its word, without one `=` between them after `-b` and with it after the others, or else it is the next word, which then is
/// no option and no `--`. Such an option may come before, between and after the other words, and where it is given again, the last counts.
///
/// The word `--json`, before the first `--`, asks for records, and is none of the words above: the command is the one that the other words ask for.
/// Nor is `--verbose` there, which asks for verbose lines, with each file that is left out; nor `--strict` after `log`, which asks for a status that
/// shows lines without an answer, or `--rules`, which asks for rules that can be pasted; nor `--accept` after `test`; nor `--all` after `diff`,
/// which asks for a comparison for all paths: there names may follow the two folders, and `--log` and `--questions` can't be given. Nor are the word
/// `--language` and the one after it, or a word that begins with `--language=`, before the first `--`: they name a language by its number, 3 or 4.
/// Where one is named again, the last counts, and where none is, policy is read by language 4 (docs/policy.md, "Languages").
///
/// # Errors
///
/// - `Help` where there is no second word, or it is `--help` or `-h`. After a command, where the first option that takes no path is one of these,
///   with or without other letters after `-h`.
/// - `Version` where the second word is `--version` or `-V`.
/// - `Bad` where the second word is any other. After a command, where the first option that takes no path is any other, or where one that takes a
///   path comes before it without one. After `test`, where there is no FILE. After `who` and `why`, where the question has no word. After `diff`,
///   where there aren't exactly two folders, or both `--log` and `--questions` are given; with `--all`, where there are fewer than two words that
///   are no options, one of those two options is given, or `--limit` has no number. After `session`, where there is a word that is no option. Where
///   records are asked for of `test` or `session`, or verbose lines of `check`, `test` or `session`, or a word that has to name a language names
///   none.
/// - `Memory` where memory ran out.
pub fn call_of(alloc: Global, words: &[String]) -> Result<Call, ArgumentFault>
    ensures { IsGivenFor meant_call (asked_call (drop 1 (map string_bytes words.now))) result }
{
    match words {
        [_, behind @ ..] => call_behind(alloc, behind),
        [] => call_behind(alloc, words),
    }
}
