//! The note on the files that are left out of a policy set.

ghost use Rattle.std.specs.Prelude.{◌≡◌, ◌++◌, OnOk};
ghost use Rattle.std.specs.Str.{bytes_eq};
ghost use Rattle.aa_start.specs.Options.{default_base};
ghost use Rattle.aatry_policy.specs.Notes.{base_option, files_text, language_option, left_out_count, note_on, several_text};

use aa_profile_parsing::Language;
use aa_set_commands::Refusal;
use aatry_folder::failed_by;
use aatry_report::{push_number, push_shown};
use std::alloc::AllocError;

// The folder of policy that a command reads where none is given.
const DEFAULT_BASE: &str = "/etc/apparmor.d";

// How many files are left out.
fn left_out_count(outcomes: &[Option<Refusal>]) -> usize
    ensures { result ≡ left_out_count outcomes.now }
{
    let mut number = 0;
    for outcome in outcomes {
        number += failed_by(outcome.is_none());
    }
    number
}

// Appends how many files there are to a text, like a note on several begins.
fn push_several(number: usize, out: &mut Vec<u8>) -> Result<(), AllocError>
    ensures { OnOk result (out.new.items ≡ out.old.items ++ several_text number) }
{
    push_number(out, "aatry: ", number)?;
    out.extend_from_slice(b" files")
}

// Appends how many files there are to a text, like any note begins.
fn push_files(number: usize, out: &mut Vec<u8>) -> Result<(), AllocError>
    ensures { OnOk result (out.new.items ≡ out.old.items ++ files_text number) }
{
    if number == 1 {
        out.extend_from_slice(b"aatry: 1 file")
    } else {
        push_several(number, out)
    }
}

// Appends the option with which a command reads policy by a language to a text, if it needs one.
fn push_language(language: Language, out: &mut Vec<u8>) -> Result<(), AllocError>
    ensures { OnOk result (out.new.items ≡ out.old.items ++ language_option language) }
{
    match language {
        Language::Three => out.extend_from_slice(b" --language 3"),
        Language::Four => Ok(()),
    }
}

// Whether a command reads this folder where none is given.
fn is_default(base: &str) -> bool
    ensures { result ≡ bytes_eq base.now default_base }
{
    base == DEFAULT_BASE
}

// Appends the option with which a command reads a folder to a text, if it needs one.
fn push_base(base: &str, out: &mut Vec<u8>) -> Result<(), AllocError>
    ensures { OnOk result (out.new.items ≡ out.old.items ++ base_option base.now) }
{
    if is_default(base) {
        return Ok(());
    }
    out.extend_from_slice(b" -b ")?;
    push_shown(out, base.as_bytes())
}

/// Appends the note on the files of a folder that are left out to a text: a line with how many there are, and the command that reports what is wrong
/// with each. Where none is left out, nothing is appended.
///
/// # Errors
///
/// Where memory runs out. A beginning may have been appended then.
pub fn push_note(
    language: Language,
    base: &str,
    outcomes: &[Option<Refusal>],
    out: &mut Vec<u8>,
) -> Result<(), AllocError>
    ensures { OnOk result (out.new.items ≡ out.old.items ++ note_on (left_out_count outcomes.now) language base.now) }
{
    let number = left_out_count(outcomes);
    if number == 0 {
        return Ok(());
    }
    push_files(number, out)?;
    out.extend_from_slice(b" left out: see aatry check")?;
    push_language(language, out)?;
    push_base(base, out)?;
    out.push(b'\n')?;
    Ok(())
}
