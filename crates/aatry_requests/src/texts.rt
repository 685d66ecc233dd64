//! How questions are printed.

ghost use Rattle.std.specs.Prelude.{◌≡◌, ◌++◌, OnOk, codes, option_map};
ghost use Rattle.aa_profile_data.specs.Access.{letters_of};
ghost use Rattle.aa_profile_data.specs.TableNames.{name_or_none};
ghost use Rattle.aa_set_commands.specs.Question.{seen_question};
ghost use Rattle.aatry_questions.specs.Names.{name_text};
ghost use Rattle.aatry_requests.specs.Texts.{owned_text, question_text};

use aa_profile_data::{Perms, capability_name, domain_name, kind_name};
use aa_set_commands::Question;
use aatry_questions::push_name as push_quoted_name;
use std::alloc::AllocError;

// Appends a word and the name of the asker to a text.
fn push_asker(out: &mut Vec<u8>, word: &[u8], who: &[u8]) -> Result<(), AllocError>
    ensures { OnOk result (out.new.items ≡ out.old.items ++ word.now ++ name_text who.now) }
{
    out.extend_from_slice(word)?;
    push_quoted_name(out, who)
}

// Appends whether a file is owned, and its path, to a text.
fn push_file(out: &mut Vec<u8>, owned: bool, path: &[u8]) -> Result<(), AllocError>
    ensures { OnOk result (out.new.items ≡ out.old.items ++ owned_text owned ++ name_text path.now) }
{
    let word = if owned { b" owner " } else { b" other " };
    out.extend_from_slice(word)?;
    push_quoted_name(out, path)
}

// Appends the letters that are asked for of a file to a text.
fn push_needs(out: &mut Vec<u8>, needs: Perms) -> Result<(), AllocError>
    ensures { OnOk result (out.new.items ≡ out.old.items ++ codes " " ++ letters_of needs.0) }
{
    out.push(b' ')?;
    needs.push_letters(out)
}

// Appends a name of a table to a text.
fn push_name(out: &mut Vec<u8>, name: Option<&str>) -> Result<(), AllocError>
    ensures { OnOk result (out.new.items ≡ out.old.items ++ codes " " ++ name_or_none (option_map (λ name. name.now) name.entry)) }
{
    out.push(b' ')?;
    if let Some(name) = name {
        out.extend_from_slice(name.as_bytes())?;
    }
    Ok(())
}

/// Appends a question to a text, in `ask`'s words, with names as `aatry_questions::push_name` writes them.
///
/// # Errors
///
/// Where memory runs out. A part of it may have been appended then.
pub fn push_question(out: &mut Vec<u8>, question: &Question<'_>) -> Result<(), AllocError>
    ensures { OnOk result (out.new.items ≡ out.old.items ++ question_text (seen_question question.entry.now)) }
{
    match question {
        Question::File {
            who,
            needs,
            owned,
            path,
        } => {
            push_asker(out, b"file ", who)?;
            push_needs(out, *needs)?;
            push_file(out, *owned, path)
        }
        Question::Exec { who, owned, path } => {
            push_asker(out, b"exec ", who)?;
            push_file(out, *owned, path)
        }
        Question::Cap { who, number } => {
            push_asker(out, b"cap ", who)?;
            push_name(out, capability_name(*number))
        }
        Question::Net { who, domain, kind } => {
            push_asker(out, b"net ", who)?;
            push_name(out, domain_name(*domain))?;
            push_name(out, kind_name(*kind))
        }
    }
}
