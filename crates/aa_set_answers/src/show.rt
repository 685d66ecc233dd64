//! The lines that show a loaded profile, or a child or hat of it.

ghost use Rattle.std.specs.Prelude.{◌≡◌, ◌++◌, IfOk, OnOk, Some, flat_map};
ghost use Rattle.std.specs.Option.{option_copied};
ghost use Rattle.aa_set_answers.specs.Children.{lines_of_children};
ghost use Rattle.aa_set_answers.specs.RuleLines.{rule_line};
ghost use Rattle.aa_set_answers.specs.Show.{attachment_line, attachment_text, body_lines, child_line, child_word};
ghost use Rattle.aa_set_answers.specs.Show.{head_line, own_lines, show_lines};

use crate::rule_lines::{push_if, push_rule_line};
use crate::states::push_state;
use aa_bytes::push_text;
use aa_decide_ready::Entry;
use aa_glob_pattern::Pattern;
use aa_profile_data::{Child, Rule};
use std::alloc::{AllocError, Global};

// Appends the first line to a text: the full name and the state, and whether the flag `audit` is set.
fn push_head(
    text: &mut Vec<u8>,
    alloc: Global,
    entry: &Entry,
    child: Option<usize>,
    audit: bool,
) -> Result<(), AllocError>
    ensures { OnOk result (text.new.items ≡ text.old.items ++ head_line entry.now child audit) }
{
    text.extend_from_slice(b"profile ")?;
    push_state(text, alloc, entry, child)?;
    push_if(text, audit, " audit")?;
    text.push(b'\n')?;
    Ok(())
}

/// Appends an attachment to a text, as `show` prints it.
///
/// # Errors
///
/// Where memory runs out. A beginning may have been appended then.
pub fn push_attachment(text: &mut Vec<u8>, pattern: &Pattern) -> Result<(), AllocError>
    ensures { OnOk result (text.new.items ≡ text.old.items ++ attachment_text pattern.now) }
{
    text.extend_from_slice(b"attach ")?;
    push_text(text, pattern.text())
}

// Appends the line of an attachment to a text.
fn push_attachment_line(text: &mut Vec<u8>, pattern: &Pattern) -> Result<(), AllocError>
    ensures { OnOk result (text.new.items ≡ text.old.items ++ attachment_line pattern.now) }
{
    text.extend_from_slice(b"  ")?;
    push_attachment(text, pattern)?;
    text.push(b'\n')?;
    Ok(())
}

// Appends the lines of attachments to a text.
fn push_attachments(text: &mut Vec<u8>, patterns: &[Pattern]) -> Result<(), AllocError>
    ensures { OnOk result (text.new.items ≡ text.old.items ++ flat_map attachment_line patterns.now) }
{
    for pattern in patterns {
        push_attachment_line(text, pattern)?;
    }
    Ok(())
}

// Appends the lines of rules to a text.
fn push_rules(text: &mut Vec<u8>, rules: &[Rule]) -> Result<(), AllocError>
    ensures { OnOk result (text.new.items ≡ text.old.items ++ flat_map rule_line rules.now) }
{
    for rule in rules {
        push_rule_line(text, rule)?;
    }
    Ok(())
}

// Appends the lines of attachments and of rules to a text.
fn push_body(text: &mut Vec<u8>, attachments: &[Pattern], rules: &[Rule]) -> Result<(), AllocError>
    ensures { OnOk result (text.new.items ≡ text.old.items ++ body_lines attachments.now rules.now) }
{
    push_attachments(text, attachments)?;
    push_rules(text, rules)
}

// The word before the full name of a child or a hat.
fn child_word(hat: bool) -> &'static str
    ensures { result.now ≡ child_word hat }
{
    if hat { "  hat " } else { "  child " }
}

// Appends the line of the child or hat at an index of a profile to a text.
fn push_child_line(
    text: &mut Vec<u8>,
    alloc: Global,
    entry: &Entry,
    place: usize,
    child: &Child,
) -> Result<(), AllocError>
    ensures { OnOk result (text.new.items ≡ text.old.items ++ child_line entry.now place child.now) }
{
    text.extend_from_slice(child_word(child.hat).as_bytes())?;
    push_state(text, alloc, entry, Some(place))?;
    text.push(b'\n')?;
    Ok(())
}

// Appends the lines of these children and hats of a profile to a text.
fn push_child_lines(
    text: &mut Vec<u8>,
    alloc: Global,
    entry: &Entry,
    children: &[Child],
) -> Result<(), AllocError>
    ensures { OnOk result (text.new.items ≡ text.old.items ++ lines_of_children (child_line entry.now) children.now) }
{
    for (place, child) in children.iter().enumerate() {
        push_child_line(text, alloc, entry, place, child)?;
    }
    Ok(())
}

// Appends the lines of a profile to a text.
fn push_profile(text: &mut Vec<u8>, alloc: Global, entry: &Entry) -> Result<(), AllocError>
    ensures { OnOk result (text.new.items ≡ text.old.items ++ show_lines entry.now None) }
{
    let profile = entry.profile();
    push_head(text, alloc, entry, None, profile.audit)?;
    push_body(
        text,
        profile.attachments.as_slice(),
        profile.rules.as_slice(),
    )?;
    push_child_lines(text, alloc, entry, profile.children.as_slice())
}

// Appends the lines of the child or hat at an index of a profile to a text, if there is one.
fn push_child(
    text: &mut Vec<u8>,
    alloc: Global,
    entry: &Entry,
    place: usize,
    child: Option<&Child>,
) -> Result<(), AllocError>
    ensures { OnOk result (text.new.items ≡ text.old.items ++ own_lines entry.now place (option_copied child.entry)) }
{
    let Some(child) = child else {
        return Ok(());
    };
    push_head(text, alloc, entry, Some(place), child.audit)?;
    push_body(text, child.attachments.as_slice(), child.rules.as_slice())
}

/// The lines that show a loaded profile, or its child or hat at an index (docs/commands.md, "What is loaded"): its full name and its state, its
/// attachments and its rules in the order of the file, and for a profile also the full names and the states of its children and hats. Each line ends
/// with a line feed. Where there is no child or hat at the index, there is no line.
///
/// # Errors
///
/// Where memory runs out.
pub fn show_lines(alloc: Global, entry: &Entry, child: Option<usize>) -> Result<Vec<u8>, AllocError>
    ensures { IfOk result (λ lines. lines.items ≡ show_lines entry.now child) }
{
    let mut text = Vec::new(alloc);
    match child {
        None => push_profile(&mut text, alloc, entry)?,
        Some(place) => {
            let own = entry.profile().children.as_slice().get(place);
            push_child(&mut text, alloc, entry, place, own)?;
        }
    }
    Ok(text)
}
