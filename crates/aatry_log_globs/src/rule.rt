//! Wider rules than those on one path, as a profile's file writes them.

ghost use Rattle.std.specs.Prelude.{◌≡◌, ◌++◌, ◌∷◌, [], IfOk, OnOk, codes};
ghost use Rattle.std.specs.Option.{option_map};
ghost use Rattle.aa_bytes.specs.Bytes.{comma, quote, space};
ghost use Rattle.aa_explain_written.specs.Written.{access_text, owner_text, word_text};
ghost use Rattle.aatry_log_globs.specs.Rules.{rule_with, wider_rule};

use crate::widening::wider;
use aa_bytes::push_quoted;
use aa_profile_data::{FileRule, Transition};
use std::alloc::{AllocError, Global};

// Appends the exec word of a rule to a text, where it has one.
fn push_word(out: &mut Vec<u8>, exec: &Option<Transition>) -> Result<(), AllocError>
    ensures { OnOk result (out.new.items ≡ out.old.items ++ word_text exec.now) }
{
    match exec {
        None => Ok(()),
        Some(transition) => out.extend_from_slice(transition.word.text().as_bytes()),
    }
}

// Appends what comes before the pattern of a rule to a text.
fn push_opening(out: &mut Vec<u8>, owner: bool) -> Result<(), AllocError>
    ensures { OnOk result (out.new.items ≡ out.old.items ++ owner_text owner ++ codes "file ") }
{
    if owner {
        out.extend_from_slice(b"owner ")?;
    }
    out.extend_from_slice(b"file ")
}

// Appends what follows the pattern of a rule to a text.
fn push_access(out: &mut Vec<u8>, rule: &FileRule) -> Result<(), AllocError>
    ensures { OnOk result (out.new.items ≡ out.old.items ++ space ∷ access_text rule.now ++ comma ∷ []) }
{
    out.push(b' ')?;
    rule.access.push_letters(out)?;
    push_word(out, &rule.exec)?;
    out.push(b',')?;
    Ok(())
}

// A rule on files with a pattern in place of its own.
fn rule_with(alloc: Global, pattern: &[u8], rule: &FileRule) -> Result<Vec<u8>, AllocError>
    ensures { IfOk result (λ text. text.items ≡ rule_with pattern.now rule.now) }
{
    let mut text = Vec::new(alloc);
    push_opening(&mut text, rule.owner)?;
    push_quoted(&mut text, pattern)?;
    push_access(&mut text, rule)?;
    Ok(text)
}

/// The rule with the wider pattern for a path (`wider`) in place of its own, as a profile's file writes it; `None` where nothing of the path is
/// widened.
///
/// # Errors
///
/// Where memory runs out.
pub fn wider_rule(
    alloc: Global,
    rule: &FileRule,
    path: &[u8],
) -> Result<Option<Vec<u8>>, AllocError>
    ensures { IfOk result (λ made. option_map (λ text. text.items) made ≡ wider_rule rule.now path.now) }
{
    match wider(alloc, path)? {
        None => Ok(None),
        Some(pattern) => Ok(Some(rule_with(alloc, &pattern, rule)?)),
    }
}
