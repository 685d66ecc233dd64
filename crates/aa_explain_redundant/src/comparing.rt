//! Whether a path is answered differently without some rules.

ghost use Rattle.std.specs.Prelude.{◌≡◌, IfOk};
ghost use Rattle.std.specs.List.{list_any};
ghost use Rattle.aa_decide_rules.specs.Choices.{choice};
ghost use Rattle.aa_decide_rules.specs.SeenChoices.{seen_choice};
ghost use Rattle.aa_explain_paths.specs.Claims.{single_letters};
ghost use Rattle.aa_profile_data.specs.SameRules.{same_flag};
ghost use Rattle.aa_explain_redundant.specs.code.Copies.{ArePathCopies};
ghost use Rattle.aa_explain_redundant.specs.code.Comparing.{AreCompared, all_side, answers_change, answers_change_for, left_side, letter_changes, same_choice, start_changes};

use crate::copies::{Copies, matched};
use aa_decide_rules::{ExecChoice, exec_choice};
use aa_explain_changes::change_between;
use aa_explain_paths::matched_verdict;
use aa_profile_data::Perms;
use std::alloc::{AllocError, Global};

/// The rules that match a path, all of them and those that are left.
#[derive(Clone, Copy)]
pub struct Compared<'a> {
    /// Whether each rule is audited.
    pub audit: bool,
    /// The path.
    pub path: &'a [u8],
    /// All rules that match the path.
    pub all: &'a Copies,
    /// The rules of them that are left.
    pub left: &'a Copies,
}

// Whether a letter of a file is answered or logged differently.
fn letter_changes(compared: Compared<'_>, letter: Perms, owned: bool) -> bool
    requires { AreCompared compared }
    ensures { result ≡ letter_changes (all_side compared.entry) (left_side compared.entry) compared.entry.path.now owned letter.0 }
{
    let all = matched(compared.path, compared.all);
    let left = matched(compared.path, compared.left);
    let before = matched_verdict(compared.audit, all, letter, owned);
    let now = matched_verdict(compared.audit, left, letter, owned);
    change_between(false, before, now).is_change()
}

// Whether one of the letters is answered or logged differently.
fn some_letter_changes(compared: Compared<'_>, owned: bool) -> bool
    requires { AreCompared compared }
    ensures { result ≡ list_any (letter_changes (all_side compared.entry) (left_side compared.entry) compared.entry.path.now owned) single_letters }
{
    letter_changes(compared, Perms::READ, owned)
        || letter_changes(compared, Perms::WRITE, owned)
        || letter_changes(compared, Perms::APPEND, owned)
        || letter_changes(compared, Perms::LINK, owned)
        || letter_changes(compared, Perms::LOCK, owned)
        || letter_changes(compared, Perms::MAP, owned)
        || letter_changes(compared, Perms::EXEC, owned)
}

// Whether two flags are equal.
fn same_flag(one: bool, other: bool) -> bool
    ensures { result ≡ same_flag one other }
{
    one == other
}

// Whether two choices for a start are the same.
fn same_choice(one: ExecChoice<'_>, other: ExecChoice<'_>) -> bool
    ensures { result ≡ same_choice (seen_choice one.entry) (seen_choice other.entry) }
{
    match (one, other) {
        (ExecChoice::Denied { audited: one }, ExecChoice::Denied { audited: other }) => {
            same_flag(one, other)
        }
        (ExecChoice::Missing, ExecChoice::Missing) => true,
        (
            ExecChoice::Leading {
                transition: one,
                audited: loud,
            },
            ExecChoice::Leading {
                transition: other,
                audited: other_loud,
            },
        ) => one.is_same(other) && same_flag(loud, other_loud),
        _ => false,
    }
}

// The choice of rules for the start of the program of a path.
fn choice_by<'a>(
    alloc: Global,
    audit: bool,
    path: &[u8],
    copies: &'a Copies,
    owned: bool,
) -> Result<ExecChoice<'a>, AllocError>
    requires { ArePathCopies path.now copies.now }
    ensures { IfOk result (λ found. seen_choice found ≡ choice audit owned path.now copies.now.rules.items) }
{
    exec_choice(alloc, audit, &copies.rules, &copies.places, owned)
}

// Whether the choice for the start of the program of the path differs.
fn start_changes(alloc: Global, compared: Compared<'_>, owned: bool) -> Result<bool, AllocError>
    requires { AreCompared compared }
    ensures { IfOk result (λ changes. changes ≡ start_changes (all_side compared.entry) (left_side compared.entry) compared.entry.path.now owned) }
{
    let all = choice_by(alloc, compared.audit, compared.path, compared.all, owned)?;
    let left = choice_by(alloc, compared.audit, compared.path, compared.left, owned)?;
    Ok(!same_choice(all, left))
}

// Whether a file of the task's user, or of another's, is answered differently.
fn answers_change_for(
    alloc: Global,
    compared: Compared<'_>,
    owned: bool,
) -> Result<bool, AllocError>
    requires { AreCompared compared }
    ensures { IfOk result (λ changes. changes ≡ answers_change_for (all_side compared.entry) (left_side compared.entry) compared.entry.path.now owned) }
{
    if some_letter_changes(compared, owned) {
        return Ok(true);
    }
    start_changes(alloc, compared, owned)
}

/// Whether the path is answered differently.
///
/// # Errors
///
/// Where memory runs out.
pub fn answers_change(alloc: Global, compared: Compared<'_>) -> Result<bool, AllocError>
    requires { AreCompared compared }
    ensures { IfOk result (λ changes. changes ≡ answers_change (all_side compared.entry) (left_side compared.entry) compared.entry.path.now) }
{
    if answers_change_for(alloc, compared, false)? {
        return Ok(true);
    }
    answers_change_for(alloc, compared, true)
}
