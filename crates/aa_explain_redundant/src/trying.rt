//! Written rules tried one after another.

ghost use Rattle.std.specs.Prelude.{◌≡◌, IfOk, List, OnOk, map};
ghost use Rattle.std.specs.List.{All};
ghost use Rattle.aa_explain_redundant.specs.Left.{Numbered, can_be_told, speaks};
ghost use Rattle.aa_explain_redundant.specs.Seen.{seen_numbered};
ghost use Rattle.aa_explain_redundant.specs.code.Kinds.{IsKind, changes_on, paths_of_kinds, some_change, told_by, told_unless, told_with};

use crate::comparing::{Compared, answers_change};
use crate::copies::copies_left;
use crate::kinds::Kind;
use crate::written::{NumberedRule, is_made_of, stays_named};
use std::alloc::{AllocError, Global};

// Whether one of some rules is a rule on files that was made of a written rule.
fn speaks(number: usize, rules: &[NumberedRule<'_>]) -> bool
    ensures { result ≡ speaks number (map seen_numbered rules.now) }
{
    let numbers = [number];
    let mut rest = rules;
    while let [one, behind @ ..] = rest {
        if is_made_of(&numbers, *one) {
            return true;
        }
        rest = behind;
    }
    false
}

// Whether the path of a kind is answered differently without these written rules, of which this one was taken away last.
fn kind_changes(
    alloc: Global,
    audit: bool,
    gone: &[usize],
    number: usize,
    kind: &Kind<'_>,
) -> Result<bool, AllocError>
    requires { (rules : List Numbered) × IsKind rules kind.now }
    ensures { IfOk result (λ changes. (rules : List Numbered)
        → IsKind rules kind.now
        → changes ≡ changes_on audit rules gone.now number kind.now.path.items) }
{
    if !speaks(number, &kind.rules) {
        return Ok(false);
    }
    let left = copies_left(alloc, gone, &kind.rules)?;
    let compared = Compared {
        audit,
        path: &kind.path,
        all: &kind.all,
        left: &left,
    };
    answers_change(alloc, compared)
}

// Whether the path of one of some kinds is answered differently.
fn some_kind_changes(
    alloc: Global,
    audit: bool,
    gone: &[usize],
    number: usize,
    kinds: &[Kind<'_>],
) -> Result<bool, AllocError>
    requires { (rules : List Numbered) × All (IsKind rules) kinds.now }
    ensures { IfOk result (λ changes. (rules : List Numbered)
        → All (IsKind rules) kinds.now
        → changes ≡ some_change audit rules (paths_of_kinds kinds.now) gone.now number) }
{
    let mut rest = kinds;
    while let [kind, behind @ ..] = rest {
        if kind_changes(alloc, audit, gone, number, kind)? {
            return Ok(true);
        }
        rest = behind;
    }
    Ok(false)
}

// Appends a written rule to those that decide nothing, unless a path is answered differently without them all.
fn push_unless(
    alloc: Global,
    audit: bool,
    number: usize,
    kinds: &[Kind<'_>],
    told: &mut Vec<usize>,
) -> Result<(), AllocError>
    requires { (rules : List Numbered) × All (IsKind rules) kinds.now }
    ensures { OnOk result ((rules : List Numbered)
        → All (IsKind rules) kinds.now
        → told.new.items ≡ told_unless audit rules (paths_of_kinds kinds.now) told.old.items number) }
{
    told.push(number)?;
    if some_kind_changes(alloc, audit, told, number, kinds)? {
        told.pop();
    }
    Ok(())
}

// Whether a written rule can be redundant: a rule on files was made of it, and it isn't in the result yet.
fn can_be_told(rules: &[NumberedRule<'_>], told: &[usize], number: usize) -> bool
    ensures { result ≡ can_be_told (map seen_numbered rules.now) told.now number }
{
    speaks(number, rules) && stays_named(told, number)
}

// Tries a written rule.
fn try_one(
    alloc: Global,
    audit: bool,
    number: usize,
    rules: &[NumberedRule<'_>],
    kinds: &[Kind<'_>],
    told: &mut Vec<usize>,
) -> Result<(), AllocError>
    requires { All (IsKind (map seen_numbered rules.now)) kinds.now }
    ensures { OnOk result (told.new.items ≡ told_with audit (map seen_numbered rules.now) (paths_of_kinds kinds.now) told.old.items number) }
{
    if can_be_told(rules, told, number) {
        push_unless(alloc, audit, number, kinds, told)?;
    }
    Ok(())
}

/// Those of some written rules without which the paths of these kinds are answered the same: each of them, where those before it in the result are
/// taken away.
///
/// # Errors
///
/// Where memory runs out.
pub fn told_by(
    alloc: Global,
    audit: bool,
    tried: &[usize],
    rules: &[NumberedRule<'_>],
    kinds: &[Kind<'_>],
) -> Result<Vec<usize>, AllocError>
    requires { All (IsKind (map seen_numbered rules.now)) kinds.now }
    ensures { IfOk result (λ told. told.items ≡ told_by audit (map seen_numbered rules.now) (paths_of_kinds kinds.now) tried.now) }
{
    let mut told = Vec::new(alloc);
    let mut rest = tried;
    while let [number, behind @ ..] = rest {
        try_one(alloc, audit, *number, rules, kinds, &mut told)?;
        rest = behind;
    }
    Ok(told)
}
