//! Copies of the rules that are left of those that match a path.

ghost use Rattle.std.specs.Prelude.{◌≡◌, ◌++◌, ◌∷◌, [], IfOk, OnOk, map};
ghost use Rattle.aa_explain_paths.specs.Matched.{AreMatched};
ghost use Rattle.aa_explain_redundant.specs.Left.{left_of};
ghost use Rattle.aa_explain_redundant.specs.Seen.{seen_numbered};
ghost use Rattle.aa_explain_redundant.specs.code.Copies.{AreCounted, ArePathCopies};

use crate::written::{NumberedRule, is_made_of};
use aa_explain_paths::MatchedRules;
use aa_profile_data::Rule;
use std::alloc::{AllocError, Global};

/// Copies of rules, and the places of all of them.
#[derive(Drop)]
pub struct Copies {
    /// The rules.
    pub rules: Vec<Rule>,
    /// Their indices, from 0.
    pub places: Vec<usize>,
}

// Appends a copy of a rule.
fn push_copy(alloc: Global, rule: &Rule, copies: &mut Copies) -> Result<(), AllocError>
    ensures rules { OnOk result (copies.new.rules.items ≡ copies.old.rules.items ++ rule.now ∷ []) }
    ensures counted { OnOk result (AreCounted copies.old → AreCounted copies.new) }
{
    copies.places.push(copies.rules.len())?;
    copies.rules.push(rule.try_copy(alloc)?)?;
    Ok(())
}

// Appends a copy of a rule, unless it is one of those that are taken away.
fn push_left(
    alloc: Global,
    gone: &[usize],
    one: NumberedRule<'_>,
    copies: &mut Copies,
) -> Result<(), AllocError>
    ensures rules { OnOk result (copies.new.rules.items ≡ copies.old.rules.items ++ left_of gone.now (seen_numbered one.entry ∷ [])) }
    ensures counted { OnOk result (AreCounted copies.old → AreCounted copies.new) }
{
    if !is_made_of(gone, one) {
        push_copy(alloc, one.rule, copies)?;
    }
    Ok(())
}

/// Copies of the rules that are left where these written rules are taken away.
///
/// # Errors
///
/// Where memory runs out.
pub fn copies_left(
    alloc: Global,
    gone: &[usize],
    rules: &[NumberedRule<'_>],
) -> Result<Copies, AllocError>
    ensures rules { IfOk result (λ copies. copies.rules.items ≡ left_of gone.now (map seen_numbered rules.now)) }
    ensures counted { IfOk result AreCounted }
{
    let mut copies = Copies {
        rules: Vec::new(alloc),
        places: Vec::new(alloc),
    };
    let mut rest = rules;
    while let [one, behind @ ..] = rest {
        push_left(alloc, gone, *one, &mut copies)?;
        rest = behind;
    }
    Ok(copies)
}

/// Copies as rules that match a path. It takes no memory.
pub fn matched<'a>(path: &'a [u8], copies: &'a Copies) -> MatchedRules<'a>
    requires { ArePathCopies path.now copies.now }
    ensures matched { AreMatched result }
    ensures rules { result.rules.now ≡ copies.now.rules.items }
    ensures path { result.path.now ≡ path.now }
{
    MatchedRules {
        rules: &copies.rules,
        places: &copies.places,
        path,
    }
}
