//! What rules allow of a file, by those that match its path.

ghost use Rattle.std.specs.Prelude.{◌≡◌, false};
ghost use Rattle.aa_decide_rules.specs.Verdict.{verdict};
ghost use Rattle.aa_decide_rules.specs.declared.judgement.Mediation.TheVariants.{Enforcing};
ghost use Rattle.aa_profile_data.specs.Request.{ForFile};
ghost use Rattle.aa_explain_paths.specs.Matched.{AreMatched};
ghost use Rattle.aa_explain_paths.specs.Claims.{are_let, breaking_letters, breaks, breaks_for, first_owner, is_let, let_letters, some_is_let, with_let};

use crate::matched::MatchedRules;
use crate::question::{Claim, Whose};
use aa_decide_rules::{Answer, Mediation, Verdict, found_verdict, what_matching_rules_decide};
use aa_profile_data::{Perms, Request};
use bitflags::Flags;

/// The verdict of rules in enforce mode on these letters of a file, by those that match its path; `audit` says whether each rule is audited. It
/// takes no memory.
pub fn matched_verdict(
    audit: bool,
    matched: MatchedRules<'_>,
    letters: Perms,
    owned: bool,
) -> Verdict
    requires { AreMatched matched }
    ensures { result ≡ verdict Enforcing audit matched.entry.rules.now (ForFile letters.0 owned matched.entry.path.now) }
{
    what_matching_rules_decide();
    let request = Request::File {
        needs: letters,
        owned,
        path: matched.path,
    };
    found_verdict(
        Mediation::Enforcing,
        audit,
        matched.rules,
        matched.places,
        &request,
        owned,
    )
}

// Whether rules allow all these letters of a file.
fn are_let(matched: MatchedRules<'_>, letters: Perms, owned: bool) -> bool
    requires { AreMatched matched }
    ensures { result ≡ are_let matched.entry.rules.now letters.0 owned matched.entry.path.now }
{
    let verdict = matched_verdict(false, matched, letters, owned);
    matches!(verdict.answer, Answer::Allow)
}

// Whether a letter is among some, and rules allow it.
fn is_let(matched: MatchedRules<'_>, letters: Perms, owned: bool, letter: Perms) -> bool
    requires { AreMatched matched }
    ensures { result ≡ is_let matched.entry.rules.now letters.0 owned matched.entry.path.now letter.0 }
{
    letters.intersects(letter) && are_let(matched, letter, owned)
}

// Whether rules allow one of these letters of a file.
fn some_is_let(matched: MatchedRules<'_>, letters: Perms, owned: bool) -> bool
    requires { AreMatched matched }
    ensures { result ≡ some_is_let matched.entry.rules.now letters.0 owned matched.entry.path.now }
{
    is_let(matched, letters, owned, Perms::READ)
        || is_let(matched, letters, owned, Perms::WRITE)
        || is_let(matched, letters, owned, Perms::APPEND)
        || is_let(matched, letters, owned, Perms::LINK)
        || is_let(matched, letters, owned, Perms::LOCK)
        || is_let(matched, letters, owned, Perms::MAP)
        || is_let(matched, letters, owned, Perms::EXEC)
}

// Whether a path breaks a claim, by what rules allow of a file of the task's user, or of another's.
fn breaks(claim: Claim, matched: MatchedRules<'_>, letters: Perms, owned: bool) -> bool
    requires { AreMatched matched }
    ensures { result ≡ breaks claim matched.entry.rules.now letters.0 matched.entry.path.now owned }
{
    match claim {
        Claim::Never => some_is_let(matched, letters, owned),
        Claim::Always => !are_let(matched, letters, owned),
    }
}

/// Whether a path breaks a claim about the files of `whose`. It takes no memory.
pub fn breaks_for(claim: Claim, matched: MatchedRules<'_>, letters: Perms, whose: Whose) -> bool
    requires { AreMatched matched }
    ensures { result ≡ breaks_for claim matched.entry.rules.now letters.0 whose matched.entry.path.now }
{
    match whose {
        Whose::Owner => breaks(claim, matched, letters, true),
        Whose::Other => breaks(claim, matched, letters, false),
        Whose::Any => {
            breaks(claim, matched, letters, false) || breaks(claim, matched, letters, true)
        }
    }
}

/// Whether the task's user owns the file of a path that breaks a claim (`ask_all_paths`): not where a file of another user breaks it as well. It
/// takes no memory.
pub fn first_owner(claim: Claim, matched: MatchedRules<'_>, letters: Perms, whose: Whose) -> bool
    requires { AreMatched matched }
    ensures { result ≡ first_owner claim matched.entry.rules.now letters.0 whose matched.entry.path.now }
{
    match whose {
        Whose::Owner => true,
        Whose::Other => false,
        Whose::Any => !breaks(claim, matched, letters, false),
    }
}

// A set with one more letter, if it is among some, and rules allow it.
fn with_let(
    set: Perms,
    matched: MatchedRules<'_>,
    letters: Perms,
    owned: bool,
    letter: Perms,
) -> Perms
    requires { AreMatched matched }
    ensures { result.0 ≡ with_let matched.entry.rules.now letters.0 owned matched.entry.path.now set.0 letter.0 }
{
    if is_let(matched, letters, owned, letter) {
        set.union(letter)
    } else {
        set
    }
}

// Those of these letters of a file that rules allow.
fn let_letters(matched: MatchedRules<'_>, letters: Perms, owned: bool) -> Perms
    requires { AreMatched matched }
    ensures { result.0 ≡ let_letters matched.entry.rules.now letters.0 owned matched.entry.path.now }
{
    let mut set = Perms::empty();
    set = with_let(set, matched, letters, owned, Perms::READ);
    set = with_let(set, matched, letters, owned, Perms::WRITE);
    set = with_let(set, matched, letters, owned, Perms::APPEND);
    set = with_let(set, matched, letters, owned, Perms::LINK);
    set = with_let(set, matched, letters, owned, Perms::LOCK);
    set = with_let(set, matched, letters, owned, Perms::MAP);
    with_let(set, matched, letters, owned, Perms::EXEC)
}

/// The letters by which the file of a path breaks a claim: for `Never` those that are allowed, and for `Always` those that aren't. It takes no
/// memory.
pub fn breaking_letters(
    claim: Claim,
    matched: MatchedRules<'_>,
    letters: Perms,
    owned: bool,
) -> Perms
    requires { AreMatched matched }
    ensures { result.0 ≡ breaking_letters claim matched.entry.rules.now letters.0 matched.entry.path.now owned }
{
    let set = let_letters(matched, letters, owned);
    match claim {
        Claim::Never => set,
        Claim::Always => letters.difference(set),
    }
}
