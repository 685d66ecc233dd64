//! Assertions, asked of a policy set.

ghost use Rattle.std.specs.Prelude.{◌≡◌, ◌++◌, ℕ, List, IfOk, OnOk, [], map};
ghost use Rattle.aatry_test.specs.Asserting.{IsAskedOf, IsAsked, IsAsserted, IsClaimAsked, all_hold, nothing_line, unheld_line, unheld_lines};
ghost use Rattle.aatry_test.specs.Claims.{claimed_in};
ghost use Rattle.aatry_claims.specs.Found.{seen_found};
ghost use Rattle.aatry_claims.specs.Patterns.{asked_patterns};
ghost use Rattle.aatry_claims.specs.SeenClaimed.{seen_claimed};
ghost use Rattle.aatry_claims.specs.Sentences.{is_held};
ghost use Rattle.aatry_policy.specs.SeenProfiles.{seen_part};

use crate::claims::claimed_in;
use aa_explain_paths::PathQuestion;
use aa_glob_pattern::Pattern;
use aa_profile_parsing::Language;
use aa_set_commands::Words;
use aa_set_manager::PolicySet;
use aa_text_files::Files;
use aatry_claims::{
    Claimed, Found, Inquiry, asked_patterns, every_rule, find, is_held, push_found,
};
use aatry_policy::{Part, parts_of};
use aatry_report::{Form, Teller};
use std::alloc::{AllocError, Global};

// How many sets of states are looked at, at most, for each name that is asked about: as many as by `aatry never` where no limit is given.
const MOST_SETS: usize = 262_144;

// Appends the line on a name for which a claim doesn't hold to a text, and returns whether it holds.
fn push_unheld(
    alloc: Global,
    claimed: Claimed<'_>,
    found: &Found<'_>,
    out: &mut Vec<u8>,
) -> Result<bool, AllocError>
    ensures told { OnOk result (out.new.items ≡ out.old.items ++ unheld_line (seen_claimed claimed.entry) (seen_found found.now)) }
    ensures held { IfOk result (λ held. held ≡ is_held (seen_found found.now).finding) }
{
    if is_held(&found.finding) {
        return Ok(true);
    }
    let teller = Teller {
        alloc,
        form: Form::Lines,
        verbose: false,
    };
    out.extend_from_slice(b"+ ")?;
    push_found(teller, claimed, found, out)?;
    Ok(false)
}

// Appends the lines on all names for which a claim doesn't hold to a text, and returns whether it holds for all.
fn push_all_unheld(
    alloc: Global,
    claimed: Claimed<'_>,
    found: &[Found<'_>],
    out: &mut Vec<u8>,
) -> Result<bool, AllocError>
    ensures told { OnOk result (out.new.items ≡ out.old.items ++ unheld_lines (seen_claimed claimed.entry) (map seen_found found.now)) }
    ensures held { IfOk result (λ held. held ≡ all_hold (map seen_found found.now)) }
{
    let mut all = true;
    let mut rest = found;
    while let [one, behind @ ..] = rest {
        let held = push_unheld(alloc, claimed, one, out)?;
        all = all && held;
        rest = behind;
    }
    Ok(all)
}

// Appends the report on a claim on the paths of some patterns to a text, where it doesn't hold, and returns whether it holds.
fn push_asked(
    alloc: Global,
    parts: &[Part<'_>],
    claimed: Claimed<'_>,
    patterns: &[Pattern],
    out: &mut Vec<u8>,
) -> Result<bool, AllocError>
    ensures { IfOk result (λ holds. (told : List ℕ) × (out.new.items ≡ out.old.items ++ told)
        × IsAskedOf (map seen_part parts.now) (seen_claimed claimed.entry) patterns.now holds told) }
{
    let question = PathQuestion {
        claim: claimed.claim,
        letters: claimed.words.letters,
        whose: claimed.words.whose,
        patterns,
    };
    let all = [every_rule(alloc)?];
    let inquiry = Inquiry {
        question,
        limit: MOST_SETS,
        parts,
        all: &all,
    };
    let found = find(alloc, inquiry, claimed.words.whom)?;
    push_all_unheld(alloc, claimed, &found, out)
}

// Appends the report on a claim, asked of a policy set, to a text, where it doesn't hold, and returns whether it holds.
fn push_claimed(
    alloc: Global,
    language: Language,
    files: &Files,
    set: &PolicySet<'_>,
    claimed: Claimed<'_>,
    out: &mut Vec<u8>,
) -> Result<bool, AllocError>
    ensures { IfOk result (λ holds. (told : List ℕ) × (out.new.items ≡ out.old.items ++ told)
        × IsClaimAsked set.now (seen_claimed claimed.entry) (asked_patterns language files.now (seen_claimed claimed.entry).words.pattern) holds told) }
{
    let Some(patterns) = asked_patterns(alloc, language, files, claimed.words.pattern)? else {
        out.extend_from_slice(b"+ invalid assertion: PATTERN is not valid in a rule\n")?;
        return Ok(false);
    };
    let parts = parts_of(alloc, set, &[])?;
    push_asked(alloc, &parts, claimed, &patterns, out)
}

// Appends that nothing is asserted to a text.
fn push_nothing(out: &mut Vec<u8>) -> Result<(), AllocError>
    ensures { OnOk result (out.new.items ≡ out.old.items ++ nothing_line) }
{
    out.extend_from_slice(
        b"+ invalid assertion: after ! come never or always, ACCESS, OWNED, PATTERN, and up to three WHO\n",
    )
}

// Appends the report on the words of an assertion to a text, where it doesn't hold, and returns whether it holds.
fn push_words(
    alloc: Global,
    language: Language,
    files: &Files,
    set: &PolicySet<'_>,
    words: &[&[u8]],
    out: &mut Vec<u8>,
) -> Result<bool, AllocError>
    ensures { IfOk result (λ holds. (told : List ℕ) × (out.new.items ≡ out.old.items ++ told)
        × IsAsked language files.now set.now (claimed_in (map (λ word. word.now) words.now)) holds told) }
{
    match claimed_in(words) {
        Some(claimed) => push_claimed(alloc, language, files, set, claimed, out),
        None => {
            push_nothing(out)?;
            Ok(false)
        }
    }
}

/// Appends the report on an assertion to a text, where it doesn't hold of a policy set, and returns whether it holds: a line for each name for which
/// it doesn't, as `aatry never` prints it, after `+ `. An assertion that claims nothing doesn't hold, and neither does one whose pattern no rule can
/// have; that is reported. `files` are those whose variables the pattern may have.
///
/// # Errors
///
/// Where memory runs out. A beginning may have been appended then.
pub fn push_assertion(
    alloc: Global,
    language: Language,
    files: &Files,
    set: &PolicySet<'_>,
    assertion: &[u8],
    out: &mut Vec<u8>,
) -> Result<bool, AllocError>
    ensures { IfOk result (λ holds. (told : List ℕ) × (out.new.items ≡ out.old.items ++ told) × IsAsserted language files.now set.now assertion.now holds told) }
{
    match Words::cut(assertion) {
        Ok(words) => push_words(alloc, language, files, set, words.as_slice(), out),
        Err(_) => {
            push_nothing(out)?;
            Ok(false)
        }
    }
}
