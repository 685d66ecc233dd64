//! What is told of who is asked about.

ghost use Rattle.std.specs.Prelude.{◌≡◌, ◌++◌, IfOk, OnOk};
ghost use Rattle.aa_explain_paths.specs.Answers.{seen_breaking};
ghost use Rattle.aatry_claims.specs.Found.{seen_found};
ghost use Rattle.aatry_claims.specs.SeenClaimed.{seen_claimed};
ghost use Rattle.aatry_report.specs.SeenFields.{seen_field};
ghost use Rattle.aatry_claims.specs.Sentences.{absent_told, breaking_between, breaking_by, breaking_may, breaking_told, breaking_words, claim_word, found_told, holds_between, holds_by, holds_told, holds_which, holds_words, owner_note, owner_word};

use crate::breaking::Claimed;
use crate::found::{Finding, Found};
use crate::letters::push_letter_words;
use crate::modes::{mode_field, mode_note};
use aa_explain_paths::{Breaking, Claim, PathAnswer};
use aa_profile_data::Perms;
use aatry_report::{Field, Teller, push_shown, tell};
use std::alloc::{AllocError, Global};

// The word of an answer where the claim holds.
fn claim_word(claim: Claim) -> &'static str
    ensures { result.now ≡ claim_word claim }
{
    match claim {
        Claim::Never => "never",
        Claim::Always => "always",
    }
}

/// Whether a file is the task's user's, in a word.
pub fn owner_word(owned: bool) -> &'static str
    ensures { result.now ≡ owner_word owned }
{
    if owned { "owner" } else { "other" }
}

/// Whose file it is, after its path, where it is the task's user's.
pub fn owner_note(owned: bool) -> &'static str
    ensures { result.now ≡ owner_note owned }
{
    if owned { ", of the owner" } else { "" }
}

/// Appends that nobody has a name to a text; as a record of the kind `absent`, with the name (`name`).
///
/// # Errors
///
/// Where memory runs out. A beginning may have been appended then.
pub fn push_absent(teller: Teller, name: &[u8], out: &mut Vec<u8>) -> Result<(), AllocError>
    ensures { OnOk result (out.new.items ≡ out.old.items ++ absent_told teller.form name.now) }
{
    tell(
        teller,
        "absent",
        &[
            Field::Words("absent: nobody has the name "),
            Field::Text("name", name),
        ],
        out,
    )
}

// The words between letters, where the claim holds.
fn holds_between(claim: Claim) -> &'static str
    ensures { result.now ≡ holds_between claim }
{
    match claim {
        Claim::Never => " or ",
        Claim::Always => " and ",
    }
}

// The words on which paths are meant, where the claim holds.
fn holds_which(claim: Claim) -> &'static str
    ensures { result.now ≡ holds_which claim }
{
    match claim {
        Claim::Never => " no path that ",
        Claim::Always => " each path that ",
    }
}

// The words behind the name of one for whom the claim holds, up to how many kinds of paths there are.
fn holds_words(alloc: Global, claimed: Claimed<'_>) -> Result<Vec<u8>, AllocError>
    ensures { IfOk result (λ text. text.items ≡ holds_words (seen_claimed claimed.entry)) }
{
    let mut text = Vec::from_slice(alloc, b" may ")?;
    push_letter_words(
        claimed.words.letters,
        holds_between(claimed.claim),
        &mut text,
    )?;
    text.extend_from_slice(holds_which(claimed.claim).as_bytes())?;
    push_shown(&mut text, claimed.words.pattern)?;
    text.extend_from_slice(b" matches (kinds of paths: ")?;
    Ok(text)
}

// Appends that the claim holds for who has a name to a text, and of how many kinds of paths, by the words behind the name.
#[tactic(auto, unfolding(crate::specs::Sentences::holds_by))]
fn push_holds_by<'x>(
    teller: Teller,
    answer: &'x str,
    name: &'x [u8],
    words: &'x [u8],
    count: usize,
    note: &'x str,
    mode: Field<'x>,
    out: &mut Vec<u8>,
) -> Result<(), AllocError>
    ensures { OnOk result (out.new.items
        ≡ out.old.items ++ holds_by teller.form answer.now name.now words.now count note.now (seen_field mode.entry)) }
{
    tell(
        teller,
        "paths",
        &[
            Field::Word("answer", answer),
            Field::Words(": "),
            Field::Text("who", name),
            Field::Bytes(words),
            Field::Number("kinds", count),
            Field::Words(")"),
            Field::Words(note),
            mode,
        ],
        out,
    )
}

// Appends that the claim holds for who is asked about to a text.
fn push_holds(
    teller: Teller,
    claimed: Claimed<'_>,
    found: &Found<'_>,
    count: usize,
    out: &mut Vec<u8>,
) -> Result<(), AllocError>
    ensures { OnOk result (out.new.items ≡ out.old.items ++ holds_told teller.form (seen_claimed claimed.entry) (seen_found found.now) count) }
{
    let words = holds_words(teller.alloc, claimed)?;
    let answer = claim_word(claimed.claim);
    let note = mode_note(found.part);
    let mode = mode_field(found.part);
    push_holds_by(teller, answer, found.name, &words, count, note, mode, out)
}

// The words on what a path that breaks the claim allows, or doesn't allow.
fn breaking_may(claim: Claim) -> &'static str
    ensures { result.now ≡ breaking_may claim }
{
    match claim {
        Claim::Never => " may ",
        Claim::Always => " may not ",
    }
}

// The words between its letters.
fn breaking_between(claim: Claim) -> &'static str
    ensures { result.now ≡ breaking_between claim }
{
    match claim {
        Claim::Never => " and ",
        Claim::Always => " or ",
    }
}

// The words before a path that breaks the claim.
fn breaking_words(alloc: Global, claim: Claim, letters: Perms) -> Result<Vec<u8>, AllocError>
    ensures { IfOk result (λ text. text.items ≡ breaking_words claim letters.0) }
{
    let mut text = Vec::new(alloc);
    text.extend_from_slice(breaking_may(claim).as_bytes())?;
    push_letter_words(letters, breaking_between(claim), &mut text)?;
    text.extend_from_slice(b" ")?;
    Ok(text)
}

// Appends a path that breaks the claim for who has a name to a text, by the words between them, whose file it is, and its letters.
#[tactic(auto, unfolding(crate::specs::Sentences::breaking_by))]
fn push_breaking_by<'x>(
    teller: Teller,
    name: &'x [u8],
    words: &'x [u8],
    path: &'x [u8],
    owned: &'x str,
    letters: &'x [u8],
    note: &'x str,
    mode: Field<'x>,
    out: &mut Vec<u8>,
) -> Result<(), AllocError>
    ensures { OnOk result (out.new.items
        ≡ out.old.items ++ breaking_by teller.form name.now words.now path.now owned.now letters.now note.now (seen_field mode.entry)) }
{
    tell(
        teller,
        "paths",
        &[
            Field::Word("answer", "no"),
            Field::Words(": "),
            Field::Text("who", name),
            Field::Bytes(words),
            Field::Text("path", path),
            Field::Words(" ("),
            Field::Word("owned", owned),
            Field::Words(")"),
            Field::Words(note),
            Field::Member("letters", letters),
            mode,
        ],
        out,
    )
}

// Appends a path that breaks the claim for who is asked about to a text.
fn push_breaking(
    teller: Teller,
    claim: Claim,
    found: &Found<'_>,
    breaking: &Breaking,
    out: &mut Vec<u8>,
) -> Result<(), AllocError>
    ensures { OnOk result (out.new.items ≡ out.old.items ++ breaking_told teller.form claim (seen_found found.now) (seen_breaking breaking.now)) }
{
    let words = breaking_words(teller.alloc, claim, breaking.letters)?;
    let mut letters = Vec::new(teller.alloc);
    breaking.letters.push_letters(&mut letters)?;
    let owned = owner_word(breaking.owned);
    let note = mode_note(found.part);
    let mode = mode_field(found.part);
    push_breaking_by(
        teller,
        found.name,
        &words,
        &breaking.path,
        owned,
        &letters,
        note,
        mode,
        out,
    )
}

/// Appends what is told of who is asked about to a text: the answer in a word, and a sentence. As a record this is of the kind `paths`.
///
/// # Errors
///
/// Where memory runs out. A beginning may have been appended then.
pub fn push_found(
    teller: Teller,
    claimed: Claimed<'_>,
    found: &Found<'_>,
    out: &mut Vec<u8>,
) -> Result<(), AllocError>
    ensures { OnOk result (out.new.items ≡ out.old.items ++ found_told teller.form (seen_claimed claimed.entry) (seen_found found.now)) }
{
    match &found.finding {
        Finding::Absent => tell(
            teller,
            "paths",
            &[
                Field::Word("answer", "absent"),
                Field::Words(": nobody has the name "),
                Field::Text("who", found.name),
            ],
            out,
        ),
        Finding::ByRules(PathAnswer::Holds(count)) => {
            push_holds(teller, claimed, found, *count, out)
        }
        Finding::ByRules(PathAnswer::Fails(breaking)) => {
            push_breaking(teller, claimed.claim, found, breaking, out)
        }
        Finding::ByRules(PathAnswer::TooMany) => tell(
            teller,
            "paths",
            &[
                Field::Word("answer", "many"),
                Field::Words(": "),
                Field::Text("who", found.name),
                Field::Words(" has too many different paths: see --limit"),
                Field::Words(mode_note(found.part)),
                mode_field(found.part),
            ],
            out,
        ),
    }
}
