//! The report on the candidates that may attach to a path.

ghost use Rattle.std.specs.Prelude.{◌≡◌, ◌++◌, OnOk};
ghost use Rattle.std.specs.Option.{option_map};
ghost use Rattle.aa_explain.specs.Candidates.{seen_candidate, seen_candidates};
ghost use Rattle.aatry_why.specs.AttachmentLines.{attachment_lines, candidate_line, headed, line_by, lines_from, standing_told, standing_words};

use aa_explain::{Candidate, Standing, best_pattern, patterns_of, rank_of, ranks_of, standing_of};
use aa_glob_pattern::Pattern;
use aa_set_answers::full_name;
use aatry_report::{Field, Form, Teller, push_heading, tell};
use std::alloc::AllocError;

// The words for how a candidate ranks.
fn standing_words(standing: Standing) -> &'static str
    ensures { result.now ≡ standing_words standing }
{
    match standing {
        Standing::Attached => "attached",
        Standing::Tied => "equally near",
        Standing::Lost => "not attached",
    }
}

// Appends how a candidate ranks, in words, by its full name and the pattern that fits the path best.
#[tactic(auto, unfolding(crate::specs::AttachmentLines::standing_told))]
fn push_standing<'x>(
    teller: Teller,
    standing: &'x str,
    name: &'x [u8],
    pattern: &'x [u8],
    out: &mut Vec<u8>,
) -> Result<(), AllocError>
    ensures { OnOk result (out.new.items ≡ out.old.items ++ standing_told teller.form standing.now name.now pattern.now) }
{
    tell(
        teller,
        "attachment",
        &[
            Field::Words("  "),
            Field::Word("standing", standing),
            Field::Words(": "),
            Field::Quoted("name", name),
            Field::Words(" by "),
            Field::Quoted("pattern", pattern),
        ],
        out,
    )
}

// Appends the line of a candidate, by the pattern that fits the path best; nothing where none matches.
fn push_line(
    teller: Teller,
    standing: Standing,
    candidate: Candidate<'_>,
    pattern: Option<&Pattern>,
    out: &mut Vec<u8>,
) -> Result<(), AllocError>
    ensures { OnOk result (out.new.items
        ≡ out.old.items ++ line_by teller.form standing (seen_candidate candidate.entry) (option_map (λ pattern. pattern.now) pattern.entry)) }
{
    let Some(pattern) = pattern else {
        return Ok(());
    };
    let name = full_name(teller.alloc, candidate.entry.profile(), candidate.child)?;
    push_standing(teller, standing_words(standing), &name, pattern.text(), out)
}

// Appends the line of the candidate at an index, by its rank among those of all candidates.
fn push_candidate(
    teller: Teller,
    path: &[u8],
    ranks: &[u128],
    place: usize,
    candidate: Candidate<'_>,
    out: &mut Vec<u8>,
) -> Result<(), AllocError>
    ensures { OnOk result (out.new.items ≡ out.old.items ++ candidate_line teller.form path.now ranks.now place (seen_candidate candidate.entry)) }
{
    let standing = standing_of(ranks, place, rank_of(path, candidate));
    let pattern = best_pattern(path, patterns_of(candidate));
    push_line(teller, standing, candidate, pattern, out)
}

// Appends the lines of candidates, by their ranks.
fn push_candidates(
    teller: Teller,
    path: &[u8],
    ranks: &[u128],
    candidates: &[Candidate<'_>],
    out: &mut Vec<u8>,
) -> Result<(), AllocError>
    ensures { OnOk result (out.new.items ≡ out.old.items ++ lines_from teller.form path.now ranks.now 0 (seen_candidates candidates.now)) }
{
    let mut place: usize = 0;
    let mut rest = candidates;
    while let [candidate, behind @ ..] = rest {
        push_candidate(teller, path, ranks, place, *candidate, out)?;
        place += 1;
        rest = behind;
    }
    Ok(())
}

// Appends a heading and lines below it; nothing where there is no line.
fn push_headed(form: Form, words: &str, lines: &[u8], out: &mut Vec<u8>) -> Result<(), AllocError>
    ensures { OnOk result (out.new.items ≡ out.old.items ++ headed form words.now lines.now) }
{
    if lines.is_empty() {
        return Ok(());
    }
    push_heading(form, words, out)?;
    out.extend_from_slice(lines)
}

/// Appends a line for each candidate that has a pattern which matches a path, below the word `attachment`: `attached:`, `equally near:` where it
/// fits the path best and so does another, or `not attached:`, with its full name and the pattern that fits best. As records, of the kind
/// `attachment`, these are `standing`, `name` and `pattern` of each, as they are, with no word above. Nothing where there is none.
///
/// # Errors
///
/// Where memory runs out. A beginning may have been appended then.
pub fn push_attachment(
    teller: Teller,
    path: &[u8],
    candidates: &[Candidate<'_>],
    out: &mut Vec<u8>,
) -> Result<(), AllocError>
    ensures { OnOk result (out.new.items ≡ out.old.items ++ attachment_lines teller.form path.now (seen_candidates candidates.now)) }
{
    let ranks = ranks_of(teller.alloc, path, candidates)?;
    let mut lines = Vec::new(teller.alloc);
    push_candidates(teller, path, &ranks, candidates, &mut lines)?;
    push_headed(teller.form, "attachment", &lines, out)
}
