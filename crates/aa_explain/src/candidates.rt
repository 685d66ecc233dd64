//! Profiles and children that may attach to a path.

ghost use Rattle.std.specs.Prelude.{◌≡◌, IfOk, None, map};
ghost use Rattle.aa_decide_ready.specs.Slots.{filled};
ghost use Rattle.aa_explain.specs.Candidates.{child_candidates, children_from, patterns_of, profile_candidates};
ghost use Rattle.aa_explain.specs.Candidates.{rank_of, seen_candidate, seen_candidates};

use aa_decide_ready::Entry;
use aa_decide_rules::rank_of_best;
use aa_glob_pattern::Pattern;
use aa_profile_data::Child;
use std::alloc::{AllocError, Global};

/// A profile or a child that may attach to a path.
#[derive(Clone, Copy)]
pub struct Candidate<'a> {
    /// The loaded profile.
    pub entry: &'a Entry,
    /// The index of the child or hat; `None` where that is the profile itself.
    pub child: Option<usize>,
}

/// Each profile in some slots.
///
/// # Errors
///
/// Where memory runs out.
pub fn profile_candidates<'a>(
    alloc: Global,
    slots: &'a [Option<Entry>],
) -> Result<Vec<Candidate<'a>>, AllocError>
    ensures { IfOk result (λ found. seen_candidates found.items ≡ profile_candidates (filled slots.now)) }
{
    let mut found = Vec::new(alloc);
    let mut rest = slots;
    while let [slot, behind @ ..] = rest {
        if let Some(entry) = slot {
            found.push(Candidate { entry, child: None })?;
        }
        rest = behind;
    }
    Ok(found)
}

// Each of these children and hats of a profile.
fn children_of<'a>(
    alloc: Global,
    entry: &'a Entry,
    children: &[Child],
) -> Result<Vec<Candidate<'a>>, AllocError>
    ensures { IfOk result (λ found. seen_candidates found.items ≡ children_from entry.now 0 children.now) }
{
    let mut found = Vec::new(alloc);
    let mut place: usize = 0;
    let mut rest = children;
    while let [_, behind @ ..] = rest {
        found.push(Candidate {
            entry,
            child: Some(place),
        })?;
        place += 1;
        rest = behind;
    }
    Ok(found)
}

/// Each child and hat of a profile.
///
/// # Errors
///
/// Where memory runs out.
pub fn child_candidates(alloc: Global, entry: &Entry) -> Result<Vec<Candidate<'_>>, AllocError>
    ensures { IfOk result (λ found. seen_candidates found.items ≡ child_candidates entry.now) }
{
    children_of(alloc, entry, entry.profile().children.as_slice())
}

// The patterns by which a profile may attach to a path: one that is disabled has none.
fn own_patterns(entry: &Entry) -> &[Pattern]
    ensures { result.now ≡ patterns_of (record { entry = entry.now; child = None }) }
{
    if entry.state().is_in_force() {
        entry.profile().attachments.as_slice()
    } else {
        &[]
    }
}

/// The patterns by which a candidate may attach to a path: a profile that is disabled has none. It takes no memory.
pub fn patterns_of<'a>(candidate: Candidate<'a>) -> &'a [Pattern]
    ensures { result.now ≡ patterns_of (seen_candidate candidate.entry) }
{
    match candidate.child {
        None => own_patterns(candidate.entry),
        Some(place) => candidate.entry.ready().section(Some(place)).attachments,
    }
}

/// The rank of a candidate on a path, 0 where none of its patterns matches (docs/policy.md, "Exec and attachment"). It takes no memory; each pattern
/// is matched by itself.
pub fn rank_of(path: &[u8], candidate: Candidate<'_>) -> u128
    ensures { result ≡ rank_of path.now (seen_candidate candidate.entry) }
{
    rank_of_best(path, patterns_of(candidate))
}

/// The rank of each candidate on a path.
///
/// # Errors
///
/// Where memory runs out.
pub fn ranks_of(
    alloc: Global,
    path: &[u8],
    candidates: &[Candidate<'_>],
) -> Result<Vec<u128>, AllocError>
    ensures { IfOk result (λ ranks. ranks.items ≡ map (rank_of path.now) (seen_candidates candidates.now)) }
{
    let mut ranks = Vec::new(alloc);
    let mut rest = candidates;
    while let [candidate, behind @ ..] = rest {
        ranks.push(rank_of(path, *candidate))?;
        rest = behind;
    }
    Ok(ranks)
}
