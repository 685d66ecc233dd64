//! In a word, what a change of policy changes of a profile, child or hat.

ghost use Rattle.std.specs.Prelude.{◌≡◌, IfOk, map, option_map};
ghost use Rattle.aa_explain_diff.specs.Features.{same_state};
ghost use Rattle.aatry_path_changes.specs.Finding.{OfBoth, seen_both, seen_finding, seen_found};
ghost use Rattle.aatry_path_changes.specs.Kinds.{differs_beside, differs_in_files, files_differ, gained_beside, has_otherwise, has_undecided, is_otherwise, is_same, is_undecided, is_unknown, kind_by, kind_of, kind_of_both, kind_with, kinds_of, lost_beside, mode_change, some_told, starts_differ};

use crate::finding::{BothFound, Finding, Found};
use crate::others::{has_gained, has_lost, is_gained, is_lost};
use crate::starts::{has_gained_start, has_lost_start};
use aa_explain_changes::{Change, FileChanges, RuleChange};
use aa_explain_diff::Feature;
use aa_explain_start_changes::StartChange;
use aa_profile_data::Mode;
use std::alloc::{AllocError, Global};

/// In a word, what is found of a full name.
#[derive(Clone, Copy)]
pub enum Kind {
    /// Nothing is answered otherwise.
    Same,
    /// Something is allowed now that wasn't, a program is started now that wasn't, or the mode lets more through, and
    /// nothing isn't any more.
    Wider,
    /// The other way round.
    Narrower,
    /// There is both.
    Both,
    /// Neither: answers are logged otherwise, or denied where they were refused, or the other way round, a program is
    /// started to run elsewhere, or it is disabled and was in mode unconfined, or the other way round.
    Otherwise,
    /// The old folder alone has somebody of the name.
    Gone,
    /// The new folder alone has.
    New,
    /// Both have, and paths are too many, of files or of starts.
    TooMany,
    /// Nobody has the name.
    Absent,
}

/// Whether two are in the same mode, or both disabled.
pub fn same_state(one: Option<Mode>, other: Option<Mode>) -> bool
    ensures { result ≡ same_state one other }
{
    Feature::Mode(one) == Feature::Mode(other)
}

// What a change of the mode alone changes.
fn mode_change(old: Option<Mode>, new: Option<Mode>) -> Change
    ensures { result ≡ mode_change old new }
{
    match (old, new) {
        (None, None)
        | (Some(Mode::Enforce), Some(Mode::Enforce))
        | (Some(Mode::Complain), Some(Mode::Complain))
        | (Some(Mode::Unconfined), Some(Mode::Unconfined)) => Change::Same,
        (None, Some(Mode::Unconfined)) | (Some(Mode::Unconfined), None) => Change::Otherwise,
        (Some(Mode::Enforce), Some(Mode::Complain | Mode::Unconfined) | None)
        | (Some(Mode::Complain), Some(Mode::Unconfined) | None) => Change::Gained,
        (Some(Mode::Complain | Mode::Unconfined) | None, Some(Mode::Enforce))
        | (Some(Mode::Unconfined) | None, Some(Mode::Complain)) => Change::Lost,
    }
}

// Whether more is let through of what is no file, or by the mode.
fn gained_beside(both: &BothFound<'_>) -> bool
    ensures { result ≡ gained_beside (seen_both both.now) }
{
    is_gained(mode_change(both.part.section.mode, both.other.section.mode))
        || has_gained(&both.others)
}

// Whether less is.
fn lost_beside(both: &BothFound<'_>) -> bool
    ensures { result ≡ lost_beside (seen_both both.now) }
{
    is_lost(mode_change(both.part.section.mode, both.other.section.mode)) || has_lost(&both.others)
}

// Whether a path is told of one of some rules.
fn some_told(changes: &[RuleChange<'_>]) -> bool
    ensures { result ≡ some_told changes.now }
{
    let mut rest = changes;
    while let [change, behind @ ..] = rest {
        if change.change.is_some() {
            return true;
        }
        rest = behind;
    }
    false
}

// Whether something is answered otherwise of files.
fn differs_in_files(files: &FileChanges<'_>) -> bool
    ensures { result ≡ differs_in_files files.now }
{
    some_told(&files.old) || some_told(&files.new)
}

// Whether the modes of two parts differ, or something is answered otherwise of what is no file.
fn differs_beside(both: &BothFound<'_>) -> bool
    ensures { result ≡ differs_beside (seen_both both.now) }
{
    !same_state(both.part.section.mode, both.other.section.mode) || !both.others.is_empty()
}

// The word, by what is allowed now that wasn't, what isn't any more that was, and what else is answered otherwise.
fn kind_by(gained: bool, lost: bool, otherwise: bool) -> Kind
    ensures { result ≡ kind_by gained lost otherwise }
{
    if gained {
        if lost { Kind::Both } else { Kind::Wider }
    } else if lost {
        Kind::Narrower
    } else if otherwise {
        Kind::Otherwise
    } else {
        Kind::Same
    }
}

// The word by what changes of files, and by the starts of programs that lead elsewhere.
fn kind_with(both: &BothFound<'_>, files: &FileChanges<'_>, starts: &[StartChange<'_>]) -> Kind
    ensures { result ≡ kind_with (seen_both both.now) files.now starts.now }
{
    let gained = files.gained || gained_beside(both) || has_gained_start(starts);
    let lost = files.lost || lost_beside(both) || has_lost_start(starts);
    let otherwise = differs_beside(both) || differs_in_files(files) || !starts.is_empty();
    kind_by(gained, lost, otherwise)
}

/// The word for parts that both folders have.
pub fn kind_of_both(both: &BothFound<'_>) -> Kind
    ensures { result ≡ kind_of_both (seen_both both.now) }
{
    match (&both.files, &both.starts) {
        (Some(files), Some(starts)) => kind_with(both, files, starts),
        _ => Kind::TooMany,
    }
}

/// The word for what is found.
pub fn kind_of(finding: &Finding<'_>) -> Kind
    ensures { result ≡ kind_of (seen_finding finding.now) }
{
    match finding {
        Finding::Absent => Kind::Absent,
        Finding::Gone(_) => Kind::Gone,
        Finding::New(_) => Kind::New,
        Finding::Both(both) => kind_of_both(both),
    }
}

/// Whether nothing is told of what has this word.
pub fn is_same(kind: Kind) -> bool
    ensures { result ≡ is_same kind }
{
    match kind {
        Kind::Same => true,
        Kind::Wider
        | Kind::Narrower
        | Kind::Both
        | Kind::Otherwise
        | Kind::Gone
        | Kind::New
        | Kind::TooMany
        | Kind::Absent => false,
    }
}

// Whether paths are too many, of files or of starts.
fn is_unknown(both: &BothFound<'_>) -> bool
    ensures { result ≡ is_unknown (seen_both both.now) }
{
    both.files.is_none() || both.starts.is_none()
}

// Whether nothing is known of the paths of somebody.
fn is_undecided(finding: &Finding<'_>) -> bool
    ensures { result ≡ is_undecided (seen_finding finding.now) }
{
    match finding {
        Finding::Absent | Finding::Gone(_) | Finding::New(_) => false,
        Finding::Both(both) => is_unknown(both),
    }
}

// Whether it is known that something is answered otherwise of files.
fn files_differ(files: &Option<FileChanges<'_>>) -> bool
    ensures { result ≡ files_differ files.now }
{
    match files {
        None => false,
        Some(files) => differs_in_files(files),
    }
}

// Whether it is known that a start leads elsewhere.
fn starts_differ(starts: &Option<Vec<StartChange<'_>>>) -> bool
    ensures { result ≡ starts_differ (option_map (λ starts. starts.items) starts.now) }
{
    match starts {
        None => false,
        Some(starts) => !starts.is_empty(),
    }
}

// Whether it is known of parts that both folders have that something is answered otherwise.
fn both_differ(both: &BothFound<'_>) -> bool
    ensures { result ≡ is_otherwise (OfBoth (seen_both both.now)) }
{
    if is_unknown(both) {
        return differs_beside(both) || files_differ(&both.files) || starts_differ(&both.starts);
    }
    !is_same(kind_of_both(both))
}

// Whether it is known that something differs of somebody.
fn is_otherwise(finding: &Finding<'_>) -> bool
    ensures { result ≡ is_otherwise (seen_finding finding.now) }
{
    match finding {
        Finding::Absent | Finding::Gone(_) | Finding::New(_) => true,
        Finding::Both(both) => both_differ(both),
    }
}

/// Whether nothing is known of the paths of somebody.
pub fn has_undecided(found: &[Found<'_>]) -> bool
    ensures { result ≡ has_undecided (map seen_found found.now) }
{
    let mut rest = found;
    while let [one, behind @ ..] = rest {
        if is_undecided(&one.finding) {
            return true;
        }
        rest = behind;
    }
    false
}

/// Whether it is known that something differs of somebody: he is gone or new, or nobody has the name, or something is answered otherwise.
pub fn has_otherwise(found: &[Found<'_>]) -> bool
    ensures { result ≡ has_otherwise (map seen_found found.now) }
{
    let mut rest = found;
    while let [one, behind @ ..] = rest {
        if is_otherwise(&one.finding) {
            return true;
        }
        rest = behind;
    }
    false
}

/// The words for all that is found, in its order.
///
/// # Errors
///
/// Where memory runs out.
pub fn kinds_of(alloc: Global, found: &[Found<'_>]) -> Result<Vec<Kind>, AllocError>
    ensures { IfOk result (λ kinds. kinds.items ≡ kinds_of (map seen_found found.now)) }
{
    let mut kinds = Vec::with_capacity(alloc, found.len())?;
    let mut rest = found;
    while let [one, behind @ ..] = rest {
        kinds.push(kind_of(&one.finding))?;
        rest = behind;
    }
    Ok(kinds)
}
