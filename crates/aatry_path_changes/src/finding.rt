//! What a change of policy changes of profiles, children and hats.

ghost use Rattle.std.specs.Prelude.{◌≡◌, ◌++◌, ◌∷◌, [], IfOk, OnOk, map, option_map};
ghost use Rattle.std.specs.List.{All};
ghost use Rattle.aa_explain_changes.specs.Sides.{seen_side, seen_sides};
ghost use Rattle.aatry_path_changes.specs.Finding.{AreFound, IsFinding, IsFound, IsOfBoth, ask_rules, found_names, names_or, seen_both, seen_finding, seen_found, side_if, sides_of};
ghost use Rattle.aatry_path_changes.specs.Starts.{seen_policies};
ghost use Rattle.aatry_policy.specs.FolderParts.{seen_folder};
ghost use Rattle.aatry_policy.specs.SeenProfiles.{seen_part};

use crate::names::names_asked;
use crate::others::{OtherChange, other_changes};
use crate::starts::{Policies, find_starts, starters_named};
use aa_explain_changes::{FileChanges, Side, Sides, changes_of_files};
use aa_explain_start_changes::{StartChange, Starters};
use aatry_claims::asks_rules;
use aatry_policy::{FolderParts, Part, part_of};
use std::alloc::{AllocError, Global};

/// A part of the old folder, the one of its full name in the new one, and what is answered otherwise.
#[derive(Drop)]
pub struct BothFound<'a> {
    /// The part of the old folder.
    pub part: &'a Part<'a>,
    /// The one of the new folder.
    pub other: &'a Part<'a>,
    /// What changes of files; none, where paths are too many.
    pub files: Option<FileChanges<'a>>,
    /// What is answered otherwise of what is no file.
    pub others: Vec<OtherChange>,
    /// Who starts programs by their name, in the policy set of either folder.
    pub starters: Starters<'a, 'a>,
    /// The starts of programs that lead elsewhere; none, where their paths are too many.
    pub starts: Option<Vec<StartChange<'a>>>,
}

/// What is found of a full name.
#[derive(Drop)]
pub enum Finding<'a> {
    /// Nobody has it.
    Absent,
    /// The old folder has somebody of it, and the new one has none.
    Gone(&'a Part<'a>),
    /// The new folder has somebody of it, and the old one has none.
    New(&'a Part<'a>),
    /// Both have one.
    Both(BothFound<'a>),
}

/// A full name, and what is found.
#[derive(Drop)]
pub struct Found<'a> {
    /// The full name.
    pub name: Vec<u8>,
    /// What is found.
    pub finding: Finding<'a>,
}

/// Which folders are compared, and how.
#[derive(Clone, Copy)]
pub struct Question<'a> {
    /// The old folder.
    pub old: &'a FolderParts<'a>,
    /// The new one.
    pub new: &'a FolderParts<'a>,
    /// The policy sets of both.
    pub policies: Policies<'a>,
    /// Whether answers are the same that differ in how they are logged alone.
    pub quiet: bool,
    /// How many sets of states are looked at, at most, for each profile, child or hat.
    pub limit: usize,
}

// Whether the rules of two parts are asked, of both.
fn ask_rules(part: &Part<'_>, other: &Part<'_>) -> bool
    ensures { result ≡ ask_rules (seen_part part.now) (seen_part other.now) }
{
    asks_rules(part.section.mode) && asks_rules(other.section.mode)
}

// What counts of the rules of a part: all of them, or none.
fn side_if<'a>(asked: bool, part: &Part<'a>) -> Side<'a>
    ensures { seen_side result ≡ side_if asked (seen_part part.now) }
{
    if !asked {
        return Side {
            audit: false,
            rules: &[],
        };
    }
    Side {
        audit: part.section.audit,
        rules: part.section.rules,
    }
}

/// The two sides of a change of a part, as its rules say in enforce mode. Where no rule of one of the two is asked, since it is in mode unconfined or disabled,
/// none of the other counts.
pub fn sides_of<'a>(quiet: bool, part: &Part<'a>, other: &Part<'a>) -> Sides<'a>
    ensures { seen_sides result ≡ sides_of quiet (seen_part part.now) (seen_part other.now) }
{
    let asked = ask_rules(part, other);
    Sides {
        old: side_if(asked, part),
        new: side_if(asked, other),
        quiet,
    }
}

// What is answered otherwise of two parts.
fn both_found<'a>(
    alloc: Global,
    question: Question<'a>,
    part: &'a Part<'a>,
    other: &'a Part<'a>,
) -> Result<BothFound<'a>, AllocError>
    ensures { IfOk result (λ both. IsOfBoth question.entry.quiet question.entry.limit (seen_policies question.entry.policies) (seen_part part.now) (seen_part other.now) (seen_both both)) }
{
    let sides = sides_of(question.quiet, part, other);
    let files = changes_of_files(alloc, sides, question.limit)?;
    let others = other_changes(alloc, sides)?;
    let starters = starters_named(question.policies, part.name.as_slice());
    let starts = find_starts(alloc, starters, question.limit)?;
    Ok(BothFound {
        part,
        other,
        files,
        others,
        starters,
        starts,
    })
}

// What is found by the part that either folder has of a name, if it has one.
fn finding_by<'a>(
    alloc: Global,
    question: Question<'a>,
    part: Option<&'a Part<'a>>,
    other: Option<&'a Part<'a>>,
) -> Result<Finding<'a>, AllocError>
    ensures { IfOk result (λ finding. IsFinding question.entry.quiet question.entry.limit (seen_policies question.entry.policies)
        (option_map (λ part. seen_part part.now) part.entry) (option_map (λ part. seen_part part.now) other.entry) (seen_finding finding)) }
{
    match (part, other) {
        (None, None) => Ok(Finding::Absent),
        (Some(part), None) => Ok(Finding::Gone(part)),
        (None, Some(other)) => Ok(Finding::New(other)),
        (Some(part), Some(other)) => {
            let both = both_found(alloc, question, part, other)?;
            Ok(Finding::Both(both))
        }
    }
}

// What is found of a name.
fn found_of<'a>(alloc: Global, question: Question<'a>, name: &[u8]) -> Result<Found<'a>, AllocError>
    ensures found { IfOk result (λ found. IsFound question.entry.quiet question.entry.limit (seen_policies question.entry.policies) (seen_folder question.entry.old.now) (seen_folder question.entry.new.now) (seen_found found)) }
    ensures name { IfOk result (λ found. (seen_found found).name ≡ name.now) }
{
    let part = part_of(question.old.parts, name);
    let other = part_of(question.new.parts, name);
    let finding = finding_by(alloc, question, part, other)?;
    Ok(Found {
        name: Vec::from_slice(alloc, name)?,
        finding,
    })
}

// Appends what is found of a name to others.
fn push_found<'a>(
    alloc: Global,
    question: Question<'a>,
    name: &[u8],
    out: &mut Vec<Found<'a>>,
) -> Result<(), AllocError>
    ensures names { OnOk result (found_names (map seen_found out.new.items) ≡ found_names (map seen_found out.old.items) ++ name.now ∷ []) }
    ensures found { All (IsFound question.entry.quiet question.entry.limit (seen_policies question.entry.policies) (seen_folder question.entry.old.now) (seen_folder question.entry.new.now)) (map seen_found out.old.items)
        → OnOk result (All (IsFound question.entry.quiet question.entry.limit (seen_policies question.entry.policies) (seen_folder question.entry.old.now) (seen_folder question.entry.new.now)) (map seen_found out.new.items)) }
{
    let found = found_of(alloc, question, name)?;
    out.push(found)?;
    Ok(())
}

/// What is found of each of some names, in their order.
///
/// # Errors
///
/// Where memory runs out, and where there are more patterns than `aa_explain_changes::changes_of_files` takes.
pub fn find<'a>(
    alloc: Global,
    question: Question<'a>,
    names: &[Vec<u8>],
) -> Result<Vec<Found<'a>>, AllocError>
    ensures { IfOk result (λ found. AreFound question.entry.quiet question.entry.limit (seen_policies question.entry.policies) (seen_folder question.entry.old.now) (seen_folder question.entry.new.now)
        (map (λ name. name.items) names.now) (map seen_found found.items)) }
{
    let mut found = Vec::new(alloc);
    let mut rest = names;
    while let [name, behind @ ..] = rest {
        push_found(alloc, question, name, &mut found)?;
        rest = behind;
    }
    Ok(found)
}

/// What is found of those whom words name, in their order, or of all, where words name nobody: of each of the old folder, and then of each that the new one has
/// alone.
///
/// # Errors
///
/// As of `find`.
pub fn find_asked<'a>(
    alloc: Global,
    question: Question<'a>,
    who: &[&[u8]],
) -> Result<Vec<Found<'a>>, AllocError>
    ensures { IfOk result (λ found. AreFound question.entry.quiet question.entry.limit (seen_policies question.entry.policies) (seen_folder question.entry.old.now) (seen_folder question.entry.new.now)
        (names_or (map (λ name. name.now) who.now) (seen_folder question.entry.old.now) (seen_folder question.entry.new.now)) (map seen_found found.items)) }
{
    let names = names_asked(alloc, question.old, question.new, who)?;
    find(alloc, question, &names)
}
