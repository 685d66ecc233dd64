//! The folders that are compared.

ghost use Rattle.std.specs.Prelude.{◌≡◌};
ghost use Rattle.aatry_shared.specs.Sides.{FindIn, kind, sign};
ghost use Rattle.aatry_policy.specs.FolderParts.{seen_folder};

use aatry_policy::{FolderParts, Part};
use aatry_why_lines::Finder;
use std::alloc::Global;

/// One of two folders that are compared.
#[derive(Clone, Copy)]
pub enum Side {
    /// The old one.
    Old,
    /// The new one.
    New,
}

/// A part of one of two folders that are compared.
#[derive(Clone, Copy)]
pub struct SidePart<'a> {
    /// The folder.
    pub folder: &'a FolderParts<'a>,
    /// The part, which is one of the folder's.
    pub part: &'a Part<'a>,
    /// Which of the two folders it is.
    pub side: Side,
}

/// A part of an old folder, and the one of its full name in the new one.
#[derive(Clone, Copy)]
pub struct PartPair<'a> {
    /// The old folder.
    pub old: &'a FolderParts<'a>,
    /// The new one.
    pub new: &'a FolderParts<'a>,
    /// The part of the old folder.
    pub part: &'a Part<'a>,
    /// The part of the new folder.
    pub other: &'a Part<'a>,
}

/// The sign before a line that only one folder has.
pub fn sign_of(side: Side) -> &'static str
    ensures { result.now ≡ sign side }
{
    match side {
        Side::Old => "- ",
        Side::New => "+ ",
    }
}

/// The kind of the record of such a line.
pub fn kind_of(side: Side) -> &'static str
    ensures { result.now ≡ kind side }
{
    match side {
        Side::Old => "less",
        Side::New => "more",
    }
}

/// The finders of the places of rules in both of two folders that are compared.
#[derive(Drop)]
pub struct Finders<'a> {
    /// In the old one.
    pub of_old: Finder<'a>,
    /// In the new one.
    pub of_new: Finder<'a>,
}

/// The finder of the places of rules in a folder. It takes no memory.
pub fn finder_in<'a>(alloc: Global, folder: &FolderParts<'a>) -> Finder<'a>
    ensures { result ≡ (seen_folder folder.now).below }
{
    Finder::new(alloc, folder.below)
}

/// The finders of the places of rules in both of two folders. It takes no memory.
pub fn finders_in<'a>(alloc: Global, old: &FolderParts<'a>, new: &FolderParts<'a>) -> Finders<'a>
    ensures { FindIn (seen_folder old.now) (seen_folder new.now) result }
{
    Finders {
        of_old: finder_in(alloc, old),
        of_new: finder_in(alloc, new),
    }
}
