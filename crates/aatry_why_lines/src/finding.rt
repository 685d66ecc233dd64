//! Where rules are written in the files of a folder.

ghost use Rattle.std.specs.Prelude.{◌≡◌, ◌==◌, IfOk, position};
ghost use Rattle.aa_text_files.specs.Files.{bytes_at};
ghost use Rattle.aatry_report.specs.Columns.{column};
ghost use Rattle.aatry_report.specs.Lines.{line_number};
ghost use Rattle.aatry_why_lines.specs.Finding.{AreOfTheirFiles};

use aa_text_files::{Files, Place};
use aatry_folder::PolicyFiles;
use aatry_report::{LinePlace, Walk, path_below};
use std::alloc::{AllocError, Global};
use std::marker::Model;

/// A walk over a file.
#[derive(Clone, Copy)]
pub struct FileWalk {
    // The file, by how many came before it.
    file: usize,
    // The walk.
    walk: Walk,
}

/// Finds the lines and the columns of places in the files of a folder of policy. It goes over each file once for places that come in the file's
/// order, whatever places in other files come between them. Contracts see the files and the folder's path.
#[derive(Drop)]
pub struct Finder<'a> {
    // What lies below the folder.
    below: PolicyFiles<'a>,
    // A walk over each file of which a place was found.
    walks: Vec<FileWalk>,
}

impl<'a> Model for Finder<'a> {
    ghost use Rattle.aatry_folder.specs.PolicyFiles.{PolicyFiles, seen_files};
    ghost use Rattle.aatry_why_lines.specs.Finding.{AreOfTheirFiles};

    ghost Value = { PolicyFiles };

    ghost view = { λ f. seen_files f.below };

    ghost invariant = { λ f. AreOfTheirFiles f.below.files.now f.walks.items };
}

// The index of the walk over a file among some.
fn walk_place(walks: &[FileWalk], file: usize) -> Option<usize>
    ensures { result ≡ position (λ own. own.file == file) walks.now }
{
    walks.iter().position(|own| own.file == file)
}

// Goes on to a place in a file by the walk over it, or by one from the file's beginning where there is none, which is appended to the others.
fn walk_on(files: &Files, walks: &mut Vec<FileWalk>, place: Place) -> Result<LinePlace, AllocError>
    requires { AreOfTheirFiles files.now walks.old.items }
    ensures walks { AreOfTheirFiles files.now walks.new.items }
    ensures line { IfOk result (λ found. found.line ≡ line_number (bytes_at files.now place.file) place.at) }
    ensures column { IfOk result (λ found. found.column ≡ column (bytes_at files.now place.file) place.at) }
{
    let text = files.bytes_at(place.file);
    match walk_place(walks, place.file) {
        None => {
            let walk = Walk::new().to(text, place.at);
            walks.push(FileWalk {
                file: place.file,
                walk,
            })?;
            Ok(walk.place())
        }
        Some(index) => {
            let walk = walks[index].walk.to(text, place.at);
            walks[index] = FileWalk {
                file: place.file,
                walk,
            };
            Ok(walk.place())
        }
    }
}

impl<'a> Finder<'a> {
    ghost use Rattle.std.specs.Prelude.{◌≡◌, IfOk};
    ghost use Rattle.aa_text_files.specs.Files.{bytes_at, name_at};
    ghost use Rattle.aatry_folder.specs.PolicyFiles.{seen_files};
    ghost use Rattle.aatry_report.specs.Columns.{column};
    ghost use Rattle.aatry_report.specs.FilePlaces.{path_below};
    ghost use Rattle.aatry_report.specs.Lines.{line_number};

    /// A finder that has found no place yet. It takes no memory.
    pub fn new(alloc: Global, below: PolicyFiles<'a>) -> Finder<'a>
        ensures { result ≡ seen_files below.entry }
    {
        Finder {
            below,
            walks: Vec::new(alloc),
        }
    }

    /// The allocator from which the walks take their memory.
    pub fn alloc(&self) -> Global {
        *self.walks.allocator()
    }

    // The path of the file of a name in reports.
    pub(crate) fn path_below(&self, name: &[u8]) -> Result<Vec<u8>, AllocError>
        ensures { IfOk result (λ path. path.items ≡ path_below self.now.base name.now) }
    {
        path_below(self.alloc(), self.below.base, name)
    }

    // The path of the file of a place in reports.
    pub(crate) fn path_of(&self, place: Place) -> Result<Vec<u8>, AllocError>
        ensures { IfOk result (λ path. path.items ≡ path_below self.now.base (name_at self.now.files place.file)) }
    {
        self.path_below(self.below.files.name_at(place.file))
    }

    // The line and the column of a place.
    pub(crate) fn line_place(&mut self, place: Place) -> Result<LinePlace, AllocError>
        ensures same { self.new ≡ self.old }
        ensures line { IfOk result (λ found. found.line ≡ line_number (bytes_at self.old.files place.file) place.at) }
        ensures column { IfOk result (λ found. found.column ≡ column (bytes_at self.old.files place.file) place.at) }
    {
        walk_on(self.below.files, &mut self.walks, place)
    }
}
