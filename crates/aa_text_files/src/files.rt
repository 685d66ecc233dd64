//! The files from which a policy is read, by name.
ghost use Rattle.std.specs.Prelude.{◌≡◌, ◌++◌, ◌∷◌, [], ◌↔◌, ◌&&◌, not, IsTrue, IsErrOf, OnOk, OnErr, length, option_map, slice_get};
ghost use Rattle.aa_bytes.specs.NameMaps.{GivesNumber, HaveSameNumbers};
ghost use Rattle.aa_text_files.specs.Files.{as_files, bytes_at, bytes_of, described, file_at, has_control_byte, has_file, is_bad_file, is_folder_name, name_at};

use aa_bytes::NameMap;
use std::alloc::{AllocError, Global};
use std::marker::Model;
use thiserror::Error;

/// Named files in the order in which they were inserted. Contracts see a list of pairs of a name and the file's bytes.
///
/// A name is the bytes that the caller gives, with no byte below the space, and no name comes twice. A name whose last byte is `/` declares a
/// folder, which has no bytes.
#[derive(Drop)]
pub struct Files {
    // In the order in which they were inserted.
    entries: Vec<(Vec<u8>, Vec<u8>)>,
    // The index of the file of each name.
    places: NameMap,
}

impl Model for Files {
    ghost use Rattle.std.specs.Prelude.{ℕ, List};

    ghost Value = { List (List ℕ × List ℕ) };

    ghost use Rattle.aa_text_files.specs.Files.{AreTaken, as_files};
    ghost use Rattle.aa_text_files.specs.code.Places.{ArePlaces};

    ghost view = { λ f. as_files f.entries.items };

    // No name comes twice, and a folder has no bytes; each name has the index of its file.
    ghost invariant = { λ f. AreTaken (as_files f.entries.items) × ArePlaces f.places (as_files f.entries.items) };
}

/// Why a file was not inserted. Nothing of it is kept, and the files are unchanged.
#[derive(Clone, Copy, Debug, PartialEq, Eq, Error)]
pub enum FilesError {
    /// The name is empty, holds a byte below the space, or declares a folder although there are bytes.
    #[error("this is no name for a file of these bytes")]
    BadFile,
    /// A file or folder of that name is there already.
    #[error("a file of this name is there already")]
    Twice,
    /// Memory ran out.
    #[error("memory ran out")]
    Memory,
}

impl FilesError {
    /// The number of the refusal: 70, 71 or 99.
    pub fn number(self) -> u8
        ensures { result ≡ (described self).0 }
    {
        match self {
            FilesError::BadFile => 70,
            FilesError::Twice => 71,
            FilesError::Memory => 99,
        }
    }

    /// The name of the refusal, as the variant is written.
    pub fn name(self) -> &'static str
        ensures { result.now ≡ (described self).1 }
    {
        match self {
            FilesError::BadFile => "BadFile",
            FilesError::Twice => "Twice",
            FilesError::Memory => "Memory",
        }
    }
}

// Whether a name holds a byte below the space.
fn has_control(name: &[u8]) -> bool
    ensures { result ≡ has_control_byte name.now }
{
    name.iter().any(|b| *b < b' ')
}

// Whether a file of this name and these bytes is refused.
fn is_bad(name: &[u8], bytes: &[u8]) -> bool
    ensures { result ≡ is_bad_file name.now bytes.now }
{
    name.is_empty() || has_control(name) || (Files::is_folder(name) && !bytes.is_empty())
}

// Appends a file, and keeps the index of its name.
fn put(
    entries: &mut Vec<(Vec<u8>, Vec<u8>)>,
    places: &mut NameMap,
    name: Vec<u8>,
    bytes: Vec<u8>,
) -> Result<(), AllocError>
    ensures entries { OnOk result (as_files entries.new.items ≡ as_files entries.old.items ++ (name.items, bytes.items) ∷ []) }
    ensures places { OnOk result (GivesNumber places.old name.items (length entries.old.items) places.new) }
    ensures same_entries { OnErr result (entries.new.items ≡ entries.old.items) }
    ensures same_places { OnErr result (HaveSameNumbers places.old places.new) }
{
    let alloc = *entries.allocator();
    let place = entries.len();
    entries.push((name, bytes))?;
    match places.insert(alloc, entries[place].0.as_slice(), place) {
        Ok(()) => Ok(()),
        Err(_) => {
            entries.pop();
            Err(AllocError)
        }
    }
}

impl Files {
    /// No files, with an allocator from which each inserted file takes memory.
    pub fn new(alloc: Global) -> Files
        ensures { result ≡ [] }
    {
        Files {
            entries: Vec::new(alloc),
            places: NameMap::new(alloc),
        }
    }

    /// Whether a name declares a folder: its last byte is `/`. It takes no memory; `O(1)`.
    pub fn is_folder(name: &[u8]) -> bool
        ensures { result ≡ is_folder_name name.now }
    {
        match name.last() {
            Some(last) => *last == b'/',
            None => false,
        }
    }

    /// Inserts a file after those that are there. A name whose last byte is `/` declares a folder, with no bytes. The name and the bytes are taken
    /// over; the name is copied once more for look-ups. `O(log n)` comparisons of names for n files.
    ///
    /// # Errors
    ///
    /// The first of these that applies. The files are then unchanged, and the name and bytes are dropped.
    /// - `BadFile`: the name is empty, holds a byte below the space, or declares a folder although there are bytes.
    /// - `Twice`: a file or folder of that name is there.
    /// - `Memory`: memory ran out.
    pub fn insert(&mut self, name: Vec<u8>, bytes: Vec<u8>) -> Result<(), FilesError>
        ensures ok { OnOk result (self.new ≡ self.old ++ (name.items, bytes.items) ∷ []) }
        ensures err { OnErr result (self.new ≡ self.old) }
        ensures bad { IsErrOf result FilesError.BadFile ↔ IsTrue (is_bad_file name.items bytes.items) }
        ensures twice { IsErrOf result FilesError.Twice ↔ IsTrue (not (is_bad_file name.items bytes.items) && has_file self.old name.items) }
    {
        if is_bad(name.as_slice(), bytes.as_slice()) {
            return Err(FilesError::BadFile);
        }
        if self.has(name.as_slice()) {
            return Err(FilesError::Twice);
        }
        match put(&mut self.entries, &mut self.places, name, bytes) {
            Ok(()) => Ok(()),
            Err(_) => Err(FilesError::Memory),
        }
    }

    /// The bytes of the file of that name, or `None` where no file has it or it declares a folder. It takes no memory; `O(log n)` comparisons of
    /// names for n files.
    pub fn bytes(&self, name: &[u8]) -> Option<&[u8]>
        ensures { option_map (λ b. b.now) result ≡ bytes_of self.now name.now }
    {
        if Files::is_folder(name) {
            return None;
        }
        match self.places.get(name) {
            Some(place) => Some(self.bytes_at(place)),
            None => None,
        }
    }

    /// How many files and folders there are. It takes no memory; `O(1)`.
    pub fn len(&self) -> usize
        ensures { result ≡ length self.now }
    {
        self.entries.len()
    }

    /// Whether a file or folder of that name is there. It takes no memory; `O(log n)` comparisons of names for n files.
    pub fn has(&self, name: &[u8]) -> bool
        ensures { result ≡ has_file self.now name.now }
    {
        self.places.get(name).is_some()
    }

    /// The index of the file of that name, in the order of insertion, or `None` where no file has it or it declares a folder. It takes no memory;
    /// `O(log n)` comparisons of names for n files.
    pub fn position(&self, name: &[u8]) -> Option<usize>
        ensures { result ≡ file_at self.now name.now }
    {
        if !Files::is_folder(name) {
            return self.places.get(name);
        }
        None
    }

    /// The bytes of the file at an index: none where it is a folder, or where no file has this index. It takes no memory; `O(1)`.
    pub fn bytes_at(&self, at: usize) -> &[u8]
        ensures { result.now ≡ bytes_at self.now at }
    {
        match self.entries.get(at) {
            Some((_, bytes)) => bytes.as_slice(),
            None => &[],
        }
    }

    /// The name of the file or folder at an index: an empty one where none has this index. It takes no memory; `O(1)`.
    pub fn name_at(&self, at: usize) -> &[u8]
        ensures { result.now ≡ name_at self.now at }
    {
        match self.entries.get(at) {
            Some((name, _)) => name.as_slice(),
            None => &[],
        }
    }

    /// The name of the file or folder at an index, or `None` where none has this index. It takes no memory; `O(1)`.
    pub fn name(&self, file: usize) -> Option<&[u8]>
        ensures { option_map (λ n. n.now) result ≡ option_map (λ f. f.0) (slice_get self.now file) }
    {
        match self.entries.get(file) {
            Some((name, _)) => Some(name.as_slice()),
            None => None,
        }
    }
}
