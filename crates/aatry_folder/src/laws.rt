//! What holds of includes whose files aren't there, or weren't read, as laws over the definitions that the calls are proved to follow.

ghost use Rattle.std.specs.Prelude.{◌≡◌, ℕ, [], ◌∷◌, ◌++◌, IsTrue, List, Contains, Option, None, Some, Err, is_err, true};
ghost use Rattle.aa_text_files.specs.Files.{File, file_at};
ghost use Rattle.aa_text_files.specs.declared.text_error.Place.{Place};
ghost use Rattle.aa_text_files.specs.declared.text_error.TextRefusal.TheVariants.{NoFile};
ghost use Rattle.aa_text_tokens.specs.Splicing.{spliced};
ghost use Rattle.aa_start.specs.Gathering.{names_of};
ghost use Rattle.aa_start.specs.Readable.{AreTakenSo, unread_at};
ghost use Rattle.aa_start.specs.declared.readable.UnreadFault.{UnreadFault};
ghost use Rattle.aatry_folder.specs.Includes.{Answered, IsMissing, IsMissingAsAWhole, IsSteady, Lacks, NothingStandsFor, Stands, ToldBelow};
ghost use Rattle.aatry_folder.specs.Members.{is_folder};
ghost use Rattle.aatry_folder.specs.NamesBelow.{Answer, IsWalk};
ghost use Rattle.aatry_folder.specs.Reaching.{Reaches};

use crate::folders::Folders;
use aa_start::FileSystem;

/// Where names come of a walk, like those that `aatry_folder::names_below` finds, each file and folder that exists in the folder of policy and isn't
/// passed over is among them, however deep it lies: each that exists there by what the file system answered in the walk, which asked for the members
/// of the base and of each folder among the names; and where a file system always gives the same answers, each that exists there by these.
pub fn what_stands_is_among_the_names<F: Folders>(folders: &F)
    ensures answered { (base : List ℕ) (answers : List Answer) (names : List (List ℕ)) (name : List ℕ)
        → IsWalk (F.told folders.now) base answers names → Stands (Answered answers) name → Contains names name }
    ensures asked { (base : List ℕ) (answers : List Answer) (names : List (List ℕ)) (folder : List ℕ)
        → IsWalk (F.told folders.now) base answers names → Contains ([] ∷ names) folder → IsTrue (is_folder folder)
        → (members : List (List ℕ)) × Answered answers folder members × ToldBelow (F.told folders.now) base folder members }
    ensures steady { (base : List ℕ) (answers : List Answer) (names : List (List ℕ)) (name : List ℕ)
        → IsWalk (F.told folders.now) base answers names → IsSteady (F.told folders.now) → Stands (ToldBelow (F.told folders.now) base) name → Contains names name }
{}

/// Where a file can't be spliced since a file is missing, the place of the fault is that of an include, in a file that was entered, that has to find
/// something: the files have none of the name that it looks up. Where the fault has no place, they have none of the name of the file itself.
pub fn what_is_missing_is_asked_for()
    ensures include { (files : List File) (name : List ℕ) (place : Place)
        → spliced files name ≡ Err (NoFile, Some place) → IsMissing files place (Lacks files) }
    ensures itself { (files : List File) (name : List ℕ) → spliced files name ≡ Err (NoFile, None) → IsMissingAsAWhole files name }
{}

/// So nothing is missing that exists in the folder of policy: where the names of the files come of a walk, whatever other names follow them, nothing
/// exists there for the include at which the fault is reported, by what the file system answered in the walk; and where it always gives the same
/// answers, by these. This holds of all that `policy_below` reads, for each command.
pub fn nothing_that_stands_is_missing<F: Folders>(folders: &F)
    ensures answered { (base : List ℕ) (answers : List Answer) (names others : List (List ℕ)) (files : List File) (name : List ℕ) (place : Place)
        → IsWalk (F.told folders.now) base answers names
        → names_of files ≡ names ++ others
        → spliced files name ≡ Err (NoFile, Some place)
        → IsMissing files place (NothingStandsFor (Answered answers)) }
    ensures steady { (base : List ℕ) (answers : List Answer) (names others : List (List ℕ)) (files : List File) (name : List ℕ) (place : Place)
        → IsWalk (F.told folders.now) base answers names
        → names_of files ≡ names ++ others
        → IsSteady (F.told folders.now)
        → spliced files name ≡ Err (NoFile, Some place)
        → IsMissing files place (NothingStandsFor (ToldBelow (F.told folders.now) base)) }
{}

/// Nothing is read as policy of a file that couldn't be read, nor of any other that leads to it by includes, through however many files: where files
/// are gathered as by `policy_below`, splicing such a file by its name is a fault.
pub fn what_cannot_be_read_is_never_entered<D: FileSystem>(disk: &D)
    ensures { (base : List ℕ) (files : List File) (unread : List (Option UnreadFault)) (name : List ℕ) (one other : ℕ) (way : List ℕ) (fault : UnreadFault)
        → AreTakenSo (D.known disk.now) base files unread
        → file_at files name ≡ Some one
        → Reaches files one way other
        → unread_at unread other ≡ Some fault
        → is_err (spliced files name) ≡ true }
{}
