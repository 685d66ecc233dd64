//! Folders of policy, loaded.

ghost use Rattle.std.specs.Prelude.{◌≡◌, ◌++◌, IfOk, OnOk};
ghost use Rattle.aatry_folder.specs.PolicyFiles.{seen_files};
ghost use Rattle.aatry_policy.specs.Folders.{below, left_out_in, left_out_note, loaded_in, origins_in, outcomes_in, seen_folder};

use crate::folder_parts::FolderParts;
use crate::left_out::push_left_out;
use crate::notes::push_note;
use crate::parts::Part;
use crate::policy::{Policy, load};
use aatry_folder::{PolicyFolder, Report};
use aatry_report::Teller;
use std::alloc::{AllocError, Global};

/// A folder of policy whose files at the top are loaded.
#[derive(Drop)]
pub struct LoadedFolder<'a> {
    /// The folder.
    pub folder: &'a PolicyFolder<'a>,
    /// The policy set of these files, which of them were refused, and where each profile was read.
    pub policy: Policy,
}

/// A folder by its profiles, children and hats.
pub fn by_parts<'a>(folder: &'a PolicyFolder<'_>, parts: &'a [Part<'a>]) -> FolderParts<'a>
    ensures below { seen_files result.below ≡ below (seen_folder folder.now) }
    ensures parts { result.parts.now ≡ parts.now }
{
    FolderParts {
        below: folder.lent(),
        parts,
    }
}

/// Loads the files at the top of a folder, like `load` by the folder's language and as each is to be loaded, and appends those that are left out,
/// with the notes on them, to a report. Verbose lines have one for each with its path, the number and the name of its refusal, what is wrong, in
/// words, and where, if it has a place; other lines have none; and records have one of the kind `left_out`, with `file`, `number`, `refusal` and
/// `words`. Where a file is left out since another one, or itself, wasn't read, the path of that and why it wasn't come in place of the refusal, in
/// records as `unread` and `words`. Where there are any, it is noted how many there are, and the command that reports what is wrong with each.
///
/// # Errors
///
/// Where memory runs out. The report on some files may have been appended then.
pub fn load_folder<'a>(
    teller: Teller,
    folder: &'a PolicyFolder<'a>,
    report: &mut Report,
) -> Result<LoadedFolder<'a>, AllocError>
    ensures folder { IfOk result (λ loaded. loaded.folder.now ≡ folder.now) }
    ensures set { IfOk result (λ loaded. loaded.policy.manager ≡ loaded_in (seen_folder folder.now)) }
    ensures outcomes { IfOk result (λ loaded. loaded.policy.outcomes.items ≡ outcomes_in (seen_folder folder.now)) }
    ensures origins { IfOk result (λ loaded. loaded.policy.origins.items ≡ origins_in (seen_folder folder.now)) }
    ensures told { OnOk result (report.new.text.items
        ≡ report.old.text.items ++ left_out_in teller.form teller.verbose (seen_folder folder.now)) }
    ensures noted { OnOk result (report.new.notes.items ≡ report.old.notes.items ++ left_out_note (seen_folder folder.now)) }
{
    let policy = load(teller.alloc, folder.language, &folder.files, &folder.top)?;
    push_left_out(teller, folder, &policy.outcomes, &mut report.text)?;
    push_note(
        folder.language,
        folder.base,
        &policy.outcomes,
        &mut report.notes,
    )?;
    Ok(LoadedFolder { folder, policy })
}
