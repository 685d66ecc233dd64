//! The check of files of policy, each by itself.

ghost use Rattle.std.specs.Prelude.{◌≡◌, ◌≤◌, ◌+◌, ◌++◌, ℕ, List, IfOk, OnOk, length, map, string_bytes};
ghost use Rattle.aatry_report.specs.Taken.{taken_line};
ghost use Rattle.aatry_check.specs.Checks.{Tells, TellsEach, TellsReading, refused_count, refused_in};
ghost use Rattle.aa_explain_written.specs.EarlierRules.{earlier_rule};
ghost use Rattle.aa_profile.specs.FileReading.{file_profiles_in};
ghost use Rattle.aatry_folder.specs.Loadings.{seen_top};
ghost use Rattle.aatry_report.specs.FilePlaces.{path_below};

use crate::loading::{loading_in, push_loading};
use crate::refusal::Refused;
use crate::unread::push_told;
use aa_explain_written::earlier_rule;
use aa_profile::{Language, Profile, ProfileRefusal, read_file_in};
use aa_start::UnreadFault;
use aa_text_files::Files;
use aatry_folder::TopFile;
use aatry_report::{Teller, path_below, push_taken};
use std::alloc::{AllocError, Global};

/// The counts of files that were checked.
#[derive(Clone, Copy)]
pub struct Checked {
    /// How many were taken.
    pub taken: usize,
    /// How many were refused.
    pub refused: usize,
}

// Appends the report on a file that was taken to a text.
fn push_profiles(
    teller: Teller,
    base: &[u8],
    name: &[u8],
    profiles: &[Profile],
    out: &mut Vec<u8>,
) -> Result<(), AllocError>
    ensures { OnOk result (out.new.items ≡ out.old.items ++ taken_line teller.form (path_below base.now name.now) profiles.now) }
{
    let path = path_below(teller.alloc, base, name)?;
    push_taken(teller, &path, profiles, out)
}

// Checks a file, appends the report on its reading to a text, and returns how many are refused: one or none.
fn check_reading(
    teller: Teller,
    language: Language,
    files: &Files,
    unread: &[Option<UnreadFault>],
    base: &[u8],
    name: &[u8],
    out: &mut Vec<u8>,
) -> Result<usize, AllocError>
    ensures refused { IfOk result (λ refused. refused ≡ refused_in language files.now name.now) }
    ensures few { IfOk result (λ refused. refused ≤ 1) }
    ensures told { OnOk result ((lines : List ℕ) × (out.new.items ≡ out.old.items ++ lines)
        × TellsReading teller.form language files.now unread.now base.now name.now (earlier_rule language files.now name.now)
        (file_profiles_in language files.now name.now) lines) }
{
    match read_file_in(teller.alloc, language, files, name) {
        Ok(read) => {
            push_profiles(teller, base, name, &read.profiles, out)?;
            Ok(0)
        }
        Err(error) => {
            if error.refusal == ProfileRefusal::Memory {
                return Err(AllocError);
            }
            let earlier = earlier_rule(teller.alloc, language, files, name, error)?;
            let refused = Refused {
                language,
                error,
                earlier,
            };
            push_told(teller, files, unread, base, name, refused, out)?;
            Ok(1)
        }
    }
}

// Checks a file, appends the report on it to a text, with how it is loaded, and returns how many are refused: one or none.
fn check_file(
    teller: Teller,
    language: Language,
    files: &Files,
    unread: &[Option<UnreadFault>],
    base: &[u8],
    top: &[TopFile],
    name: &[u8],
    out: &mut Vec<u8>,
) -> Result<usize, AllocError>
    ensures refused { IfOk result (λ refused. refused ≡ refused_in language files.now name.now) }
    ensures few { IfOk result (λ refused. refused ≤ 1) }
    ensures told { OnOk result ((lines : List ℕ) × (out.new.items ≡ out.old.items ++ lines)
        × Tells teller.form language files.now unread.now base.now (map seen_top top.now) name.now lines) }
{
    let refused = check_reading(teller, language, files, unread, base, name, out)?;
    push_loading(teller, base, name, loading_in(top, name), out)?;
    Ok(refused)
}

/// Checks files of policy by a language, each by itself, with the files that they include, and appends the report on each to a text, in their order:
/// that it was taken, or why it is refused and where, with the earlier rule where two conflict; followed by whether its profiles are disabled or
/// loaded in complain mode, where they are by the files at the top of the folder, which `top` has. `base` is the folder that `files` were taken
/// from, without a `/` at its end; each file is named by its path below that. A name that no file has is reported as such. `unread` says of each of
/// `files`, in their order, why it wasn't read, if it wasn't: a file that is refused where such a one is entered is reported with that, and without
/// a place.
///
/// The record of a file that was taken is that of `aatry_report::push_taken`. That of a refused one is of the kind `refused`, with the file of the
/// fault and the fault as `aatry_report::put_fault_at` puts it, or `put_fault` where it has no place; and with `included_from`, the file that is
/// checked, where the fault is in another. Where two rules conflict it has the earlier one, as `other_file`, `other_line`, `other_column` and
/// `other_text`, its line. That of a file that isn't loaded by its flags is of the kind `loading`, with the file, its `state`, which is `disabled`
/// or `complain`, and the cause of that, `by`.
///
/// # Errors
///
/// Where memory runs out. The report on some files may have been appended then.
pub fn check(
    teller: Teller,
    language: Language,
    files: &Files,
    unread: &[Option<UnreadFault>],
    base: &str,
    top: &[TopFile],
    names: &[String],
    out: &mut Vec<u8>,
) -> Result<Checked, AllocError>
    ensures all { IfOk result (λ checked. checked.taken + checked.refused ≡ length names.now) }
    ensures refused { IfOk result (λ checked. checked.refused ≡ refused_count language files.now (map string_bytes names.now)) }
    ensures told { OnOk result ((lines : List ℕ) × (out.new.items ≡ out.old.items ++ lines) × TellsEach teller.form language files.now unread.now base.now (map seen_top top.now) (map string_bytes names.now) lines) }
{
    let mut refused = 0;
    for name in names {
        refused += check_file(
            teller,
            language,
            files,
            unread,
            base.as_bytes(),
            top,
            name.as_bytes(),
            out,
        )?;
    }
    Ok(Checked {
        taken: names.len() - refused,
        refused,
    })
}
