//! Whether a program ever runs unconfined that somebody starts, by the policy of a folder.

ghost use Rattle.std.specs.Prelude.{◌≡◌, IfErr, IfOk, codes, drop, map, string_bytes};
ghost use Rattle.std.specs.Str.{bytes_eq};
ghost use Rattle.aatry_arguments.specs.Given.{meant_paths};
ghost use Rattle.aatry_claims.specs.Never.{seen_paths_report};
ghost use Rattle.aatry_folder.specs.Unread.{IsOfFolder};
ghost use Rattle.aatry_policy.specs.Folders.{loaded_in, policy_in, seen_folder};
ghost use Rattle.aatry_never_exec.specs.NeverExec.{IsClaimTold, IsEndOfClaim, IsExecFoundTold, IsExecTold, IsExecToldIn, ask_exec, asks_exec};

use crate::telling::{has_many, is_refuted, push_all};
use aa_profile_parsing::Language;
use aa_start::FileSystem;
use aatry_arguments::{AllPaths, Asking};
use aatry_claims::{PathsReport, paths_fault, paths_folder, slices_of};
use aatry_folder::{Fault, Folders, PolicyFolder, Report, failed_by, policy_below};
use aatry_policy::{LoadedFolder, load_folder};
use aatry_reach::find;
use aatry_report::Teller;
use std::alloc::{AllocError, Global};

/// How it is asked and told.
#[derive(Clone, Copy)]
pub struct How {
    /// Whether names alone are to be told, without chains.
    pub names: bool,
    /// How many sets of states are to be looked at, at most, for each who starts programs.
    pub limit: usize,
}

/// What it came to.
#[derive(Clone, Copy)]
pub struct Outcome {
    /// Whether a program of somebody runs unconfined, or nobody has one of the names.
    pub refuted: bool,
    /// Whether it isn't known of somebody whether one does.
    pub undecided: bool,
}

// Whether a word is `exec`.
fn is_exec(word: &str) -> bool
    ensures { result ≡ bytes_eq word.now (codes "exec") }
{
    word.as_bytes() == b"exec".as_slice()
}

// Whether words ask whether a program ever runs unconfined.
fn ask_exec(words: &[String]) -> bool
    ensures { result ≡ ask_exec (map string_bytes words.now) }
{
    match words {
        [first, _, ..] => is_exec(first.as_str()),
        _ => false,
    }
}

// The words behind the first.
fn behind_first(words: &[String]) -> &[String]
    ensures { map string_bytes result.now ≡ drop 1 (map string_bytes words.now) }
{
    match words {
        [_, behind @ ..] => behind,
        [] => words,
    }
}

// The bytes of these, none of them copied.
fn names_behind(alloc: Global, words: &[String]) -> Result<Vec<&[u8]>, AllocError>
    ensures { IfOk result (λ names. map (λ name. name.now) names.items ≡ drop 1 (map string_bytes words.now)) }
{
    slices_of(alloc, behind_first(words))
}

// Finds it by what is loaded of a folder, and appends what is told of it to a text.
fn tell(
    teller: Teller,
    how: How,
    loaded: &LoadedFolder<'_>,
    names: &[&[u8]],
    out: &mut Vec<u8>,
) -> Result<Outcome, AllocError>
    requires { loaded.now.policy.manager ≡ loaded_in (seen_folder loaded.now.folder.now) }
    ensures { IfOk result (λ told. IsExecFoundTold teller.form how.names how.limit (policy_in (seen_folder loaded.now.folder.now)) (map (λ name. name.now) names.now)
        out.old.items out.new.items told.refuted told.undecided) }
{
    let set = loaded.policy.manager.policy_set();
    let slots = set.slots();
    let found = find(teller.alloc, &slots, names, how.limit)?;
    push_all(teller, how.names, &slots, &found, out)?;
    Ok(Outcome {
        refuted: is_refuted(&found),
        undecided: has_many(&found),
    })
}

// The same of a folder that was read, by the words behind the first.
fn told_of(
    teller: Teller,
    how: How,
    folder: &PolicyFolder<'_>,
    words: &[String],
) -> Result<PathsReport, AllocError>
    ensures { IfOk result (λ told. IsExecToldIn teller.form teller.verbose how.names how.limit (drop 1 (map string_bytes words.now)) (seen_folder folder.now) (seen_paths_report told)) }
{
    let names = names_behind(teller.alloc, words)?;
    let mut report = Report::new(teller.alloc);
    let loaded = load_folder(teller, folder, &mut report)?;
    let told = tell(teller, how, &loaded, &names, &mut report.text)?;
    report.failed = failed_by(!told.refuted);
    Ok(PathsReport {
        report,
        undecided: told.undecided,
    })
}

// The same of a folder by its name.
fn exec_folder<F: Folders, D: FileSystem>(
    teller: Teller,
    language: Language,
    folders: &F,
    disk: &D,
    asked: AllPaths,
) -> Result<PathsReport, Fault>
    ensures told { IfOk result (λ told. IsExecTold teller.form teller.verbose language (F.told folders.now) (D.known disk.now) (meant_paths asked) (seen_paths_report told)) }
    ensures fault { IfErr result (IsOfFolder (F.told folders.now) (string_bytes asked.asking.base)) }
{
    let AllPaths {
        asking,
        always: _,
        names,
        limit,
    } = asked;
    let Asking { base, words } = asking;
    let folder = policy_below(teller.alloc, language, folders, disk, base.as_str())?;
    Ok(told_of(teller, How { names, limit }, &folder, &words)?)
}

// Whether it is asked whether a program ever runs unconfined.
fn asks_exec(asked: &AllPaths) -> bool
    ensures { result ≡ asks_exec (meant_paths asked.now) }
{
    !asked.always && ask_exec(&asked.asking.words)
}

/// Whether what is claimed of all paths holds, by the policy of a folder, read by a language. Where `never` is claimed, and the words are `exec` and the full
/// names of some who start programs, it is claimed that no program that one of these starts, or that such a one starts in turn, ever runs unconfined
/// (`aa_explain_reach::reachable_profiles`, `what_never_exec_says`); any other claim is about an access (`aatry_claims::paths_folder`). Reads the folder as
/// `aatry_folder::policy_below` does. First come the files that are left out, where they are told, and it is noted how many they are
/// (`aatry_policy::load_folder`). Then come those who were named, in the order of the words, each with a line that begins with the answer, and where a program
/// runs unconfined with the chain of starts by which one does, unless names alone are to be told (`push_all`). The word `unconfined` names a task that
/// nothing confines.
///
/// - `never`: no such program runs unconfined; behind it stands how many places are reached.
/// - `no`: one may.
/// - `many`: it isn't known, since somebody's paths are too many.
/// - `absent`: nobody has the name.
///
/// One failed where a line begins with `no` or `absent`; and it is undecided where one begins with `many`.
///
/// # Errors
///
/// - `Unreadable` with the first folder or file that can't be read.
/// - `TooMany` where there are more than 65,536 files and folders.
/// - `BadQuestion` where the words ask nothing, or a rule with the pattern is refused.
/// - `NoMemory` where memory ran out.
pub fn claim_folder<F: Folders, D: FileSystem>(
    teller: Teller,
    language: Language,
    folders: &F,
    disk: &D,
    asked: AllPaths,
) -> Result<PathsReport, Fault>
    ensures told { IfOk result (λ told. IsClaimTold teller.form teller.verbose language (F.told folders.now) (D.known disk.now) (meant_paths asked) (seen_paths_report told)) }
    ensures fault { IfErr result (IsEndOfClaim language (F.told folders.now) (D.known disk.now) (meant_paths asked)) }
{
    if asks_exec(&asked) {
        exec_folder(teller, language, folders, disk, asked)
    } else {
        paths_folder(teller, language, folders, disk, asked)
    }
}

// What is wrong with words of which the first is `exec`, and which ask nothing.
fn exec_fault(always: bool) -> &'static [u8] {
    if always {
        b"aatry: exec goes with never only, not with always\n"
    } else {
        b"aatry: never exec requires a WHO\n"
    }
}

/// The line that tells what is wrong with words that claim nothing of all paths: where `exec` is the first, that it stands behind `never` alone, or that nobody
/// is named, and else what `aatry_claims::paths_fault` tells.
///
/// # Errors
///
/// Where memory runs out.
pub fn claim_fault(alloc: Global, always: bool, words: &[String]) -> Result<Vec<u8>, AllocError> {
    match words {
        [first, ..] if is_exec(first.as_str()) => Vec::from_slice(alloc, exec_fault(always)),
        _ => paths_fault(alloc, words),
    }
}
