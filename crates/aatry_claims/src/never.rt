//! Claims about all paths, asked of the policy of a folder.

ghost use Rattle.std.specs.Prelude.{◌≡◌, ◌⊎◌, IfErr, IfOk, map, string_bytes};
ghost use Rattle.aa_start.specs.Gathering.{texts_of};
ghost use Rattle.aatry_folder.specs.declared.fault.Fault.TheVariants as fault;
ghost use Rattle.aatry_claims.specs.Ends.{AskNoPaths, IsEndOfPaths};
ghost use Rattle.aatry_claims.specs.Never.{IsClaimTold, IsPathsTold, IsPathsToldBelow, claim_of, seen_paths_report};
ghost use Rattle.aatry_claims.specs.SeenClaimed.{seen_claimed};
ghost use Rattle.aatry_policy.specs.Folders.{loaded_in, origins_in, seen_folder};

use crate::breaking::Claimed;
use crate::found::{Inquiry, every_rule, find};
use crate::patterns::asked_patterns;
use crate::telling::{has_undecided, is_refuted, push_all};
use crate::words::path_words;
use aa_explain_paths::{Claim, PathQuestion};
use aa_glob_pattern::Pattern;
use aa_profile_parsing::Language;
use aa_start::FileSystem;
use aatry_arguments::{AllPaths, Asking};
use aatry_folder::{Fault, Folders, PolicyFolder, Report, failed_by, policy_below};
use aatry_policy::{LoadedFolder, load_folder, parts_of};
use aatry_report::Teller;
use std::alloc::{AllocError, Global};

/// The outcome of a question about all paths.
#[derive(Drop)]
pub struct PathsReport {
    /// The report, with its notes and failures: it failed where a name breaks the claim, or doesn't exist.
    pub report: Report,
    /// Whether the claim is undecided for a name, since there were too many paths.
    pub undecided: bool,
}

/// How a question about all paths is to be answered.
#[derive(Clone, Copy)]
pub struct PathsAsked {
    /// The claim.
    pub claim: Claim,
    /// Whether only names are reported, without rules.
    pub names: bool,
    /// How many sets of states are looked at, at most, for each profile, child or hat that is asked about.
    pub limit: usize,
}

// The claim of `always`, or of `never`.
fn claim_of(always: bool) -> Claim
    ensures { result ≡ claim_of always }
{
    if always { Claim::Always } else { Claim::Never }
}

// Appends the report on the claim by the policy of a loaded folder to the report so far, and notes whether it failed, and is undecided.
fn tell(
    teller: Teller,
    loaded: &LoadedFolder<'_>,
    asked: PathsAsked,
    claimed: Claimed<'_>,
    patterns: &[Pattern],
    report: &mut Report,
) -> Result<bool, AllocError>
    requires set { loaded.now.policy.manager ≡ loaded_in (seen_folder loaded.now.folder.now) }
    requires origins { loaded.now.policy.origins.items ≡ origins_in (seen_folder loaded.now.folder.now) }
    ensures told { IfOk result (λ undecided. IsClaimTold teller.form asked.names asked.limit (seen_folder loaded.now.folder.now) (seen_claimed claimed.entry)
        patterns.now report.old.text.items report.new.text.items report.new.failed undecided) }
    ensures notes { report.new.notes ≡ report.old.notes }
{
    let set = loaded.policy.manager.policy_set();
    let parts = parts_of(teller.alloc, &set, &loaded.policy.origins)?;
    let question = PathQuestion {
        claim: claimed.claim,
        letters: claimed.words.letters,
        whose: claimed.words.whose,
        patterns,
    };
    let all = [every_rule(teller.alloc)?];
    let inquiry = Inquiry {
        question,
        limit: asked.limit,
        parts: &parts,
        all: &all,
    };
    let found = find(teller.alloc, inquiry, claimed.words.whom)?;
    push_all(
        teller,
        asked.names,
        loaded.folder.lent(),
        claimed,
        &found,
        &mut report.text,
    )?;
    report.failed = failed_by(!is_refuted(&found));
    Ok(has_undecided(&found))
}

/// The bytes of words, none of them copied.
///
/// # Errors
///
/// Where memory runs out.
pub fn slices_of(alloc: Global, words: &[String]) -> Result<Vec<&[u8]>, AllocError>
    ensures { IfOk result (λ slices. map (λ word. word.now) slices.items ≡ map string_bytes words.now) }
{
    let mut slices = Vec::with_capacity(alloc, words.len())?;
    for word in words {
        slices.push(word.as_bytes())?;
    }
    Ok(slices)
}

// The outcome for a folder that was read, by words, with the files that are left out in front of the report, and the notes on them.
fn told_of(
    teller: Teller,
    folder: &PolicyFolder<'_>,
    asked: PathsAsked,
    words: &[String],
) -> Result<PathsReport, Fault>
    ensures told { IfOk result (λ told. IsPathsTold teller.form teller.verbose asked.claim asked.names asked.limit (seen_folder folder.now) (map string_bytes words.now) (seen_paths_report told)) }
    ensures fault { IfErr result (λ told. (told ≡ fault.NoMemory)
        ⊎ ((told ≡ fault.BadQuestion) × AskNoPaths folder.now.language folder.now.files (map string_bytes words.now))) }
{
    let slices = slices_of(teller.alloc, words)?;
    let Some(words) = path_words(&slices) else {
        return Err(Fault::BadQuestion);
    };
    let Some(patterns) = asked_patterns(
        teller.alloc,
        folder.language,
        &folder.files,
        words.pattern,
    )?
    else {
        return Err(Fault::BadQuestion);
    };
    let mut report = Report::new(teller.alloc);
    let loaded = load_folder(teller, folder, &mut report)?;
    let claimed = Claimed {
        claim: asked.claim,
        words,
    };
    let undecided = tell(teller, &loaded, asked, claimed, &patterns, &mut report)?;
    Ok(PathsReport { report, undecided })
}

/// Whether a claim about all paths holds for profiles, children and hats of a folder, read by a language: `never`, that they allow none of some
/// access to any file of a pattern, or `always`, that they allow all of it to each. The words give the letters, whose files, the pattern and who is
/// asked about (`path_words`); the pattern is expanded like that of a rule, by the folder's variables (`asked_patterns`). The folder is read as by
/// `aatry_folder::policy_below`. First come the files that are left out, where these are reported, and it is noted how many they are
/// (`aatry_policy::load_folder`). Then come those who are asked about, in the order of the words, or of the set where all are: a line for each that
/// begins with the answer, and where a path breaks the claim the rules that decide it (`aatry_why_lines::push_why`), unless only names are reported.
/// The claim is about the rules in enforce mode (`aa_explain_paths::ask_all_paths`).
/// - `never` or `always`: the claim holds; it is followed by how many kinds of paths there are.
/// - `no`: this path, than which none is shorter, breaks the claim. Where no rule decides, everything is allowed.
/// - `many`: there are too many different paths, more than the limit; the claim is undecided.
/// - `absent`: there is no profile, child or hat of the name.
///
/// As records the lines are of the kind `paths`, with the members `who` and `answer`; `kinds` where the claim holds; `path`, `letters` and `owned`
/// where a path breaks it; and `mode`: the mode, or `disabled`, of who exists.
///
/// # Errors
///
/// - `Unreadable` with the first folder or file that can't be read.
/// - `TooMany` where there are more than 65,536 files and folders.
/// - `BadQuestion` where the words make no question, or a rule with the pattern is refused.
/// - `NoMemory` where memory ran out.
pub fn paths_folder<F: Folders, D: FileSystem>(
    teller: Teller,
    language: Language,
    folders: &F,
    disk: &D,
    asked: AllPaths,
) -> Result<PathsReport, Fault>
    ensures told { IfOk result (λ told. IsPathsToldBelow teller.form teller.verbose language (F.told folders.now) (D.known disk.now) (string_bytes asked.asking.base)
        (texts_of asked.asking.words) (claim_of asked.always) asked.names asked.limit (seen_paths_report told)) }
    ensures fault { IfErr result (IsEndOfPaths language (F.told folders.now) (D.known disk.now) (string_bytes asked.asking.base) (texts_of asked.asking.words)) }
{
    let AllPaths {
        asking,
        always,
        names,
        limit,
    } = asked;
    let Asking { base, words } = asking;
    let how = PathsAsked {
        claim: claim_of(always),
        names,
        limit,
    };
    let folder = policy_below(teller.alloc, language, folders, disk, base.as_str())?;
    told_of(teller, &folder, how, &words)
}
