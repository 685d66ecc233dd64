//! Paths that stand for all whose programs are started.

ghost use Rattle.std.specs.Prelude.{◌≡◌, ◌++◌, IfOk, IfSome, None};
ghost use Rattle.std.specs.Option.{option_map};
ghost use Rattle.aa_decide.specs.SeenExec.{seen_asker};
ghost use Rattle.aa_decide_ready.specs.Slots.{filled};
ghost use Rattle.aa_explain_paths.specs.Meant.{unasked_patterns};
ghost use Rattle.aa_explain_paths.specs.Telling.{classes_among, telling_among};
ghost use Rattle.aa_explain_reach.specs.Patterns.{start_classes, start_patterns};
ghost use Rattle.aa_glob_paths.specs.AllPaths.{TellAllPaths};
ghost use Rattle.aa_glob_paths.specs.TooMany.{AreMoreTextsThan};
ghost use Rattle.aa_profile_data.specs.FileRules.{file_patterns};

use crate::patterns::{attachment_patterns, start_rules, wanted_patterns};
use aa_decide::{Asker, Entry};
use aa_decide_ready::with_files;
use aa_explain_paths::{file_count, standing_paths, unasked_patterns};
use aa_glob::AutomatonBuilder;
use aa_glob_paths::Outcome;
use aa_glob_pattern::Pattern;
use aa_profile_data::Rule;
use std::alloc::{AllocError, Global};

/// Paths that stand for all that one of some patterns matches that are wanted, by these, the rules' patterns and others,
/// as far as the kernel may ask about them; none where they are too many.
///
/// # Errors
///
/// Where memory runs out, and where there are more than 4,294,967,295 patterns or states.
pub fn standing_among(
    alloc: Global,
    rules: &[Rule],
    others: &[Pattern],
    wanted: &[Pattern],
    limit: usize,
) -> Result<Option<Vec<Outcome>>, AllocError>
    ensures told { IfOk result (λ found. IfSome found (λ outcomes.
        TellAllPaths (telling_among (file_patterns rules.now ++ others.now) wanted.now unasked_patterns)
        (classes_among (file_patterns rules.now ++ others.now) wanted.now unasked_patterns) outcomes.items)) }
    ensures full { IfOk result (λ found. found ≡ None
        → AreMoreTextsThan (telling_among (file_patterns rules.now ++ others.now) wanted.now unasked_patterns) limit) }
{
    let unasked = unasked_patterns(alloc)?;
    let none = AutomatonBuilder::new(alloc)?;
    let files = with_files(none, alloc, rules)?;
    let all = files.add_each(alloc, others)?;
    let Some(count) = file_count(rules).checked_add(others.len()) else {
        return Err(AllocError);
    };
    standing_paths(alloc, all, count, wanted, &unasked, limit)
}

/// Paths that stand for all whose programs are started by who asks, as far as the kernel may ask about them; none
/// where they are too many.
///
/// # Errors
///
/// Where memory runs out, and where there are more than 4,294,967,295 patterns or states.
pub fn starting_outcomes(
    alloc: Global,
    slots: &[Option<Entry>],
    asker: Option<Asker<'_>>,
    limit: usize,
) -> Result<Option<Vec<Outcome>>, AllocError>
    ensures told { IfOk result (λ found. IfSome found (λ outcomes.
        TellAllPaths (start_patterns (filled slots.now) (option_map seen_asker asker.entry))
        (start_classes (filled slots.now) (option_map seen_asker asker.entry)) outcomes.items)) }
    ensures full { IfOk result (λ found. found ≡ None
        → AreMoreTextsThan (start_patterns (filled slots.now) (option_map seen_asker asker.entry)) limit) }
{
    let rules = start_rules(alloc, asker)?;
    let others = attachment_patterns(alloc, slots, asker)?;
    let wanted = wanted_patterns(alloc, asker, &rules)?;
    standing_among(alloc, &rules, &others, &wanted, limit)
}
