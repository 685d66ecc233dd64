//! The starts of programs over all paths.

ghost use Rattle.std.specs.Prelude.{◌≡◌, ◌≤◌, AllPairs, IfOk, IfSome, None, OnOk, length};
ghost use Rattle.std.specs.Option.{option_map};
ghost use Rattle.aa_decide.specs.SeenExec.{IsIn, seen_asker, seen_to};
ghost use Rattle.aa_decide_ready.specs.Slots.{filled};
ghost use Rattle.aa_explain_reach.specs.Patterns.{every_pattern, start_patterns};
ghost use Rattle.aa_explain_reach.specs.Places.{is_somewhere};
ghost use Rattle.aa_explain_reach.specs.Starts.{AreStartsOf, place_to_go};
ghost use Rattle.aa_explain_reach.specs.code.Telling.{AddsStart, AddsStarts, AreStartsBy, PutsPlace, has_start};
ghost use Rattle.aa_glob_paths.specs.Laws.{paths_of};
ghost use Rattle.aa_glob_paths.specs.TooMany.{AreMoreTextsThan};

use crate::patterns::every_pattern;
use crate::places::{leads_somewhere, same_to};
use crate::ready::{ReadyAsker, exec_ready};
use crate::standing::starting_outcomes;
use crate::start::Start;
use aa_decide::{Asker, ExecTo, IndexedSlots};
use aa_glob_paths::{Outcome, outcomes_stand_for_all};
use aa_glob_pattern::Pattern;
use std::alloc::{AllocError, Global};

/// Whether one of some starts goes to a place. It takes no memory.
pub fn has_start(starts: &[Start<'_>], to: ExecTo<'_>) -> bool
    ensures { result ≡ has_start to.entry starts.now }
{
    let mut rest = starts;
    while let [start, behind @ ..] = rest {
        if same_to(start.to, to) {
            return true;
        }
        rest = behind;
    }
    false
}

// Appends the start of the program of a path that goes to a place to others, if it is started, and none of these goes
// there.
fn put_place<'a>(
    alloc: Global,
    to: ExecTo<'a>,
    owned: bool,
    path: &[u8],
    starts: &mut Vec<Start<'a>>,
) -> Result<(), AllocError>
    ensures { OnOk result (PutsPlace to.entry owned path.now starts.old.items starts.new.items) }
{
    if !leads_somewhere(to) {
        return Ok(());
    }
    if has_start(starts, to) {
        return Ok(());
    }
    starts.push(Start {
        to,
        owned,
        path: Vec::from_slice(alloc, path)?,
    })?;
    Ok(())
}

// The same of the start of the program of a path by who asks.
fn put_start<'a>(
    alloc: Global,
    slots: &IndexedSlots<'_>,
    ready: &ReadyAsker<'a>,
    owned: bool,
    path: &[u8],
    starts: &mut Vec<Start<'a>>,
) -> Result<(), AllocError>
    requires { IfSome ready.now (IsIn slots.now) }
    ensures { OnOk result (AddsStart slots.now (option_map seen_asker ready.now) owned path.now starts.old.items starts.new.items) }
{
    let found = exec_ready(alloc, slots, ready, owned, path)?;
    put_place(alloc, found.to, owned, path, starts)
}

// The same of both owners, if the path is absolute.
fn put_starts<'a>(
    alloc: Global,
    slots: &IndexedSlots<'_>,
    ready: &ReadyAsker<'a>,
    every: &Pattern,
    path: &[u8],
    starts: &mut Vec<Start<'a>>,
) -> Result<(), AllocError>
    requires asker { IfSome ready.now (IsIn slots.now) }
    requires every { every.now ≡ every_pattern }
    ensures { OnOk result (AddsStarts slots.now (option_map seen_asker ready.now) path.now starts.old.items starts.new.items) }
{
    if !every.matches(path) {
        return Ok(());
    }
    put_start(alloc, slots, ready, false, path, starts)?;
    put_start(alloc, slots, ready, true, path, starts)
}

// The starts of the programs of the paths of outcomes.
fn starts_by<'a>(
    alloc: Global,
    slots: &IndexedSlots<'_>,
    ready: &ReadyAsker<'a>,
    outcomes: &[Outcome],
) -> Result<Vec<Start<'a>>, AllocError>
    requires asker { IfSome ready.now (IsIn slots.now) }
    requires by_length { AllPairs (λ one later. length one.path.items ≤ length later.path.items) outcomes.now }
    ensures { IfOk result (λ starts. AreStartsBy slots.now (option_map seen_asker ready.now) (paths_of outcomes.now) starts.items) }
{
    let every = every_pattern(alloc)?;
    let mut starts = Vec::new(alloc);
    let mut rest = outcomes;
    while let [outcome, behind @ ..] = rest {
        put_starts(alloc, slots, ready, &every, &outcome.path, &mut starts)?;
        rest = behind;
    }
    Ok(starts)
}

/// Each place that programs go to which someone starts, of all absolute paths of any bytes, as far as the kernel may
/// ask about them (`aa_explain_paths::ask_all_paths`), by `aa_decide::exec_by`: with one of the shortest paths that
/// lead there (`which_starts_are_shortest`), and whether its file is the task's user's. What isn't started isn't told.
/// No one in particular starts programs as a task does that nothing confines.
///
/// No place is left out: each path whose program is started is matched by the same patterns as one of those that are
/// looked at, which is no longer (`how_starts_depend_on_paths`): of the rules of who asks that deny starts or have an
/// exec word, of the attachments of all profiles in force, and of those of its own children. None where more than
/// `limit` sets of states of these patterns' automaton were to be looked at for that.
///
/// It takes time and memory for each of these sets and each of its states, for one automaton of the rules of who asks,
/// and twice the time of a start by that for each of the paths that stand for all.
///
/// # Errors
///
/// Where memory runs out, and where there are more than 4,294,967,295 patterns or states.
pub fn starts_of<'a>(
    alloc: Global,
    slots: &IndexedSlots<'_>,
    asker: Option<Asker<'a>>,
    limit: usize,
) -> Result<Option<Vec<Start<'a>>>, AllocError>
    requires { IfSome asker (IsIn slots.now) }
    ensures told { IfOk result (λ found. IfSome found (λ starts. AreStartsOf slots.now (option_map seen_asker asker.entry) starts.items)) }
    ensures full { IfOk result (λ found. found ≡ None
        → AreMoreTextsThan (start_patterns (filled slots.now) (option_map seen_asker asker.entry)) limit) }
{
    outcomes_stand_for_all();
    match starting_outcomes(alloc, slots.as_slice(), asker, limit)? {
        None => Ok(None),
        Some(outcomes) => {
            let ready = ReadyAsker::of(alloc, asker)?;
            Ok(Some(starts_by(alloc, slots, &ready, &outcomes)?))
        }
    }
}
