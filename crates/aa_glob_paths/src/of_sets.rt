//! The outcomes of the sets that are live after texts.

ghost use Rattle.std.specs.Prelude.{◌≡◌, ◌+◌, ◌<◌, length, All, IfOk, IfSome, None, OnOk};
ghost use Rattle.aa_glob_nfa.specs.OfTables.{AreSound, AreSorted, graph_of};
ghost use Rattle.aa_glob_pairs.specs.Graphs.{IsLaid};
ghost use Rattle.aa_glob_pairs.specs.Pairs.{AreClassed};
ghost use Rattle.aa_glob_paths.specs.Found.{AreByLength, AreFound};
ghost use Rattle.aa_glob_paths.specs.Reachable.{AreMoreThan};
ghost use Rattle.aa_glob_paths.specs.code.AllTexts.{AreOutcomesBefore, TellAllTexts, are_told, has_class};
ghost use Rattle.aa_glob_paths.specs.code.Kept.{kept_outcomes};

use crate::closing::reachable;
use crate::outcome::Outcome;
use crate::set_laws::what_sets_tell;
use crate::sets::Sets;
use crate::settled::{PASSED_OVER, settled_states};
use crate::wanted::{WANTED, wanted_states};
use aa_glob_nfa::Tables;
use aa_glob_run::patterns_of;
use indexmap::IndexMap;
use std::alloc::{AllocError, Global};

// Whether one of the patterns at some places is of a class.
fn has_class(classes: &[u32], class: u32, places: &[usize]) -> bool
    requires { All (λ p. p < length classes.now) places.now }
    ensures { result ≡ has_class classes.now class places.now }
{
    for place in places {
        if classes[*place] == class {
            return true;
        }
    }
    false
}

// Whether one of the patterns at some places is wanted, and none is passed over.
fn are_told(classes: &[u32], places: &[usize]) -> bool
    requires { All (λ p. p < length classes.now) places.now }
    ensures { result ≡ are_told classes.now places.now }
{
    has_class(classes, WANTED, places) && !has_class(classes, PASSED_OVER, places)
}

// Adds the patterns that end in the set of a number to the outcomes of the sets before it, with the text that leads to it, if one of them is wanted,
// none is passed over, and they aren't there.
fn put_outcome(
    alloc: Global,
    tables: &Tables,
    classes: &[u32],
    sets: &Sets,
    number: usize,
    kept: &mut IndexMap<Vec<usize>, Vec<u8>>,
) -> Result<(), AllocError>
    requires sound { AreSound tables.now }
    requires sorted { AreSorted tables.now }
    requires classed { AreClassed tables.now classes.now }
    requires found { AreFound (graph_of tables.now) (length tables.now.states) sets.now }
    requires by_length { AreByLength sets.now }
    requires within { number < length sets.now }
    requires before { AreOutcomesBefore (graph_of tables.now) classes.now sets.now number (kept_outcomes kept.old.entries) }
    ensures { OnOk result (AreOutcomesBefore (graph_of tables.now) classes.now sets.now (number + 1) (kept_outcomes kept.new.entries)) }
{
    let places = patterns_of(alloc, tables, sets.set(number))?;
    if !are_told(classes, &places) {
        return Ok(());
    }
    if kept.contains_key(places.as_slice()) {
        return Ok(());
    }
    let path = sets.text(alloc, number)?;
    kept.insert(places, path)?;
    Ok(())
}

// The outcomes that were kept, as a list.
fn listed(alloc: Global, kept: IndexMap<Vec<usize>, Vec<u8>>) -> Result<Vec<Outcome>, AllocError>
    ensures { IfOk result (λ outcomes. outcomes.items ≡ kept_outcomes kept.entries) }
{
    let mut outcomes = Vec::with_capacity(alloc, kept.len())?;
    for (places, path) in kept {
        outcomes.push(Outcome { places, path })?;
    }
    Ok(outcomes)
}

// The outcomes of all sets.
fn outcomes_of(
    alloc: Global,
    tables: &Tables,
    classes: &[u32],
    sets: &Sets,
) -> Result<Vec<Outcome>, AllocError>
    requires sound { AreSound tables.now }
    requires sorted { AreSorted tables.now }
    requires classed { AreClassed tables.now classes.now }
    requires found { AreFound (graph_of tables.now) (length tables.now.states) sets.now }
    requires by_length { AreByLength sets.now }
    ensures { IfOk result (λ outcomes. AreOutcomesBefore (graph_of tables.now) classes.now sets.now (length sets.now) outcomes.items) }
{
    let mut kept = IndexMap::new(alloc);
    for number in 0..sets.len() {
        put_outcome(alloc, tables, classes, sets, number, &mut kept)?;
    }
    listed(alloc, kept)
}

/// The outcomes of all texts that lead to an end of a wanted pattern, and to none of one that is passed over; `None` where there are more sets than
/// `limit`.
///
/// # Errors
///
/// Where memory runs out.
pub fn outcomes_in(
    alloc: Global,
    tables: &Tables,
    classes: &[u32],
    limit: usize,
) -> Result<Option<Vec<Outcome>>, AllocError>
    requires classed { AreClassed tables.now classes.now }
    requires later { IsLaid (graph_of tables.now) }
    ensures told { IfOk result (λ found. IfSome found (λ outcomes. TellAllTexts (graph_of tables.now) classes.now outcomes.items)) }
    ensures full { IfOk result (λ found. found ≡ None → AreMoreThan (graph_of tables.now) limit) }
{
    what_sets_tell();
    let wanted = wanted_states(alloc, tables, classes)?;
    let settled = settled_states(alloc, tables, classes)?;
    match reachable(alloc, tables, &wanted, &settled, limit)? {
        None => Ok(None),
        Some(sets) => Ok(Some(outcomes_of(alloc, tables, classes, &sets)?)),
    }
}
