//! Which states are settled.

ghost use Rattle.std.specs.Prelude.{◌≡◌, ◌<◌, true, false, length, IfOk};
ghost use Rattle.aa_glob_nfa.specs.OfTables.{AreSound, graph_of};
ghost use Rattle.aa_glob_pairs.specs.Pairs.{AreClassed};
ghost use Rattle.aa_glob_paths.specs.Settled.{EndsPassedOver, MarksSettled, TakesNoZero};
ghost use Rattle.aa_glob_paths.specs.code.Settling.{StaysPassedOver};

use aa_glob_nfa::{Gate, Tables};
use std::alloc::{AllocError, Global};

/// The class of the patterns that are passed over: texts that one of them matches aren't looked for.
pub const PASSED_OVER: u32 = 2;

// Whether the byte zero leads into a state. It does in no tables that are made of patterns.
fn takes_zero(tables: &Tables) -> bool
    requires { AreSound tables.now }
    ensures { result ≡ false → TakesNoZero (graph_of tables.now) }
{
    for state in 0..tables.states.len() {
        if tables.takes_if(state as u32, Some(0)) {
            return true;
        }
    }
    false
}

// Whether a pattern that is passed over ends at a state itself.
fn is_passed_over(tables: &Tables, classes: &[u32], state: u32) -> bool
    requires classed { AreClassed tables.now classes.now }
    requires is_state { state < length tables.now.states }
    ensures { result ≡ true → EndsPassedOver (graph_of tables.now) classes.now state }
{
    for end in tables.ends_of(state) {
        if classes[end.pattern as usize] == PASSED_OVER {
            return true;
        }
    }
    false
}

// Whether a pattern that is passed over ends at a state, or at one of the states after it to which a way leads on without a byte.
fn leads_to_passed_over(tables: &Tables, classes: &[u32], state: u32) -> bool
    requires classed { AreClassed tables.now classes.now }
    requires is_state { state < length tables.now.states }
    ensures { result ≡ true → EndsPassedOver (graph_of tables.now) classes.now state }
{
    let mut at = state;
    while !is_passed_over(tables, classes, at) {
        if !tables.states.leads_on(at) || !tables.is_free(at + 1) {
            return false;
        }
        at += 1;
    }
    true
}

// Whether each byte but zero stays in a state, and a pattern that is passed over ends wherever the state is reached.
fn stays_passed_over(tables: &Tables, classes: &[u32], state: u32) -> bool
    requires classed { AreClassed tables.now classes.now }
    requires is_state { state < length tables.now.states }
    ensures { result ≡ true → StaysPassedOver (graph_of tables.now) classes.now state }
{
    match tables.states.gate(state) {
        Gate::DoubleStar => leads_to_passed_over(tables, classes, state),
        Gate::Free | Gate::Byte(_) | Gate::Inside | Gate::Class | Gate::Star => false,
    }
}

/// Whether each state is settled: wherever it is reached, a pattern of the class `PASSED_OVER` matches, whatever follows. `classes` has the class of
/// each pattern. It finds the states of a `**` from which the end of such a pattern is reached by ways to the next state.
///
/// # Errors
///
/// Where memory runs out.
pub fn settled_states(
    alloc: Global,
    tables: &Tables,
    classes: &[u32],
) -> Result<Vec<bool>, AllocError>
    requires { AreClassed tables.now classes.now }
    ensures count { IfOk result (λ settled. length settled.items ≡ length tables.now.states) }
    ensures settled { IfOk result (λ settled. MarksSettled (graph_of tables.now) classes.now settled.items) }
{
    let count = tables.states.len();
    let has_none = takes_zero(tables);
    let mut settled = Vec::with_capacity(alloc, count)?;
    for state in 0..count {
        settled.push(!has_none && stays_passed_over(tables, classes, state as u32))?;
    }
    Ok(settled)
}
