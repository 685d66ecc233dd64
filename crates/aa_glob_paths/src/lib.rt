//! Which patterns match some path together: each such set of patterns once, with one of the shortest paths, so that these paths stand for all. It is
//! the subset construction: the sets of states of an automaton that are live together after some text, each with such a text, all of them where they
//! are no more than a limit.
//!
//! Use it to ask a question about all paths; a single path is asked of `Automaton` in `aa_glob`. There may be exponentially many sets, so a caller
//! gives a limit.
#![tactic(auto)]

mod all_paths;
mod bytes;
mod closing;
mod fronts;
mod laws;
mod lives;
mod of_sets;
mod origin;
mod outcome;
mod set_laws;
mod sets;
mod settled;
mod told;
mod wanted;
mod witness;

pub use all_paths::outcomes;
pub use closing::reachable;
pub use laws::outcomes_stand_for_all;
pub use origin::Origin;
pub use outcome::Outcome;
pub use set_laws::what_sets_tell;
pub use sets::Sets;
pub use settled::{PASSED_OVER, settled_states};
pub use wanted::{WANTED, wanted_states};
