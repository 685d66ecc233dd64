//! Automata while they are built and when they are finished; a finished one finds all patterns that match a text in one run, and can remember what
//! it found on the way. Nothing here knows of patterns' texts.
#![tactic(auto)]

mod drawing;
mod ends;
mod memo;
mod nfa;
mod patterns;
mod recall;

pub use drawing::Drawing;
pub use nfa::Nfa;
pub use patterns::patterns_of;
