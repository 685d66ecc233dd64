//! The pairs of states of a graph that one text reaches together, and where patterns of different classes end so. Pairs that wait to be looked at
//! are kept by their first number. Nothing here knows of patterns' texts.
#![tactic(auto)]

mod below;
mod belows;
mod bytes;
mod clash;
mod encoding;
mod ends;
mod meeting;
mod moves;
mod nodes;
mod place;
mod rows;
mod visit;
mod waiting;

pub use below::Below;
pub use belows::{Belows, belows_of};
pub use clash::first_clash;
pub use place::Place;
pub use waiting::Waiting;
