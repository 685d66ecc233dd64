//! What a change of policy changes: what one of two profiles, children or hats has and the other doesn't, as values. Nothing is decided here; what a
//! change means for all paths is found by `aa_explain_changes`.
#![tactic(auto)]

mod comparing;
mod features;
mod laws;
mod same;
mod sections;

pub use comparing::lacking;
pub use features::{Feature, features_of};
pub use laws::sections_alike_answer_alike;
pub use sections::Section;
