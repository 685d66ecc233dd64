//! The command `diff`: two folders of policy, compared by their profiles and by their answers to the same questions.
#![tactic(auto)]

mod alike;
mod answers;
mod asked;
mod below;
mod comparing;
mod differences;
mod finding;
mod folders;
mod laws;
mod newly;
mod summary;

pub use alike::alike_folders_answer_alike;
pub use below::diff_folders;
pub use laws::{what_alike_folders_answer, what_differs_is_told, what_is_alike_is_not_told};
