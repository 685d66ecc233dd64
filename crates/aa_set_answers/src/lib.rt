//! What a policy set answers: to questions, as values and as the lines of replies; to `show`, what a profile has; and to `list`, all that is loaded.
#![tactic(auto)]

mod answers;
mod asker;
mod laws;
mod list;
mod names;
mod rule_lines;
mod show;
mod stacks;
mod states;

pub use answers::{Answered, access_answer, exec_answer, lines_of, shown_lines};
pub use asker::find_asker;
pub use laws::where_listed_names_lead;
pub use list::list_lines;
pub use names::full_name;
pub use rule_lines::{push_exec_transition, push_rule};
pub use show::push_attachment;
pub use stacks::stack_name;
pub use states::mode_word;
