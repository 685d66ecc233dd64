//! A set of AppArmor profiles that answers requests, takes changes, and undoes and redoes them: `Manager` for callers in the same program, and
//! `run`, which reads commands from lines and writes replies. `docs/commands.md` has the commands and replies.
#![tactic(auto)]

mod laws;
mod session;
mod writing;

pub use aa_history::Mark;
pub use aa_profile::{GrammarRefusal, Language, ProfileRefusal};
pub use aa_profile_data::Perms;
pub use aa_set_answers::Answered;
pub use aa_set_commands::{
    Failed, FromRead, Question, Refusal, RefusalKind, Sink, Source, ToWrite, comes_to_end,
};
pub use aa_set_manager::{Manager, PolicySet, Reply, reply_to};
pub use laws::{pieces_change_no_reply, the_way_back, what_faults_leave, where_marks_lead};
pub use session::{RunFault, Summary, run, run_in, run_with, run_with_in};
