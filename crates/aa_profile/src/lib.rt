//! Reading AppArmor profiles: from the files by name (`Files` of `aa_text`) to profiles as plain data, with includes, variables and patterns
//! expanded, or to the first fault with its place. `read_file_in` is the call; a file is read whole, in phases each of which goes over all of it.
#![tactic(auto)]

mod all_rules;
mod assignments;
mod conflicts;
mod file_profiles;
mod file_rules;
mod kept_rules;
mod laws;
mod plainness;
mod profiles;
mod reading;
mod states;

pub use aa_profile_data::{
    CapRule, Child, ExecWord, FileRule, Mode, NetRule, OtherRule, Perms, Profile, Rank, Rule,
    Transition,
};
pub use aa_profile_grammar::{MOST_RULES, ProfilePlaces, SectionPlaces};
pub use aa_profile_parsing::{GrammarRefusal, Language, ProfileError, ProfileRefusal};
pub use assignments::assign_all;
pub use file_profiles::FileProfiles;
pub use laws::{
    how_profiles_are_named, what_language_3_has_not, when_conflicts_are_refused,
    where_rules_are_made, which_numbers_rules_have, which_patterns_read, which_rules_agree,
};
pub use profiles::read_profiles;
pub use reading::{read_file, read_file_in};
