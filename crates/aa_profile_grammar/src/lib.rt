//! The grammar of a profile's file: assignments, profiles with their heads, children and hats, and rules as they are written; the patterns of a
//! file, as its tokens and variables make them; and the places where all of these are written. `read_file` reads the tokens of a file; what it
//! returns borrows them.
#![tactic(auto)]

mod blocks;
mod files;
mod heads;
mod patterns;
mod places;
mod preamble;
mod reading;
mod sequence;
mod so_far;
mod tokens;

pub use aa_profile_parsing::{
    Flags, GrammarError, GrammarRefusal, Language, ModeFlag, what_flags_say,
};
pub use aa_profile_rules::{Access, Qualifiers, Rule, Sockets};
pub use blocks::{Child, Member, Profile};
pub use files::{File, read_file};
pub use heads::Head;
pub use patterns::{MOST_RULES, check_limit, read_patterns};
pub use places::{ProfilePlaces, SectionPlaces};
pub use preamble::Assignment;
pub use reading::{read_places, rule_count};
pub use tokens::pattern_tokens;
