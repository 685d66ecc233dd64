//! What all parts of a file's grammar share: the language by which it is read, tokens by what they can be, and the tokens with which a part begins;
//! FLAGS of profiles, children and hats; and why a profile's file is refused, with the number, the name and the place.
#![tactic(auto)]

mod fault;
mod flags;
mod grammar_error;
mod idle;
mod language;
mod laws;
mod profile_error;
mod token;

pub use fault::{Fault, GrammarRefusal, refusal_at};
pub use flags::{Flags, ModeFlag, read_flags};
pub use grammar_error::GrammarError;
pub use idle::{flag_tokens, idle_flags};
pub use language::Language;
pub use laws::{
    what_flags_say, where_flags_are_refused, which_flags_are_kept, which_mode_flags_language_3_has,
};
pub use profile_error::{ProfileError, ProfileRefusal, placed};
pub use token::{
    is_pattern, is_word_of, place_of, read_comma, read_pattern, read_text, unexpected,
};
