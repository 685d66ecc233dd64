//! The report on a file of policy, for people at a terminal or for programs: that it was taken, or what is wrong with it, where, and the line there.
//!
//! A place is an offset in the text's bytes, from 0, as the readers of profiles' files return it where they refuse. People read it as the line and
//! the column of that byte, with the line itself and a caret below it at the place. An offset at or past the text's end is the place after its last
//! byte. The text is any bytes, UTF-8 or not.
//!
//! Programs get records of JSON, one a line.
#![tactic(auto)]

mod caret_line;
mod faults;
mod file_places;
mod form;
mod headings;
mod laws;
mod line;
mod numbers;
mod place;
mod record;
mod refusals;
mod shown;
mod taken;
mod telling;
mod texts;
mod words;

pub use caret_line::push_caret_line;
pub use faults::{push_fault, push_fault_at, push_place, put_fault, put_fault_at};
pub use file_places::{path_below, put_place};
pub use form::{Form, Teller};
pub use headings::push_heading;
pub use laws::what_places_are;
pub use line::line_at;
pub use numbers::push_number;
pub use place::{LinePlace, Walk, line_place};
pub use record::Record;
pub use refusals::{push_named_refusal, push_placed_refusal, put_named_refusal};
pub use shown::{push_shown, push_shown_lines};
pub use taken::push_taken;
pub use telling::{Field, tell};
pub use words::words_of;
