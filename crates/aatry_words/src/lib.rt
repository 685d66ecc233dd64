//! Words as people and the kernel write them: which of some known names one may stand for; masks of requests for files, and names of capabilities;
//! and times in UTC.
//!
//! A time is a number of seconds since the beginning of 1970, without leap seconds, and is before the year 10000.
#![tactic(auto)]

mod calendar;
mod capabilities;
mod laws;
mod masks;
mod meaning_laws;
mod moments;
mod named;
mod near;
mod near_laws;
mod numbers;
mod paths;
mod told;

pub use capabilities::{capability_meant, likely_name};
pub use laws::what_moments_are;
pub use masks::{is_mask, need_of, needs_meant, needs_of_mask};
pub use meaning_laws::{what_letters_mean, what_names_mean};
pub use named::time_named;
pub use near::{nearest, nearest_text};
pub use near_laws::which_name_is_nearest;
pub use numbers::number_of;
pub use paths::near_path;
pub use told::push_time;
