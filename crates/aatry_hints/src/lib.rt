//! What a terminal shows beside the reports: lines in colours, where they are wanted, and for words that ask for nothing a hint on what was meant.
#![tactic(auto)]

mod color_laws;
mod colors;
mod commands;
mod hints;
mod laws;
mod lines;
mod options;
mod painted;
mod parts;
mod together;
mod told;
mod values;
mod wishes;

pub use color_laws::what_colors_tell;
pub use hints::cut_line;
pub use laws::{what_commands_refuse, what_goes_together};
pub use lines::push_colored;
pub use painted::Painted;
pub use told::hint;
pub use wishes::{ColorWish, WithWish, is_colored, wished};
