//! The files from which a policy is read, by name, in memory; places in them; and the errors of their text. Nothing here opens a file: a caller
//! inserts names and bytes.
#![tactic(auto)]

mod files;
mod folder;
mod limit;
mod text_error;

pub use files::{Files, FilesError};
pub use folder::members;
pub use limit::MOST_BYTES;
pub use text_error::{Place, TextError, TextRefusal, plain, write_error};
