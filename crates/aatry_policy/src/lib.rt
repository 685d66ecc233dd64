//! The policy set that the files of a folder make together, which of them are left out, where its profiles were read, and its parts: the profiles,
//! and the children and hats of these, with the places of their rules.
#![tactic(auto)]

mod folder;
mod folder_parts;
mod laws;
mod left_out;
mod left_out_files;
mod loaded;
mod notes;
mod origins;
mod parts;
mod policy;
mod refusals;

pub use folder::{LoadedFolder, by_parts, load_folder};
pub use folder_parts::FolderParts;
pub use laws::{
    what_cannot_be_read_gives_no_profile, where_loaded_profiles_are_read,
    where_loaded_rules_are_written, which_rules_parts_have,
};
pub use left_out::{LeftOutWords, push_files, push_reason, put_reason};
pub use left_out_files::{LeftOut, left_out_of};
pub use loaded::what_folders_load;
pub use origins::{Origin, file_of, origin_in, origins_of, rule_places};
pub use parts::{Part, part_of, parts_of};
pub use policy::{Policy, load};
pub use refusals::push_refusal;
