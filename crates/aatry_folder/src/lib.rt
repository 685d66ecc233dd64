//! Folders of policy on disk: which files lie there, which are passed over, and what is read of them; and includes by a whole path, which are looked
//! up below the folder.
#![tactic(auto)]

mod asked;
mod below;
mod fault;
mod folders;
mod laws;
mod loading;
mod member;
mod one_file;
mod passed_over;
mod paths;
mod policy_files;
mod policy_folder;
mod report;
mod whole;

pub use below::{FolderFault, MOST_NAMES, names_below};
pub use fault::Fault;
pub use folders::{Folders, RuntimeFolders};
pub use laws::{
    nothing_that_stands_is_missing, what_cannot_be_read_is_never_entered,
    what_is_missing_is_asked_for, what_stands_is_among_the_names,
};
pub use loading::{Loading, TopFile};
pub use one_file::file_at;
pub use passed_over::{is_kept_aside, is_passed_over};
pub use paths::{front_at, whole_names};
pub use policy_files::PolicyFiles;
pub use policy_folder::{PolicyFolder, policy_below};
pub use report::{Report, failed_by};
