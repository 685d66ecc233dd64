//! Folders of policy by their parts.

use crate::parts::Part;
use aatry_folder::PolicyFiles;

/// A folder of policy by its parts.
#[derive(Clone, Copy)]
pub struct FolderParts<'a> {
    /// What lies below it.
    pub below: PolicyFiles<'a>,
    /// Its profiles, children and hats.
    pub parts: &'a [Part<'a>],
}
