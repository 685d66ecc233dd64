//! Two folders of policy that are compared.

use aatry_policy::FolderParts;

/// Two folders of policy that are compared, by their profiles, children and hats.
#[derive(Clone, Copy)]
pub struct BothFolders<'a> {
    /// The old one.
    pub old: FolderParts<'a>,
    /// The new one.
    pub new: FolderParts<'a>,
}
