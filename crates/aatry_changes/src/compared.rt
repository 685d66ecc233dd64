//! Two folders of policy that are compared, and what is left out of the new one.

use aatry_policy::FolderParts;
use aatry_uncertain::LeftOutHeads;

/// Two folders of policy that are compared.
#[derive(Clone, Copy)]
pub struct Compared<'a> {
    /// The old one.
    pub old: &'a FolderParts<'a>,
    /// The new one.
    pub new: &'a FolderParts<'a>,
    /// The heads of profiles in those of its files that are left out.
    pub left_out: &'a LeftOutHeads<'a>,
}
