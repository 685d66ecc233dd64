//! What lies below a folder of policy, borrowed.

use aa_text_files::Files;

/// What lies below a folder of policy, borrowed.
#[derive(Clone, Copy)]
pub struct PolicyFiles<'a> {
    /// All files and folders below it, by their names in it.
    pub files: &'a Files,
    /// Its path.
    pub base: &'a [u8],
}
