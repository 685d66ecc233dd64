//! The state of a session over a folder of policy.

use aa_profile_parsing::Language;
use aa_text_files::Files;
use aatry_session::Session;

/// What stays the same through a session: the language by which it reads policy, its folder of policy on disk, and what is written before a line is
/// read.
#[derive(Drop)]
pub struct Setting<'a, F, D> {
    /// The language.
    pub language: Language,
    /// The folders of the disk.
    pub folders: &'a F,
    /// The files of the disk.
    pub disk: &'a D,
    /// The path of the folder.
    pub base: &'a str,
    /// What is written before a line is read.
    pub prompt: &'a [u8],
}

/// A session over a folder, and everything below that, as it was read last.
#[derive(Drop)]
pub struct Table {
    /// What lies below the folder.
    pub files: Files,
    /// The session.
    pub session: Session,
}
