//! What the arguments ask for.

use aa_profile_parsing::Language;

/// What the arguments ask for: a run.
#[derive(Drop)]
pub struct Plan {
    /// The language by which files are read.
    pub language: Language,
    /// Whether each profile is loaded in complain mode, whatever its flags.
    pub force_complain: bool,
    /// The folder below which a NAME that isn't an absolute path is looked up.
    pub base: String,
    /// The files and folders to read, in this order. There is at least one.
    pub names: Vec<String>,
}
