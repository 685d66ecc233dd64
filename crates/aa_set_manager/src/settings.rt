//! How the profiles of a policy set are read and loaded.

use aa_profile_parsing::Language;

/// How the profiles of a policy set are read and loaded.
#[derive(Clone, Copy, Debug, PartialEq, Eq)]
pub struct Settings {
    /// The language by which files are read.
    pub language: Language,
    /// Whether each profile is loaded in complain mode, and so are its children and hats, whatever their flags (the option `-C`).
    pub force_complain: bool,
}
