//! The profiles of a file, and the places where they are written.

use aa_profile_data::Profile;
use aa_profile_grammar::ProfilePlaces;

/// The profiles of a file, and the places where they are written. A profile doesn't have its places in itself, so that two rules are equal wherever
/// they are written.
#[derive(Drop)]
pub struct FileProfiles {
    /// The profiles, in the order of the file.
    pub profiles: Vec<Profile>,
    /// For each of them, in the same order, the places of its attachment and its rules, and of those of its children
    /// and hats, each with its flags that decide nothing.
    pub places: Vec<ProfilePlaces>,
}
