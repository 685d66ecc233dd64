//! Rules with where they are written.

use aa_explain_rules::AskedRules;
use aa_text_files::Place;
use aatry_folder::PolicyFiles;

/// The rules of a profile, or of a child or hat, with where they are written.
#[derive(Clone, Copy)]
pub struct WrittenRules<'a> {
    /// What lies below the folder of policy.
    pub below: PolicyFiles<'a>,
    /// The name of the file that has the profile.
    pub name: &'a [u8],
    /// The rules.
    pub rules: AskedRules<'a>,
    /// Where each of them is written, in the same order; one without a place is in the profile's file.
    pub places: &'a [Option<Place>],
}
