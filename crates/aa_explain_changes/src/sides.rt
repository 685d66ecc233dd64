//! The two sides of a change of rules.

use aa_profile_data::Rule;

/// What a profile, a child or a hat has for files, lent.
#[derive(Clone, Copy)]
pub struct Side<'a> {
    /// Whether what each of its rules decides is logged.
    pub audit: bool,
    /// The rules, in the order of the file.
    pub rules: &'a [Rule],
}

/// The two sides of a change of rules.
#[derive(Clone, Copy)]
pub struct Sides<'a> {
    /// The side before the change.
    pub old: Side<'a>,
    /// The side after it.
    pub new: Side<'a>,
    /// Whether two answers are the same that differ only in how they are logged.
    pub quiet: bool,
}
