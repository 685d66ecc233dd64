//! Rules, and those that match a path.

use aa_profile_data::Rule;

/// Rules, and the places of those on files whose pattern matches a path, in rising order.
#[derive(Clone, Copy)]
pub struct MatchedRules<'a> {
    /// The rules.
    pub rules: &'a [Rule],
    /// The places.
    pub places: &'a [usize],
    /// The path.
    pub path: &'a [u8],
}
