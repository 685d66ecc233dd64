//! Profiles, children and hats, as far as a change of policy may change what they have.

use aa_bytes::Sequence;
use aa_glob_pattern::Pattern;
use aa_profile_data::{Mode, Rule};

/// What a profile, a child or a hat has, lent.
#[derive(Clone, Copy)]
pub struct Section<'a> {
    /// The mode that it is in; `None` where it is disabled.
    pub mode: Option<Mode>,
    /// Whether it is a hat.
    pub hat: bool,
    /// Whether what each of its rules decides is logged.
    pub audit: bool,
    /// Its flags that decide nothing, by their texts.
    pub flags: &'a [Sequence<u8>],
    /// The patterns of the programs that it attaches to.
    pub attachments: &'a [Pattern],
    /// The rules, in the order of the file.
    pub rules: &'a [Rule],
}
