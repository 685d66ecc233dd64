//! The places of the attachment and rules of a profile, a child or a hat, and its flags that decide nothing.

use aa_bytes::Sequence;
use aa_text_files::Place;

/// Where the attachment and the rules of a profile, a child or a hat are written: each at the token from which it is made, in its file or in one
/// that this includes. With them are its flags that decide nothing, which no profile holds.
pub struct SectionPlaces {
    /// The place of its attachment, of which all its patterns are made; `None` where it has no attachment.
    pub attachment: Option<Place>,
    /// The place of each of its rules, in their order. A kept rule without a token has none; files have no such rule.
    pub rules: Sequence<Option<Place>>,
    /// Its flags that decide nothing, each as it is written, in their order, and as often as it is written.
    pub flags: Sequence<Sequence<u8>>,
}

impl Drop for SectionPlaces {
    // Proved here, once for all crates that own one.
    fn drop(self) {
        let SectionPlaces {
            attachment: _,
            rules,
            flags,
        } = self;
        drop(rules);
        drop(flags);
    }
}

/// The places of a profile, and of its children and hats.
pub struct ProfilePlaces {
    /// The places of the profile itself.
    pub own: SectionPlaces,
    /// The places of each of its children and hats, in their order.
    pub children: Sequence<SectionPlaces>,
}

impl Drop for ProfilePlaces {
    // Proved here, once for all crates that own one.
    fn drop(self) {
        let ProfilePlaces { own, children } = self;
        drop(own);
        drop(children);
    }
}
