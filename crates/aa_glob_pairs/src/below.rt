//! Which classes the patterns have that end at a state or at one that it leads to.

ghost use Rattle.std.specs.Prelude.{◌≡◌};
ghost use Rattle.aa_glob_pairs.specs.Below.{Covers, Includes, can_clash};

/// The classes of the patterns that end at a state or at one that it leads to, as far as it matters whether two of them differ.
#[derive(Clone, Copy)]
pub enum Below {
    /// No pattern ends there.
    Nothing,
    /// All that end there are of this class.
    One(u32),
    /// They may be of several classes.
    Several,
}

impl Below {
    /// These classes and one more.
    pub fn with(self, class: u32) -> Below
        ensures all { Includes result self }
        ensures one { Covers result class }
    {
        match self {
            Below::Nothing => Below::One(class),
            Below::One(own) if own == class => self,
            _ => Below::Several,
        }
    }

    /// These classes and those of another state.
    pub fn beside(self, other: Below) -> Below
        ensures first { Includes result self }
        ensures second { Includes result other }
    {
        match other {
            Below::Nothing => self,
            Below::One(class) => self.with(class),
            Below::Several => Below::Several,
        }
    }

    /// Whether a pattern of one class may end at or after the first state, and one of another class at or after the second. Where none can, nothing
    /// that follows from the pair matters.
    pub fn can_clash(self, other: Below) -> bool
        ensures { result ≡ can_clash self other }
    {
        match (self, other) {
            (Below::Nothing, _) | (_, Below::Nothing) => false,
            (Below::One(own), Below::One(another)) => own != another,
            _ => true,
        }
    }
}
