//! Places in a pattern's text, each with what a path reads up to there.

ghost use Rattle.std.specs.Prelude.{◌≡◌, length};

use aa_glob_syntax::{BitStack, Element};

/// What is known of a past, the path so far, at a place in the text.
#[derive(Clone, Copy)]
pub struct Place {
    /// Whether the past reads the beginning up to here.
    here: bool,
    /// For each open group, the innermost on top, whether the past reads the beginning before its alternatives.
    beginnings: BitStack,
    /// For each open group whether the past reads one of its alternatives that have ended so far.
    ends: BitStack,
    ghost same: { length beginnings ≡ length ends },
}

impl Place {
    ghost use Rattle.std.specs.Prelude.{◌≡◌, ◌<◌, [], true, length, if◌then◌else◌};
    ghost use Rattle.aa_glob_syntax.specs.Cursor.{meaning};
    ghost use Rattle.aa_glob_syntax.specs.Elements.{Close, Comma, Open};
    ghost use Rattle.aa_glob_syntax.specs.OpenGroups.{with_innermost};
    ghost use Rattle.aa_glob_pattern.specs.Elements.{MayStand};
    ghost use Rattle.aa_glob_pattern.specs.Reads.{Known, leading};
    ghost use Rattle.aa_glob_pattern.specs.Trails.{depth_behind};
    ghost use Rattle.aa_glob_pattern.specs.Active.{is_among, Past};
    ghost use Rattle.aa_glob_pattern.specs.code.Places.{GoesOver, IsAt};

    /// The place at the beginning of the text.
    pub fn beginning(here: bool) -> Place
        ensures here { result.here ≡ here }
        ensures beginnings { result.beginnings ≡ [] }
        ensures ends { result.ends ≡ [] }
    {
        Place {
            here,
            beginnings: BitStack::none(),
            ends: BitStack::none(),
        }
    }

    /// Whether the past reads the beginning up to here.
    pub fn here(&self) -> bool
        ensures { result ≡ self.now.here }
    {
        self.here
    }

    /// Whether the past reads what leads to this element, if it comes next here.
    pub fn leading(&self, element: Element) -> bool
        requires { MayStand (length self.now.beginnings) (meaning element) }
        ensures { (past : Past) (k : Known) → IsAt past k self.now → result ≡ is_among (leading (meaning element.entry) k.here k.groups) past }
    {
        match element {
            Element::Comma => self.beginnings.top(),
            Element::Close => self.at_end(),
            _ => self.here,
        }
    }

    // Whether the past reads one of the ends of the innermost group's alternatives, the last of which ends here.
    fn at_end(&self) -> bool
        requires { 0 < length self.now.beginnings }
        ensures { (past : Past) (k : Known) → IsAt past k self.now → result ≡ is_among (leading Close k.here k.groups) past }
    {
        self.here || self.ends.top()
    }

    /// The place after an element; the caller says whether this place is active.
    pub fn behind(&self, element: Element, is_active: bool) -> Place
        requires { MayStand (length self.now.beginnings) (meaning element) }
        ensures known { GoesOver self.now (meaning element.entry) is_active result }
        ensures depth { length result.beginnings ≡ depth_behind (length self.now.beginnings) (meaning element.entry) }
    {
        match element {
            Element::Open => self.opened(is_active),
            Element::Comma => self.with_end(is_active),
            Element::Close => self.closed(is_active),
            _ => Place {
                here: is_active,
                beginnings: self.beginnings,
                ends: self.ends,
            },
        }
    }

    // The place after a brace that opens a group.
    fn opened(&self, is_active: bool) -> Place
        requires { length self.now.beginnings < 16 }
        ensures known { GoesOver self.now Open is_active result }
        ensures depth { length result.beginnings ≡ depth_behind (length self.now.beginnings) Open }
    {
        Place {
            here: is_active,
            beginnings: self.beginnings.pushed(self.here),
            ends: self.ends.pushed(false),
        }
    }

    // The place after a comma: an alternative of the innermost group ends here.
    fn with_end(&self, is_active: bool) -> Place
        requires { 0 < length self.now.beginnings }
        ensures known { GoesOver self.now Comma is_active result }
        ensures depth { length result.beginnings ≡ depth_behind (length self.now.beginnings) Comma }
    {
        Place {
            here: is_active,
            beginnings: self.beginnings,
            ends: self.ends_with_one(),
        }
    }

    // For which groups the past reads an end, where an alternative of the innermost one ends here.
    fn ends_with_one(&self) -> BitStack
        requires { 0 < length self.now.beginnings }
        ensures { result ≡ (if self.now.here then with_innermost (λ _. true) self.now.ends else self.now.ends) }
    {
        if self.here {
            self.ends.with_top_set()
        } else {
            self.ends
        }
    }

    // The place after a brace that closes the innermost group.
    fn closed(&self, is_active: bool) -> Place
        requires { 0 < length self.now.beginnings }
        ensures known { GoesOver self.now Close is_active result }
        ensures depth { length result.beginnings ≡ depth_behind (length self.now.beginnings) Close }
    {
        Place {
            here: is_active,
            beginnings: self.beginnings.popped(),
            ends: self.ends.popped(),
        }
    }
}
