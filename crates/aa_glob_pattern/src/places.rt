//! Places in a pattern's text, each with what is read up to there by the path so far, and by the path without its last byte.

ghost use Rattle.std.specs.Prelude.{◌≡◌, length};

use crate::place::Place;
use aa_bytes::is_inside;
use aa_glob_syntax::Element;

/// What is known at a place in the text of two pasts, of which one is the other with one more byte.
#[derive(Clone, Copy)]
pub struct Places {
    /// What is known of the past without the byte.
    before: Place,
    /// What is known of the past with it.
    after: Place,
    ghost same: { length before.beginnings ≡ length after.beginnings },
}

impl Places {
    ghost use Rattle.std.specs.Prelude.{◌≡◌, ℕ, Bool, [], length};
    ghost use Rattle.aa_glob_syntax.specs.Cursor.{meaning};
    ghost use Rattle.aa_glob_pattern.specs.Elements.{MayStand};
    ghost use Rattle.aa_glob_pattern.specs.Active.{is_among, is_none, Past};
    ghost use Rattle.aa_glob_pattern.specs.code.Places.{AreAt, active_behind};
    ghost use Rattle.aa_glob_pattern.specs.Reads.{Known, known, known_behind};
    ghost use Rattle.aa_glob_pattern.specs.Trails.{depth_behind};

    /// The place at the beginning of the text, by whether it is active for each past.
    pub fn beginning(before: bool, after: bool) -> Places
        ensures known { (past : Past) (byte : ℕ) → before ≡ is_among (known []).here past → after ≡ is_none past → AreAt past byte (known []) result }
        ensures depth { length result.after.beginnings ≡ 0 }
    {
        Places {
            before: Place::beginning(before),
            after: Place::beginning(after),
        }
    }

    /// Whether the past with the byte reads the beginning up to here.
    pub fn here(&self) -> bool
        ensures { result ≡ self.now.after.here }
    {
        self.after.here()
    }

    /// The place after an element; `own` says whether it is active for the past without the byte.
    pub fn behind(&self, byte: u8, element: Element, own: bool) -> Places
        requires { MayStand (length self.now.after.beginnings) (meaning element) }
        ensures known { (past : Past) (k : Known) → AreAt past byte k self.now → own ≡ is_among (known_behind (meaning element.entry) k).here past
            → AreAt past byte (known_behind (meaning element.entry) k) result }
        ensures depth { length result.after.beginnings ≡ depth_behind (length self.now.after.beginnings) (meaning element.entry) }
    {
        let is_active = Places::active_behind(
            element,
            byte,
            self.before.leading(element),
            self.after.leading(element),
            own,
        );
        Places {
            before: self.before.behind(element, own),
            after: self.after.behind(element, is_active),
        }
    }

    // Whether the place after an element is active for the past with the byte: by whether what leads to the element is active for each past, and by
    // whether the place itself is active for the past without the byte.
    fn active_behind(element: Element, byte: u8, before: bool, now: bool, own: bool) -> bool
        ensures { result ≡ active_behind element.entry byte before now own }
    {
        match element {
            Element::Byte(wanted) => byte == wanted && before,
            Element::Inside => is_inside(byte) && before,
            Element::Class(class) => before && class.has(byte),
            Element::Star => now || own && is_inside(byte),
            Element::DoubleStar => now || own && byte != 0,
            Element::Open | Element::Comma | Element::Close => now,
        }
    }
}
