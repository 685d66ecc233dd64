//! The elements of a text that reads as a pattern, each with how deep it is nested in groups.

ghost use Rattle.std.specs.Prelude.{◌≡◌};
ghost use Rattle.aa_glob_syntax.specs.Cursor.{meaning};
ghost use Rattle.aa_glob_pattern.specs.Elements.{elements_left, EachMayStand, left_from, MayStand};
ghost use Rattle.aa_glob_pattern.specs.Standing.{stand-prop};
ghost use Rattle.aa_glob_pattern.specs.Trails.{depth_behind, element_within};

use crate::laws::which_elements_stand;
use aa_glob_syntax::{Context, Element, Next, next_element};

/// What is left to read of a text that reads as a pattern. A cursor: it borrows the text, and takes no memory.
#[derive(Clone, Copy)]
pub struct Elements<'a> {
    /// How many groups are open before the next element.
    depth: u32,
    /// The context of the next element.
    context: Context,
    rest: &'a [u8],
    ghost stand: { EachMayStand depth (elements_left depth context rest.now) } by { stand-prop depth (elements_left depth context rest.now) },
}

impl<'a> Elements<'a> {
    ghost use Rattle.std.specs.Prelude.{◌≡◌, ◌∷◌, [], ◌≤◌, ◌*◌, length, Ok, None, IfSome};
    ghost use Rattle.aa_glob_syntax.specs.Cursor.{meaning};
    ghost use Rattle.aa_glob_syntax.specs.Reading.{items_of, reading};
    ghost use Rattle.aa_glob_pattern.specs.Elements.{elements_of, MayStand};
    ghost use Rattle.aa_glob_pattern.specs.Left.{left_in};
    ghost use Rattle.aa_glob_pattern.specs.Trails.{depth_behind};

    /// A cursor at the beginning of a text that reads as a pattern.
    pub fn of(text: &'a [u8]) -> Elements<'a>
        requires { reading text.now ≡ Ok (items_of text.now) }
        ensures all { left_in result ≡ elements_of text.now }
        ensures depth { result.depth ≡ 0 }
        ensures few { length (elements_of text.now) ≤ 2 * length text.now }
    {
        which_elements_stand();
        Elements {
            depth: 0,
            context: Context::Elsewhere,
            rest: text,
        }
    }

    /// Reads the next element; returns `None` at the text's end. A comma outside groups is read as the byte for which it stands.
    pub fn next(&mut self) -> Option<Element<'a>>
        ensures found { IfSome result (λ element. left_in self.old ≡ meaning element ∷ left_in self.new) }
        ensures depth { IfSome result (λ element. self.new.depth ≡ depth_behind self.old.depth (meaning element)) }
        ensures stands { IfSome result (λ element. MayStand self.old.depth (meaning element)) }
        ensures end { result ≡ None → left_in self.old ≡ [] }
        ensures kept { result ≡ None → self.new ≡ self.old }
    {
        match next_within(self.depth, self.context, self.rest) {
            None => None,
            Some(next) => {
                *self = Elements {
                    depth: depth_behind(self.depth, next.element),
                    context: next.context,
                    rest: next.rest,
                };
                Some(next.element)
            }
        }
    }
}

// The next element of a text, where so many groups are open.
fn next_within<'a>(depth: u32, context: Context, text: &'a [u8]) -> Option<Next<'a>>
    requires { EachMayStand depth (elements_left depth context text.now) }
    ensures found { elements_left depth context text.now ≡ left_from depth result }
    ensures stands { EachMayStand depth (left_from depth result) }
{
    match next_element(context, text) {
        Ok(Some(next)) => Some(Next {
            element: element_within(depth, next.element),
            context: next.context,
            rest: next.rest,
        }),
        Ok(None) => None,
        Err(_) => unreachable!(),
    }
}

fn element_within<'a>(depth: u32, element: Element<'a>) -> Element<'a>
    ensures { meaning result ≡ element_within depth (meaning element.entry) }
{
    match element {
        Element::Comma => {
            if depth == 0 {
                Element::Byte(b',')
            } else {
                element
            }
        }
        _ => element,
    }
}

// How many groups are open after an element before which so many were.
fn depth_behind(depth: u32, element: Element<'_>) -> u32
    requires { MayStand depth (meaning element) }
    ensures { result ≡ depth_behind depth (meaning element.entry) }
{
    match element {
        Element::Open => depth + 1,
        Element::Close => depth - 1,
        _ => depth,
    }
}
