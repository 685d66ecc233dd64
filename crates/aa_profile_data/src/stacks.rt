//! Stacks of profiles, as targets name them.

ghost use Rattle.std.specs.Prelude.{◌≡◌, ◌<◌, ◌∷◌, IfSome, length};
ghost use Rattle.std.specs.Option.{option_map};
ghost use Rattle.aa_profile_data.specs.SeenStacks.{seen_stack};
ghost use Rattle.aa_profile_data.specs.Stacks.{are_full_names, is_name_or_stack_of, is_open_stack, parts_of, parts_of_rest, stack_of, stack_of_names};

use crate::exec_word::Destination;
use crate::full_name::is_full_name;
use crate::names::is_top_name;
use aa_bytes::{begins_with, behind};

/// A stack of profiles, as a target names it.
#[derive(Clone, Copy)]
pub struct Stack<'a> {
    /// Whether it is on top of the profile that would be taken otherwise.
    pub on_base: bool,
    /// The full names of the other profiles in it, with `//&` between them (`first_member`): at least one.
    pub members: &'a [u8],
}

/// The first of the names in a text that have `//&` between them, and the text of the rest, if there are more. It takes no memory.
pub fn first_member(text: &[u8]) -> (&[u8], Option<&[u8]>)
    ensures parts { parts_of text.now ≡ result.0.now ∷ parts_of_rest (option_map (λ rest. rest.now) result.1) }
    ensures shorter { IfSome result.1 (λ rest. length rest.now < length text.now) }
{
    for at in 0..text.len() {
        let rest = behind(at, text);
        if begins_with(b"//&", rest) {
            return (&text[..at], Some(behind(3, rest)));
        }
    }
    (text, None)
}

// Whether a text is full names with `//&` between them.
fn are_full_names(text: &[u8]) -> bool
    ensures { result ≡ are_full_names text.now }
{
    let mut rest = text;
    loop {
        let (name, more) = first_member(rest);
        if !is_full_name(name) {
            return false;
        }
        let Some(more) = more else {
            return true;
        };
        rest = more;
    }
}

// Whether a text is `&` followed by full names with `//&` between them.
fn is_open_stack(text: &[u8]) -> bool
    ensures { result ≡ is_open_stack text.now }
{
    match text {
        [b'&', names @ ..] => are_full_names(names),
        _ => false,
    }
}

// The stack of names alone that a text names, or `None` where it names one profile alone.
fn stack_of_names(text: &[u8]) -> Option<Stack<'_>>
    ensures { option_map seen_stack result ≡ stack_of_names (parts_of text.now) }
{
    let (_first, more) = first_member(text);
    if more.is_none() {
        return None;
    }
    Some(Stack {
        on_base: false,
        members: text,
    })
}

/// The stack that a target's text names, or `None` where it names none: it begins with `&`, or is full names with `//&` between them
/// (docs/policy.md, "Stacks"). It takes no memory.
pub fn stack_of(text: &[u8]) -> Option<Stack<'_>>
    ensures { option_map seen_stack result ≡ stack_of text.now }
{
    match text {
        [b'&', members @ ..] => Some(Stack {
            on_base: true,
            members,
        }),
        _ if are_full_names(text) => stack_of_names(text),
        _ => None,
    }
}

/// Whether a text may be the target of a word with this destination: a name, or a stack. A word that leads to a profile names a full name, or a
/// stack of full names, on whatever profile would be taken or of these alone; one that leads to a child or a hat names one by its own name, or a
/// stack on the profile that asks (docs/policy.md, "Stacks"). It takes no memory.
pub fn is_name_or_stack_of(destination: Destination, text: &[u8]) -> bool
    ensures { result ≡ is_name_or_stack_of destination text.now }
{
    match destination {
        Destination::Profile => is_open_stack(text) || are_full_names(text),
        Destination::Child => is_open_stack(text) || is_top_name(text),
        Destination::Inherit | Destination::Unconfined => false,
    }
}
