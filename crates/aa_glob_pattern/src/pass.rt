//! Passes over a pattern's text, one for each byte of the path: each writes which beginnings are active after this byte.

ghost use Rattle.std.specs.Prelude.{◌≡◌, ◌<◌, ◌*◌, ◌||◌, length, false, Ok};
ghost use Rattle.aa_glob_syntax.specs.Reading.{items_of, reading};
ghost use Rattle.aa_glob_pattern.specs.Active.{AreUnset, ActiveGoesOn, TellsWhole};

use crate::elements::Elements;
use crate::places::Places;

/// What a pass finds of the path so far.
#[derive(Clone, Copy)]
pub struct Passed {
    /// Whether the path so far reads the whole text.
    pub whole: bool,
    /// Whether the path so far reads some beginning of the text.
    pub some: bool,
}

/// Overwrites which beginnings are active for the path so far without this byte by those that are active with it. The first pass is for the empty
/// path: its byte isn't looked at, and no beginning is active before it. It takes no memory; `O(m)` in the length of the text.
pub fn pass(first: bool, byte: u8, text: &[u8], active: &mut [bool]) -> Passed
    requires reads { reading text.now ≡ Ok (items_of text.now) }
    requires room { 2 * length text.now < length active.old }
    ensures active { ActiveGoesOn text.now first byte active.old active.new }
    ensures whole { TellsWhole text.now first byte active.old result.whole }
    ensures some { result.some ≡ false → AreUnset text.now active.new }
{
    let mut places = Places::beginning(active[0], first);
    let mut some = first;
    active[0] = first;
    let mut at = 0;
    let mut elements = Elements::of(text);
    while let Some(element) = elements.next() {
        at += 1;
        places = places.behind(byte, element, active[at]);
        let here = places.here();
        some = either(some, here);
        active[at] = here;
    }
    Passed {
        whole: places.here(),
        some,
    }
}

fn either(first: bool, second: bool) -> bool
    ensures { result ≡ (first || second) }
{
    first || second
}
