//! Matching of a path, byte by byte, by the set of the beginnings of a pattern's text that the path so far reads (the active ones).

ghost use Rattle.std.specs.Prelude.{◌≡◌, ◌<◌, ◌≤◌, ◌+◌, ◌*◌, length, None, Ok};
ghost use Rattle.aa_glob_syntax.specs.Matching.{matches};
ghost use Rattle.aa_glob_syntax.specs.Reading.{items_of, reading};
ghost use Rattle.aa_glob_pattern.specs.Active.{AreActive};

use crate::laws::what_reads_to_the_end_matches;
use crate::literal::{LiteralMatch, literal_match};
use crate::pass::pass;

// How many beginnings there may be: two elements for each byte of the longest pattern, and the empty beginning.
const MOST_PREFIXES: usize = 8_193;

/// Whether a path, of any bytes, matches the pattern that a text reads as (`docs/policy.md`, "Patterns"). A directory's path has to end with `/`,
/// which the caller writes. It takes no memory. A path that differs from the pattern's literal beginning matches by no pass. Else the text is read
/// again, from the last slash of that beginning, for each byte of the path from there, until none of its beginnings is read by the bytes so far: so
/// the work is `O(n * m)` for n bytes of path and m bytes of text. An automaton (`aa_glob`) answers the same question sooner.
pub fn matches_text(text: &[u8], path: &[u8]) -> bool
    requires { reading text.now ≡ Ok (items_of text.now) }
    ensures { result ≡ matches (items_of text.now) path.now }
{
    match literal_match(text, path) {
        LiteralMatch::Found(found) => found,
        LiteralMatch::Open(rest) => matches_by_passes(rest.text, rest.path),
    }
}

// Matches by passes over the whole text. The room is cleared at each call, so it is chosen by the text's length.
fn matches_by_passes(text: &[u8], path: &[u8]) -> bool
    requires { reading text.now ≡ Ok (items_of text.now) }
    ensures { result ≡ matches (items_of text.now) path.now }
{
    match text.len() {
        0..=31 => matches_within::<64>(text, path),
        32..=63 => matches_within::<128>(text, path),
        64..=127 => matches_within::<256>(text, path),
        128..=255 => matches_within::<512>(text, path),
        256..=511 => matches_within::<1_024>(text, path),
        512..=1_023 => matches_within::<2_048>(text, path),
        1_024..=2_047 => matches_within::<4_096>(text, path),
        _ => matches_within::<MOST_PREFIXES>(text, path),
    }
}

// Matches with room for `ROOM` beginnings on the stack, which is cleared: at most four for each byte of the text, or 64.
fn matches_within<const ROOM: usize>(text: &[u8], path: &[u8]) -> bool
    requires reads { reading text.now ≡ Ok (items_of text.now) }
    requires room { 2 * length text.now < ROOM }
    requires near { ROOM ≤ 4 * length text.now + 64 }
    ensures { result ≡ matches (items_of text.now) path.now }
{
    let mut room = [false; ROOM];
    matches_in(text, path, &mut room)
}

// Matches with this room for the active beginnings, none of which is active yet.
fn matches_in(text: &[u8], path: &[u8], active: &mut [bool]) -> bool
    requires reads { reading text.now ≡ Ok (items_of text.now) }
    requires room { 2 * length text.now < length active.old }
    requires unset { AreActive text.now None active.old }
    ensures { result ≡ matches (items_of text.now) path.now }
{
    what_reads_to_the_end_matches();
    let mut passed = pass(true, 0, text, active);
    for byte in path {
        // A path so far that reads no beginning reads none with more bytes either.
        if !passed.some {
            return false;
        }
        passed = pass(false, *byte, text, active);
    }
    passed.whole
}
