//! Matching of what stands for itself, without passes: most paths differ from a pattern in its literal beginning.

ghost use Rattle.std.specs.Prelude.{◌≡◌, ◌==◌, if◌then◌else◌, Ok};
ghost use Rattle.aa_bytes.specs.Bytes.{slash};
ghost use Rattle.aa_glob_pattern.specs.code.Literals.{IsFound};
ghost use Rattle.aa_glob_syntax.specs.Reading.{items_of, reading};

use aa_glob_syntax::is_literal;

/// A text of a pattern, and the path that is to match it.
#[derive(Clone, Copy)]
pub struct Rest<'a> {
    /// The pattern's text, or what is left of it.
    pub text: &'a [u8],
    /// The path, or what is left of it.
    pub path: &'a [u8],
}

/// What the literal beginning of a pattern says of a path.
#[derive(Clone, Copy)]
pub enum LiteralMatch<'a> {
    /// Whether the path matches.
    Found(bool),
    /// The path matches exactly where this rest of it matches this rest of the text. Both begin with the last slash of the literal beginning, and
    /// the rest of the text reads as a pattern by itself.
    Open(Rest<'a>),
}

/// Compares a path with the literal beginning of the pattern that a text reads as: the bytes before the first that may mean something else
/// (`is_literal`). Where the path differs from these, or they are the whole text, that says whether it matches. It takes no memory; `O(n)` in the
/// length of these bytes.
pub fn literal_match<'a>(text: &'a [u8], path: &'a [u8]) -> LiteralMatch<'a>
    requires { reading text.now ≡ Ok (items_of text.now) }
    ensures { IsFound text.now path.now result }
{
    let mut here = Rest { text, path };
    let mut segment = here;
    while let [byte, rest @ ..] = here.text {
        if !is_literal(*byte) {
            return LiteralMatch::Open(segment);
        }
        segment = last_segment(*byte, here, segment);
        match here.path {
            [] => return LiteralMatch::Found(false),
            [first, left @ ..] => {
                if *first != *byte {
                    return LiteralMatch::Found(false);
                }
                here = Rest {
                    text: rest,
                    path: left,
                };
            }
        }
    }
    LiteralMatch::Found(here.path.is_empty())
}

// Where the last segment so far begins: here, where the byte that comes next is a slash.
fn last_segment<'a>(next: u8, here: Rest<'a>, before: Rest<'a>) -> Rest<'a>
    ensures { result ≡ (if next == slash then here.entry else before.entry) }
{
    if next == b'/' { here } else { before }
}
