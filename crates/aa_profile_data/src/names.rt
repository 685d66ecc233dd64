//! Names of profiles, children and hats.

ghost use Rattle.std.specs.Prelude.{◌≡◌};
ghost use Rattle.std.specs.List.{list_all};
ghost use Rattle.aa_profile_data.specs.Names.{is_name, is_name_byte, is_top_name, slashes_are_within};

use aa_bytes::begins_with_byte;

fn is_name_byte(byte: u8) -> bool
    ensures { result ≡ is_name_byte byte }
{
    byte >= b' ' && byte != b'"'
}

fn are_name_bytes(text: &[u8]) -> bool
    ensures { result ≡ list_all is_name_byte text.now }
{
    text.iter().all(|byte| is_name_byte(*byte))
}

// Whether each slash is followed by a byte that is no slash.
fn slashes_are_within(text: &[u8]) -> bool
    ensures { result ≡ slashes_are_within text.now }
{
    let mut rest = text;
    while let [byte, more @ ..] = rest {
        if *byte == b'/' && (more.is_empty() || begins_with_byte(b'/', more)) {
            return false;
        }
        rest = more;
    }
    true
}

/// Whether a text is the name of a profile, a child or a hat: it isn't empty, holds neither bytes below the space nor `"`, nor two slashes in a row,
/// doesn't end in a slash, and begins neither with `:` nor with `&` (docs/policy.md, "Names"). `O(n)` in its length. It takes no memory.
pub fn is_name(text: &[u8]) -> bool
    ensures { result ≡ is_name text.now }
{
    match text {
        [] | [b':' | b'&', ..] => false,
        _ => are_name_bytes(text) && slashes_are_within(text),
    }
}

/// Whether a text is the name of a profile that isn't within another: a name, and not `unconfined`. `O(n)` in its length. It takes no memory.
pub fn is_top_name(text: &[u8]) -> bool
    ensures { result ≡ is_top_name text.now }
{
    is_name(text) && text != b"unconfined".as_slice()
}
