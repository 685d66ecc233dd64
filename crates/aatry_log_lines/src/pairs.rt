//! The pairs of a line.

ghost use Rattle.std.specs.Prelude.{◌≡◌, ◌<◌, ◌≤◌, ◌∷◌, [], option_map, IfSome, length};
ghost use Rattle.std.specs.Option.{option_map_or};
ghost use Rattle.std.specs.List.{position_or_len};
ghost use Rattle.aatry_log_lines.specs.Pairs.{is_gap, value_of, words};

use aa_bytes::{begins_with, behind, length_while};

// How many bytes the first word of a text has.
fn word_size(text: &[u8]) -> usize
    ensures size { result ≡ position_or_len is_gap text.now }
    ensures within { result ≤ length text.now }
{
    length_while(text, |byte| byte > b' ')
}

// The first word of a text, and what follows the byte that ends it, if there is one.
fn first_word(text: &[u8]) -> (&[u8], Option<&[u8]>)
    ensures words { words text.now ≡ result.0.now ∷ option_map_or (λ rest. words rest.now) result.1 [] }
    ensures shorter { IfSome result.1 (λ rest. length rest.now < length text.now) }
{
    let size = word_size(text);
    if size < text.len() {
        (&text[..size], Some(&text[size + 1..]))
    } else {
        (text, None)
    }
}

/// The value of a key in a line, if the line has a pair of that key: of the first such pair. The key is given with its `=`. `O(n)` in the line's
/// length. It takes no memory.
pub fn value_of<'a>(line: &'a [u8], key: &[u8]) -> Option<&'a [u8]>
    ensures { option_map (λ value. value.now) result ≡ value_of key.now line.now }
{
    let mut rest = line;
    loop {
        let (word, more) = first_word(rest);
        if begins_with(key, word) {
            return Some(behind(key.len(), word));
        }
        rest = more?;
    }
}
