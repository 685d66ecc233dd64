//! What a text begins with, as far as tokens depend on it.

ghost use Rattle.std.specs.Prelude.{◌≡◌, ◌≤◌, ◌&&◌, ◌==◌, not, length};
ghost use Rattle.std.specs.List.{prefix_len};
ghost use Rattle.aa_bytes.specs.Bytes.{is_blank, is_letter, is_space_or_tab, line_feed};
ghost use Rattle.aa_bytes.specs.Texts.{begins};
ghost use Rattle.aa_text_tokens.specs.Cut.{is_name_byte, spaces};

use aa_bytes::length_while;

/// Whether a byte is a blank: a space, or one of the bytes 9 to 13.
pub fn is_blank(byte: u8) -> bool
    ensures { result ≡ is_blank byte }
{
    byte == b' ' || (9 <= byte && byte <= 13)
}

fn is_space_or_tab(byte: u8) -> bool
    ensures { result ≡ is_space_or_tab byte }
{
    byte == b' ' || byte == b'\t'
}

fn is_name_byte(byte: u8) -> bool
    ensures { result ≡ is_name_byte byte }
{
    byte.is_ascii_alphanumeric() || byte == b'_'
}

/// Whether a text begins with a letter.
pub fn begins_letter(text: &[u8]) -> bool
    ensures { result ≡ begins is_letter text.now }
{
    match text {
        [first, ..] => first.is_ascii_alphabetic(),
        [] => false,
    }
}

/// How many spaces and tabs a text begins with.
pub fn spaces(text: &[u8]) -> usize
    ensures value { result ≡ spaces text.now }
    ensures within { result ≤ length text.now }
{
    length_while(text, is_space_or_tab)
}

/// How many bytes of a variable's name a text begins with: ASCII letters, digits and `_`.
pub fn variable_name_size(text: &[u8]) -> usize
    ensures value { result ≡ prefix_len is_name_byte text.now }
    ensures within { result ≤ length text.now }
{
    length_while(text, is_name_byte)
}

/// How many bytes a text has before its first line feed; all of them where it has none.
pub fn line_size(text: &[u8]) -> usize
    ensures value { result ≡ prefix_len (λ b. not (b == line_feed)) text.now }
    ensures within { result ≤ length text.now }
{
    length_while(text, |byte| byte != b'\n')
}

/// How many bytes a text has before the first that is this one or a line feed.
pub fn size_before(close: u8, text: &[u8]) -> usize
    ensures value { result ≡ prefix_len (λ b. not (b == close) && not (b == line_feed)) text.now }
    ensures within { result ≤ length text.now }
{
    length_while(text, |byte| byte != close && byte != b'\n')
}
