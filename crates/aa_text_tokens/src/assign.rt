//! Assigns, the beginnings of assignments, as `@{PROC} =` and `@{HOMEDIRS}+=`.

ghost use Rattle.std.specs.Prelude.{◌≡◌, length, IfSome};
ghost use Rattle.std.specs.Option.{option_map};
ghost use Rattle.aa_text_tokens.specs.Cut.{Token, assign};
ghost use Rattle.aa_text_tokens.specs.code.Pieces.{IsWithin, seen_piece};
ghost use Rattle.aa_text_tokens.specs.declared.cut.TokenKind.TheVariants.{Assign};

use crate::cut::TokenKind;
use crate::front::{begins_letter, spaces, variable_name_size};
use crate::piece::Piece;
use aa_bytes::{begins_with, begins_with_byte, behind};

/// The Assign with which a text begins, or `None`. It takes no memory.
pub fn read_assign(text: &[u8]) -> Option<Piece<'_>>
    ensures value { option_map seen_piece result ≡ assign text.now }
    ensures within { IfSome result (λ piece. IsWithin (length text.now) piece) }
{
    if !begins_with(b"@{", text) || !begins_letter(behind(2, text)) {
        return None;
    }
    let rest = behind(2, text);
    let size = variable_name_size(rest);
    let end = 2 + size;
    if !begins_with_byte(b'}', behind(end, text)) {
        return None;
    }
    let name = &rest[..size];
    let sign = end + 1 + spaces(behind(end + 1, text));
    if begins_with(b"=", behind(sign, text)) {
        return Some(assign_piece(false, name, sign + 1));
    }
    if begins_with(b"+=", behind(sign, text)) {
        return Some(assign_piece(true, name, sign + 2));
    }
    None
}

// The Assign of a name; its span has so many bytes.
fn assign_piece(append: bool, name: &[u8], size: usize) -> Piece<'_>
    ensures { seen_piece result ≡ Token (Assign append) name.now size }
{
    Piece::Token {
        kind: TokenKind::Assign { append },
        text: name,
        size,
    }
}
