//! The symbols of a pattern's text: its bytes, each with the backslash before it, if there is one.

ghost use Rattle.std.specs.Prelude.{◌≡◌, ◌∷◌, [], ◌<◌, length, MatchOption, IfSome};
ghost use Rattle.aa_glob_syntax.specs.Symbols.{byte_of, is_broken, is_plain, symbols};

/// A symbol of a pattern's text.
#[derive(Clone, Copy)]
pub enum Symbol {
    /// A byte without a backslash.
    Plain(u8),
    /// A byte after a backslash, which stands for itself.
    Escaped(u8),
    /// A backslash at the end, or before a letter or digit.
    Broken,
}

impl Symbol {
    /// Whether it is this byte, without a backslash.
    pub fn is_plain(self, byte: u8) -> bool
        ensures { result ≡ is_plain byte self }
    {
        match self {
            Symbol::Plain(own) => own == byte,
            Symbol::Escaped(_) | Symbol::Broken => false,
        }
    }

    /// Whether it is a backslash that escapes nothing.
    pub fn is_broken(self) -> bool
        ensures { result ≡ is_broken self }
    {
        match self {
            Symbol::Broken => true,
            Symbol::Plain(_) | Symbol::Escaped(_) => false,
        }
    }

    /// The byte for which it stands; 0 for a broken one, which stands for none.
    pub fn byte(self) -> u8
        ensures { result ≡ byte_of self }
    {
        match self {
            Symbol::Plain(byte) | Symbol::Escaped(byte) => byte,
            Symbol::Broken => 0,
        }
    }
}

/// The first symbol of a text, and what follows it; nothing follows a broken one. `None` for an empty text. It takes no memory; `O(1)`.
pub fn first_symbol(text: &[u8]) -> Option<(Symbol, &[u8])>
    ensures symbols { MatchOption result (symbols text.now ≡ []) (λ found. symbols text.now ≡ found.0 ∷ symbols found.1.now) }
    ensures shorter { IfSome result (λ found. length found.1.now < length text.now) }
{
    match text {
        [] => None,
        [b'\\'] => Some((Symbol::Broken, &[])),
        [b'\\', byte, rest @ ..] => {
            if byte.is_ascii_alphanumeric() {
                Some((Symbol::Broken, &[]))
            } else {
                Some((Symbol::Escaped(*byte), rest))
            }
        }
        [byte, rest @ ..] => Some((Symbol::Plain(*byte), rest)),
    }
}
