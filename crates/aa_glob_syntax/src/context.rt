//! The context of a symbol in a pattern's text: what comes before it, as far as the meaning of stars depends on it.

ghost use Rattle.std.specs.Prelude.{◌≡◌};
ghost use Rattle.aa_glob_syntax.specs.Elements.{context_after};

/// What comes directly before a symbol.
#[derive(Clone, Copy)]
pub enum Context {
    /// The byte `/`, written with a backslash or without.
    AfterSlash,
    /// A star of a run of stars that continues here.
    AfterStar,
    /// Anything else, or nothing.
    Elsewhere,
}

/// The context of a symbol that follows this byte.
pub fn context_after(byte: u8) -> Context
    ensures { result ≡ context_after byte }
{
    if byte == b'/' {
        Context::AfterSlash
    } else {
        Context::Elsewhere
    }
}
