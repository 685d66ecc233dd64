//! Properties of the words of a line, as a law over their definition.

ghost use Rattle.std.specs.Prelude.{◌≡◌, ℕ, List, Some, false};
ghost use Rattle.std.specs.List.{All};
ghost use Rattle.aa_bytes.specs.Bytes.{quote};
ghost use Rattle.aa_bytes.specs.Texts.{has_byte};
ghost use Rattle.aa_set_commands.specs.WordLaws.{quoted_line};
ghost use Rattle.aa_set_commands.specs.Words.{words_of};

/// Words that hold no quote, each put in quotes and joined by blanks, read back as themselves.
pub fn quoted_words_read_back()
    ensures { (words : List (List ℕ))
        → All (λ word. has_byte quote word ≡ false) words
        → words_of (quoted_line words) ≡ Some words }
{}
