//! Runs of slashes.

ghost use Rattle.std.specs.Prelude.{◌≡◌};
ghost use Rattle.aa_glob_syntax.specs.Slashes.{collapsed};

/// Collapses each run of slashes of a text, of any bytes, to one slash. It takes no memory; `O(n)` in the length of the text.
pub fn collapse(text: &mut Vec<u8>)
    ensures { text.new.items ≡ collapsed text.old.items }
{
    text.dedup_by(|byte, before| *byte == b'/' && *before == b'/');
}
