//! Patterns: texts that read as one, with what is often asked of them.

ghost use Rattle.std.specs.Prelude.{◌≡◌, ◌≢◌, ◌↔◌, Ok, Err, IfOk, IfErr, IsTrue};
ghost use Rattle.aa_glob_syntax.specs.Exactness.{is_exact, literal_prefix};
ghost use Rattle.aa_glob_syntax.specs.Matching.{Matches, matches};
ghost use Rattle.aa_glob_syntax.specs.Reading.{items_of, reading};
ghost use Rattle.aa_glob_syntax.specs.declared.pattern_error.PatternError.TheVariants.{Memory};

use crate::laws::matching_is_by_splits;
use crate::matching::matches_text;
use aa_glob_syntax::{PatternError, check_pattern};
use std::alloc::{AllocError, Global};
use std::marker::Model;

/// A pattern of paths, which owns its text. Contracts see that text, which reads as a pattern (`docs/policy.md`, "Patterns").
#[derive(Debug, Drop)]
pub struct Pattern {
    text: Vec<u8>,
    // Whether all items are bytes that stand for themselves.
    exact: bool,
    // How many items come before the first that isn't a byte for itself.
    prefix: usize,
}

impl Model for Pattern {
    ghost use Rattle.std.specs.Prelude.{List, ℕ};
    ghost use Rattle.aa_glob_pattern.specs.code.Facts.{AreFacts};

    ghost Value = { List ℕ };

    ghost view = { λ p. p.text.items };

    ghost invariant = { λ p. AreFacts p.exact p.prefix p.text.items };
}

impl Pattern {
    /// Reads a text, of any bytes, as a pattern, and copies it. Variables aren't expanded and runs of slashes aren't collapsed: both are for the
    /// caller to do before. `O(n)` in the length of the text; it allocates the copy alone.
    ///
    /// # Errors
    ///
    /// In this order: `TooLong` for a text of more than 4,096 bytes, `ZeroByte`, `NotAbsolute` for one that doesn't begin with `/`, and then the
    /// first fault from the left: `EmptyClass`, `BadRange`, `StrayClose`, `FewAlternatives`, `BadEscape` and `TooDeep` where they are met,
    /// `UnclosedClass` and `UnclosedGroup` at the text's end, a class before a group. The rules are those of apparmor.d(5), "Globbing";
    /// `docs/policy.md` has them whole.
    ///
    /// None of these takes memory, so each is returned however little memory there is. `Memory` is returned only for a text that reads as a pattern,
    /// where its copy can't be allocated.
    pub fn read(alloc: Global, text: &[u8]) -> Result<Pattern, PatternError>
        ensures text { IfOk result (λ pattern. pattern ≡ text.now) }
        ensures read { IfOk result (λ pattern. reading text.now ≡ Ok (items_of text.now)) }
        ensures refused { IfErr result (λ error. error ≢ Memory → reading text.now ≡ Err error) }
        // A text is refused without allocating.
        ensures memory { IfErr result (λ error. error ≡ Memory → reading text.now ≡ Ok (items_of text.now)) }
    {
        let facts = check_pattern(text)?;
        let text = Vec::from_slice(alloc, text)?;
        Ok(Pattern {
            text,
            exact: facts.exact,
            prefix: facts.prefix,
        })
    }

    /// Reads a text as a pattern as `read` does, but takes the text over in place of copying it. `O(n)` in the length of the text. Unused capacity
    /// of the vector is given back where the allocator can.
    ///
    /// # Errors
    ///
    /// As `read`, and never `Memory`.
    pub fn from_vec(text: Vec<u8>) -> Result<Pattern, PatternError>
        ensures text { IfOk result (λ pattern. pattern ≡ text.items) }
        ensures read { IfOk result (λ pattern. reading text.items ≡ Ok (items_of text.items)) }
        ensures refused { IfErr result (λ error. reading text.items ≡ Err error) }
        ensures memory { IfErr result (λ error. error ≢ Memory) }
    {
        let facts = check_pattern(&text)?;
        let mut text = text;
        text.shrink_to_fit();
        Ok(Pattern {
            text,
            exact: facts.exact,
            prefix: facts.prefix,
        })
    }

    /// Whether a path, of any bytes, matches the pattern. A directory's path has to end with `/`, which the caller writes. It takes no memory; `O(n
    /// * m)` for n bytes of path and m bytes of pattern. To match many patterns at once, use `Automaton` of `aa_glob`.
    pub fn matches(&self, text: &[u8]) -> bool
        ensures test { result ≡ matches (items_of self.now) text.now }
        ensures relation { IsTrue result ↔ Matches (items_of self.now) text.now }
    {
        matching_is_by_splits();
        matches_text(&self.text, text)
    }

    /// Whether all items are bytes that stand for themselves, so that one text alone matches the pattern. A class of one byte is none. It takes no
    /// memory; `O(1)`.
    pub fn is_exact(&self) -> bool
        ensures { result ≡ is_exact (items_of self.now) }
    {
        self.exact
    }

    /// How many items come before the first that isn't a byte for itself; an escaped byte is one. It takes no memory; `O(1)`.
    pub fn literal_prefix(&self) -> usize
        ensures { result ≡ literal_prefix (items_of self.now) }
    {
        self.prefix
    }

    /// The text of the pattern. It takes no memory; `O(1)`.
    pub fn text(&self) -> &[u8]
        ensures text { result.now ≡ self.now }
        ensures reads { reading self.now ≡ Ok (items_of self.now) }
    {
        self.text.as_slice()
    }

    /// A copy of the pattern.
    ///
    /// # Errors
    ///
    /// Where memory runs out.
    pub fn try_copy(&self, alloc: Global) -> Result<Pattern, AllocError>
        ensures { IfOk result (λ copy. copy ≡ self.now) }
    {
        Ok(Pattern {
            text: Vec::from_slice(alloc, &self.text)?,
            exact: self.exact,
            prefix: self.prefix,
        })
    }
}
