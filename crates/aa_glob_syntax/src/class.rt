//! Classes, as `[a-c]` and `[^/]`, within a pattern's text.

ghost use Rattle.std.specs.Prelude.{◌≡◌, ◌≢◌, ◌<◌, length, true, Ok, Err, IfOk, IfErr, is_ok};
ghost use Rattle.aa_bytes.specs.ByteSets.{has};
ghost use Rattle.aa_glob_syntax.specs.Classes.{class};
ghost use Rattle.aa_glob_syntax.specs.Elements.{behind_class, elements};
ghost use Rattle.aa_glob_syntax.specs.Symbols.{symbols};
ghost use Rattle.aa_glob_syntax.specs.declared.context.Context.TheVariants.{Elsewhere};
ghost use Rattle.aa_glob_syntax.specs.declared.pattern_error.PatternError.TheVariants.{Memory};

use crate::members::{class_length, class_start, listed_ranges, lists_byte, pass_members};
use crate::pattern_error::PatternError;
use aa_bytes::{ByteSet, Sequence};
use std::alloc::{AllocError, Global};

/// A class within a pattern's text. It borrows the text and doesn't copy it.
#[derive(Clone, Copy)]
pub struct Class<'a> {
    text: &'a [u8],
    ghost reads: { is_ok (class (symbols text.now)) ≡ true },
}

impl<'a> Class<'a> {
    ghost use Rattle.aa_glob_syntax.specs.Cursor.{class_set};

    /// Reads a class from the text after its `[`: returns the class, and what follows its `]`. It takes no memory.
    ///
    /// # Errors
    ///
    /// `BadEscape`, `BadRange`, `EmptyClass` or `UnclosedClass`, whichever is met first.
    pub fn read(text: &'a [u8]) -> Result<(Class<'a>, &'a [u8]), PatternError>
        ensures class { IfOk result (λ read. class (symbols text.now) ≡ Ok (class_set read.0)) }
        ensures behind { IfOk result (λ read. behind_class (symbols text.now) ≡ elements Elsewhere (symbols read.1.now)) }
        ensures shorter { IfOk result (λ read. length read.1.now < length text.now) }
        ensures refused { IfErr result (λ error. class (symbols text.now) ≡ Err error) }
        ensures memory { IfErr result (λ error. error ≢ Memory) }
    {
        let (_, listed) = class_start(text);
        let rest = pass_members(listed)?;
        let text = &text[..class_length(text)];
        Ok((Class { text }, rest))
    }

    /// Whether the byte is in the set of the class. It takes no memory; `O(n)` in the length of the class, whose text is read again.
    pub fn has(self, byte: u8) -> bool
        ensures { result ≡ has (class_set self.entry) byte }
    {
        let (negated, listed) = class_start(self.text);
        byte != 0 && negated != lists_byte(byte, listed)
    }

    /// The set of the class, or `AllocError` where memory ran out.
    pub fn set(self, alloc: Global) -> Result<ByteSet, AllocError>
        ensures { IfOk result (λ set. set ≡ class_set self.entry) }
    {
        let (negated, listed) = class_start(self.text);
        Ok(ByteSet::Class {
            negated,
            ranges: Sequence::from_vec(listed_ranges(alloc, listed)?),
        })
    }
}
