//! Properties of reading and matching: which texts spell themselves, which faults are reported whatever follows them, and which texts match.

ghost use Rattle.std.specs.Prelude.{◌≡◌, ◌↔◌, ℕ, true, false, List, Ok, IsTrue};
ghost use Rattle.std.specs.List.{All};
ghost use Rattle.aa_glob_syntax.specs.Exactness.{is_exact};
ghost use Rattle.aa_glob_syntax.specs.Items.{Pattern};
ghost use Rattle.aa_glob.specs.Laws.{bytes_of, bytes_pattern, IsRefusedBeforeEnd, IsRefusedHoweverItEnds, needs_backslash, quoted};
ghost use Rattle.aa_glob_syntax.specs.Matching.{matches};
ghost use Rattle.aa_glob_syntax.specs.Reading.{HasNoFirstFault, has_zero, items_of, reading};
ghost use Rattle.aa_glob_syntax.specs.declared.pattern_error.PatternError.{PatternError};

use aa_glob_pattern::matching_is_by_splits;

/// A text of bytes that need no backslash reads as these bytes, if it has none of the faults that are checked first.
pub fn plain_text_reads_as_itself()
    ensures { (text : List ℕ)
        → HasNoFirstFault text → All (λ b. needs_backslash b ≡ false) text → reading text ≡ Ok (bytes_pattern text) }
{}

/// A text with a backslash before each byte that needs one reads as these bytes, if it has none of the faults that are checked first.
pub fn quoted_text_reads_as_itself()
    ensures { (text : List ℕ) → HasNoFirstFault (quoted text) → reading (quoted text) ≡ Ok (bytes_pattern text) }
{}

/// A fault that is met before a text's end is reported whatever follows it, so texts that agree up to it are refused by the same fault.
pub fn first_fault_is_reported()
    ensures { (text : List ℕ) (error : PatternError) → IsRefusedBeforeEnd text error → IsRefusedHoweverItEnds text error }
{}

/// A pattern whose items are all bytes matches the text of these bytes alone.
pub fn exact_pattern_matches_one_text()
    ensures { (items : Pattern) (text : List ℕ)
        → is_exact items ≡ true → (IsTrue (matches items text) ↔ (text ≡ bytes_of items)) }
{
    matching_is_by_splits();
}

/// No pattern that was read matches a text with a zero byte.
pub fn no_text_with_a_zero_byte_matches()
    ensures { (pattern text : List ℕ) → has_zero text ≡ true → matches (items_of pattern) text ≡ false }
{
    matching_is_by_splits();
}

/// A text with a backslash before each byte that needs one matches itself alone.
pub fn quoted_text_matches_itself()
    ensures { (text path : List ℕ)
        → HasNoFirstFault (quoted text) → (IsTrue (matches (items_of (quoted text)) path) ↔ (path ≡ text)) }
{
    matching_is_by_splits();
}
