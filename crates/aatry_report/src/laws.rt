//! What holds of places, as laws over the definitions that the calls are proved to follow.

ghost use Rattle.std.specs.Prelude.{◌≡◌, ◌-◌, ℕ, false, List, Some, length, slice_get};
ghost use Rattle.std.specs.List.{join_with_byte};
ghost use Rattle.aa_bytes.specs.Bytes.{line_feed};
ghost use Rattle.aa_bytes.specs.Texts.{has_byte};
ghost use Rattle.aatry_report.specs.CaretLine.{caret_line};
ghost use Rattle.aatry_report.specs.Columns.{IsBeginning, column};
ghost use Rattle.aatry_report.specs.Lines.{line_at, line_number, lines_of, whole_line_at};

/// A text's lines, with a line feed between each two, are the text. The line of a place is the one of its number among them, counted from 1, and has
/// no line feed. A line and a column give a single one of the places where characters begin and of the text's end. The caret is the byte of the
/// place's column in the line below, counted from 1.
pub fn what_places_are()
    ensures joined { (text : List ℕ) → join_with_byte line_feed (lines_of text) ≡ text }
    ensures line { (text : List ℕ) (at : ℕ) → slice_get (lines_of text) (line_number text at - 1) ≡ Some (whole_line_at text at) }
    ensures unbroken { (text : List ℕ) (at : ℕ) → has_byte line_feed (line_at text at) ≡ false }
    ensures told { (text : List ℕ) (at other : ℕ)
        → IsBeginning text at
        → IsBeginning text other
        → line_number text at ≡ line_number text other
        → column text at ≡ column text other
        → at ≡ other }
    ensures caret { (text : List ℕ) (at : ℕ) → length (caret_line text at) ≡ column text at }
{}
