//! Properties of the tokens of a text, as laws over the definition of the cut.

ghost use Rattle.std.specs.Prelude.{◌≡◌, ◌++◌, ℕ, Bool, false, List, ◌∷◌, Ok};
ghost use Rattle.aa_bytes.specs.Bytes.{line_feed};
ghost use Rattle.aa_text_tokens.specs.Cut.{cut, piece_at, Seen};
ghost use Rattle.aa_text_tokens.specs.CutLaws.{Covers, LineHasValuesPlaced, TextIsCutByLines};

/// The tokens of a text cover it from left to right: none overlaps another; before, between and after them are blanks and comments alone; and each
/// token's span determines its text, whether an Include has `if exists` and whether an Assign's sign is `+=`. What is read at an offset does not
/// depend on what follows its line: it is what would be read if the text ended with the line. So a text is cut line by line: up to a line feed as if
/// it ended there, and what follows as if it began there. In a line each token after an Assign is a value, and no other is.
pub fn how_a_text_is_cut()
    ensures tokens_cover_a_text { (source : List ℕ) (tokens : List Seen)
        → cut 0 0 false source ≡ Ok tokens
        → Covers 0 source tokens }
    ensures token_depends_on_its_line_alone { (values : Bool) (text rest : List ℕ)
        → piece_at values (text ++ line_feed ∷ rest) ≡ piece_at values text }
    ensures text_is_cut_line_by_line { TextIsCutByLines }
    ensures values_stand_behind_an_assign { LineHasValuesPlaced }
{}
