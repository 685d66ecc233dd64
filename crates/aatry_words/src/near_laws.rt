//! What holds of the nearest name, as a law over the definition that the calls are proved to follow.

ghost use Rattle.std.specs.Prelude.{ℕ, List};
ghost use Rattle.aatry_words.specs.Near.{IsNearest, nearest};

/// The nearest name is one of the names and near the word; those before it are farther away, and those after it no nearer. Where there is none, no
/// name is near.
pub fn which_name_is_nearest()
    ensures { (word : List ℕ) (names : List (List ℕ)) → IsNearest names word (nearest word names) }
{}
