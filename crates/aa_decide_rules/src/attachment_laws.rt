//! Properties of ranks, as laws over the definitions that `best_rank` and `standing_out` are proved to follow.

ghost use Rattle.std.specs.Prelude.{◌≡◌, ◌<◌, ◌↔◌, ℕ, List, Some, false};
ghost use Rattle.aa_glob_syntax.specs.Exactness.{is_exact};
ghost use Rattle.aa_glob_syntax.specs.Reading.{items_of};
ghost use Rattle.aa_decide_rules.specs.RankLaws.{StandsOut};
ghost use Rattle.aa_decide_rules.specs.Ranks.{exact_rank, rank};
ghost use Rattle.aa_decide_rules.specs.StandingOut.{standing_out};

/// A place stands out exactly where its rank is greater than 0 and the rank at each other place is lower.
pub fn which_rank_stands_out()
    ensures { (ranks : List ℕ) (place : ℕ) → (standing_out ranks ≡ Some place) ↔ StandsOut ranks place }
{}

/// Each pattern that isn't exact ranks lower than those that are, on whichever path.
pub fn exact_patterns_rank_highest()
    ensures { (path pattern : List ℕ) → is_exact (items_of pattern) ≡ false → rank path pattern < exact_rank }
{}
