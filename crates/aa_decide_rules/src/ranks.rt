//! The greatest of some ranks, if no other equals it.

ghost use Rattle.std.specs.Prelude.{◌≡◌, ◌==◌};
ghost use Rattle.std.specs.List.{list_any};
ghost use Rattle.aa_decide_rules.specs.StandingOut.{greatest, has_rank, place_of_only, standing_out};

/// The greatest of some ranks, 0 where there is none. It takes no memory.
pub fn greatest(ranks: &[u128]) -> u128
    ensures { result ≡ greatest ranks.now }
{
    let mut best = 0;
    let mut rest = ranks;
    while let [rank, behind @ ..] = rest {
        if best <= *rank {
            best = *rank;
        }
        rest = behind;
    }
    best
}

// Whether a rank is among some.
fn has_rank(rank: u128, ranks: &[u128]) -> bool
    ensures { result ≡ has_rank rank ranks.now }
{
    ranks.iter().any(|other| *other == rank)
}

// The index of a rank that occurs once in a list.
fn place_of_only(rank: u128, ranks: &[u128]) -> Option<usize>
    ensures { result ≡ place_of_only rank ranks.now }
{
    let mut place: usize = 0;
    let mut rest = ranks;
    while let [other, behind @ ..] = rest {
        if *other == rank {
            return if has_rank(rank, behind) {
                None
            } else {
                Some(place)
            };
        }
        place += 1;
        rest = behind;
    }
    None
}

/// The index of the rank that is greater than all others; `None` where two share the greatest, and where no rank is greater than 0, which is the
/// rank of what doesn't match. It takes no memory; `O(n)` in the number of ranks.
pub fn standing_out(ranks: &[u128]) -> Option<usize>
    ensures { result ≡ standing_out ranks.now }
{
    match greatest(ranks) {
        0 => None,
        rank => place_of_only(rank, ranks),
    }
}
