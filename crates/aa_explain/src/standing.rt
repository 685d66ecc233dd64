//! How the candidates compare that may attach to a path.

ghost use Rattle.std.specs.Prelude.{◌≡◌};
ghost use Rattle.aa_explain.specs.Standings.{is_the_one, standing_of};

use aa_decide_rules::{greatest, standing_out};

/// How a candidate compares with others on a path.
#[derive(Clone, Copy, Debug, PartialEq, Eq)]
pub enum Standing {
    /// The candidate attaches to the path.
    Attached,
    /// The candidate fits the path best, but so does another: none of them attaches to the path.
    Tied,
    /// Another candidate fits the path better.
    Lost,
}

// Whether an index is this one, if there is one.
fn is_the_one(place: usize, one: Option<usize>) -> bool
    ensures { result ≡ is_the_one place one }
{
    match one {
        None => false,
        Some(one) => place == one,
    }
}

/// How the candidate at an index, with this rank, compares with the candidates of these ranks, all on one path. It takes no memory.
pub fn standing_of(ranks: &[u128], place: usize, rank: u128) -> Standing
    ensures { result ≡ standing_of ranks.now place rank }
{
    if is_the_one(place, standing_out(ranks)) {
        Standing::Attached
    } else if rank == greatest(ranks) {
        Standing::Tied
    } else {
        Standing::Lost
    }
}
