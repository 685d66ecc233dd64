//! What the sets say of all texts, as laws over their definitions.

ghost use Rattle.aa_glob_paths.specs.SetLaws.{ClosedSetsAreReachable, NotPassedOverIsUnsettled, SetsTellPatterns};

/// A closed list of sets has the set of each text after which a state is live that matters, and after no beginning of which a settled one is. One of
/// the sets has the ends of exactly those patterns to which such a text leads, if one of them is wanted. And after no beginning of a text that leads
/// somewhere, and to no end of a pattern that is passed over, a settled state is live.
pub fn what_sets_tell()
    ensures closed { ClosedSetsAreReachable }
    ensures patterns { SetsTellPatterns }
    ensures settled { NotPassedOverIsUnsettled }
{}
