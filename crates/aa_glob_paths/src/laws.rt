//! What outcomes say of all paths, as laws over the definitions.

ghost use Rattle.aa_glob_paths.specs.Laws.{OutcomesAreShortest, OutcomesStandForAll};

/// The paths of outcomes stand for all paths that a wanted pattern matches, and none that is passed over: each such path is matched by the same
/// patterns as one of them, which is no longer. The path of each is one of the shortest that its patterns match and no others.
pub fn outcomes_stand_for_all()
    ensures all { OutcomesStandForAll }
    ensures shortest { OutcomesAreShortest }
{}
