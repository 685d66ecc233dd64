//! Properties of verdicts over all paths, as laws over the definitions that the calls are proved to follow.

ghost use Rattle.aa_explain_paths.specs.Laws.{RelevantRulesDecide, VerdictsAreAlike, VerdictsOfAllPaths};

/// A verdict on a file depends on its path only by the patterns that match it. So of paths that stand for all (`aa_glob_paths`) one has the verdicts
/// of any path that a wanted pattern matches, and none that is passed over, and is no longer: by whatever rules whose patterns are among those,
/// whatever the letters, whoever owns the file, and whatever happens to what the rules don't allow.
pub fn verdicts_of_all_paths()
    ensures alike { VerdictsAreAlike }
    ensures all { VerdictsOfAllPaths }
{}

/// No verdict on these letters of a file that is meant, or on some of them, depends on rules that cover none of the letters, or that have `owner`
/// where only files of other users are meant.
pub fn relevant_rules_decide()
    ensures { RelevantRulesDecide }
{}
