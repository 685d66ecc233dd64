//! How the start of programs depends on their paths, as laws over the definitions that the calls are proved to follow.

ghost use Rattle.aa_explain_reach.specs.StartLaws.{StartsAreAlike, StartsAreShortest, StartsAreWanted, StartsOfAllPaths};

/// The answer to the start of a program depends on its path by which patterns match it alone: those of the rules of
/// who asks that deny starts or have an exec word, of the attachments of all profiles in force, and of those of its
/// own children; how well each fits is known from the pattern itself. So of paths that stand for all (`aa_glob_paths`)
/// one has the answers of any path that a wanted pattern matches, and none that is passed over, and is no longer. And
/// a wanted pattern (`wanted_patterns`) matches each absolute path whose program is started.
pub fn how_starts_depend_on_paths()
    ensures alike { StartsAreAlike }
    ensures all { StartsOfAllPaths }
    ensures wanted { StartsAreWanted }
{}

/// Where no two profiles have one name, as in what is loaded, no shorter path leads where one of the starts does that
/// are told (`starts_of`), whoever owns the program's file.
pub fn which_starts_are_shortest()
    ensures { StartsAreShortest }
{}
