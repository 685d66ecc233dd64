//! Which rules can change an answer, and what follows where no change is reported, as laws over the definitions that the calls are proved to follow.

ghost use Rattle.aa_explain_changes.specs.Laws.{ChangedRulesDecide, LettersDecideSets, NoChangeIsHidden, NothingAllowedIsRefused};

use aa_decide_rules::what_rules_decide;

/// Where the answer to letters of a file changes, a rule covers them that only one side has: its pattern matches the file's path, and it hasn't
/// `owner` where the file isn't owned. So no other path has to be looked at.
pub fn changed_rules_decide()
    ensures { ChangedRulesDecide }
{
    what_rules_decide();
}

/// Where no change is reported for any rule of either side (`changes_of_files`), the answer to no letter changes, for no path about which the kernel
/// may ask, whoever owns its file. Where nothing is reported to be lost, each letter is allowed that was.
pub fn no_change_is_hidden()
    ensures hidden { NoChangeIsHidden }
    ensures refused { NothingAllowedIsRefused }
{
    changed_rules_decide();
}

/// Two sides that give the same verdict on each letter of a file give the same verdict on any letters of it together, in whatever mode, with tag and
/// mask.
pub fn letters_decide_sets()
    ensures { LettersDecideSets }
{}
