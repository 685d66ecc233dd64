//! What follows where written rules are reported as redundant, as a law over the definitions that the call is proved to follow.

ghost use Rattle.aa_explain_redundant.specs.Laws.{RedundantRulesDecideNothing};

use aa_explain_changes::letters_decide_sets;

/// Without the written rules in the result of `redundant_rules`, all together, any letters of a file are answered the same, with tag and mask, in
/// whatever mode, on each path about which the kernel may ask; and the start of its program is denied or leads where it did.
pub fn without_redundant_rules()
    ensures { RedundantRulesDecideNothing }
{
    letters_decide_sets();
}
