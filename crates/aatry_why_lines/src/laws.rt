//! What holds of the rules that are reported below the words of a group, as a law over the definitions that the calls are proved to follow.

ghost use Rattle.std.specs.Prelude.{◌==◌, ◌≡◌, ◌||◌, Bool, List, is_some, not};
ghost use Rattle.aa_bytes.specs.Texts.{is_empty};
ghost use Rattle.aa_decide_rules.specs.Verdict.{missing, verdict};
ghost use Rattle.aa_decide_rules.specs.declared.judgement.Mediation.{Mediation};
ghost use Rattle.aa_explain_rules.specs.Logged.{is_denied};
ghost use Rattle.aa_explain_rules.specs.Told.{told};
ghost use Rattle.aa_profile_data.specs.Request.{Request};
ghost use Rattle.aa_profile_data.specs.declared.profile.Rule.{Rule};
ghost use Rattle.aatry_why_lines.specs.Groups.{places_in};
ghost use Rattle.aatry_why_lines.specs.declared.groups.Group.TheVariants.{Auditing};

use aa_explain_rules::what_is_logged;

/// An answer is logged exactly where something of the request is missing, or some rule is below `audited by`.
pub fn what_is_told_as_audited()
    ensures { (mediation : Mediation) (flag : Bool) (request : Request) (rules : List Rule)
        → is_some (verdict mediation flag rules request).tag
        ≡ (not (missing request rules == 0) || not (is_empty (places_in (Auditing (is_denied (told flag request rules))) (told flag request rules)))) }
{
    what_is_logged();
}
