//! Properties of attachment and of the start of programs, as laws over the definitions that `attach` and `exec` are proved to follow.

ghost use Rattle.std.specs.Prelude.{◌≡◌, ◌<◌, ◌^◌, ◌↔◌, ℕ, Bool, IfSome, List, Option, Some, true};
ghost use Rattle.std.specs.List.{All};
ghost use Rattle.aa_profile_data.specs.Access.{EXEC};
ghost use Rattle.aa_decide.specs.Attachment.{attached};
ghost use Rattle.aa_decide_ready.specs.Confinement.{By, in_state};
ghost use Rattle.aa_decide_ready.specs.Entries.{Loaded, is_in_force};
ghost use Rattle.aa_decide.specs.Exec.{Asker, Base, Stacked, Under, are_in_force, exec_answer};
ghost use Rattle.aa_decide.specs.ExecLaws.{DifferInOrder, FitsBest, HaveDistinctNames, IsBaseInForce, SomeRuleDenies};
ghost use Rattle.aa_decide_rules.specs.Laws.{RulesLeadOneWay};
ghost use Rattle.aa_decide_ready.specs.Sections.{Section};
ghost use Rattle.aa_decide_rules.specs.declared.judgement.Mediation.{Mediation};
ghost use Rattle.aa_decide_rules.specs.declared.verdict.Answer.TheVariants.{Deny};

use aa_decide_ready::ReadySection;
use aa_decide_rules::{where_agreeing_rules_lead, which_rank_stands_out};

/// A program never runs under a disabled profile, nor under a child or hat of one, and all profiles of a stack, its base included, are in force. Of
/// profiles of different names, one attaches to a path exactly where it has an attachment that matches and ranks higher than those of all others.
/// The order of the profiles changes neither that nor any answer. A deny rule that covers the start of the program takes precedence over all other
/// rules. The mask of each answer is `x`.
pub fn where_programs_run()
    ensures none_runs_under_a_disabled_profile { (entries : List Loaded) (asker : Option Asker) (owned : Bool) (path : List ℕ)
        → (entry : Loaded) (child : Option ℕ)
        → (exec_answer entries asker owned path).to ≡ Under entry child
        → is_in_force entry.state ≡ true }
    ensures all_of_a_stack_are_in_force { (entries : List Loaded) (asker : Option Asker) (owned : Bool) (path : List ℕ)
        → (base : Option Base) (members : List (List ℕ))
        → (exec_answer entries asker owned path).to ≡ Stacked base members
        → IfSome base IsBaseInForce × (are_in_force members entries ≡ true) }
    ensures best_fit_is_attached { (path : List ℕ) (entries : List Loaded) (entry : Loaded)
        → HaveDistinctNames entries
        → (attached path entries ≡ Some entry) ↔ FitsBest path entries entry }
    ensures order_changes_no_attachment { (path : List ℕ) (entries others : List Loaded)
        → DifferInOrder entries others
        → attached path entries ≡ attached path others }
    ensures order_changes_no_answer { (entries others : List Loaded) (asker : Option Asker) (owned : Bool) (path : List ℕ)
        → DifferInOrder entries others
        → exec_answer entries asker owned path ≡ exec_answer others asker owned path }
    ensures deny_rule_wins { (entries : List Loaded) (asker : Asker) (owned : Bool) (path : List ℕ)
        → (section : Section) (mediation : Mediation)
        → in_state asker.entry.profile asker.entry.state asker.child ≡ By section mediation
        → SomeRuleDenies owned path section
        → (exec_answer entries (Some asker) owned path).verdict.answer ≡ Deny }
    ensures mask_is_exec { (entries : List Loaded) (asker : Option Asker) (owned : Bool) (path : List ℕ)
        → (exec_answer entries asker owned path).verdict.mask.0 ≡ EXEC }
{
    which_rank_stands_out();
}

/// Of the rules of a ready profile, or of a child or hat of it, those that dominate on a path have one transition: where the first of them leads,
/// all lead. A path is a list of bytes.
pub fn where_the_rules_lead(section: ReadySection<'_>)
    ensures { (flag owned : Bool) (path : List ℕ) → All (λ b. b < 2 ^ 8) path → RulesLeadOneWay flag owned path section.entry.rules.now }
{
    where_agreeing_rules_lead();
    section.rules_agree();
}
