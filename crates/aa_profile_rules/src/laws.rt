//! Properties of rules that are read, as laws over the definitions that `read_rule` is proved to follow.

ghost use Rattle.std.specs.Prelude.{◌≡◌, IfOk, List, true};
ghost use Rattle.aa_profile_parsing.specs.declared.language.Language.{Language};
ghost use Rattle.aa_profile_parsing.specs.declared.language.Language.TheVariants.{Three};
ghost use Rattle.aa_profile_rules.specs.NarrowRules.{IsNarrow};
ghost use Rattle.aa_profile_rules.specs.RuleNumbers.{has_known_numbers};
ghost use Rattle.aa_profile_rules.specs.Rules.{rule};
ghost use Rattle.aa_text_tokens.specs.Splicing.{Placed};

use aa_profile_data::{no_name_is_a_stack, which_numbers_names_have};

/// Every number in a rule that is read is in the tables: its capabilities have numbers below 41, its domain has one below 44, and its type or
/// protocol one below 9.
pub fn which_numbers_rules_have()
    ensures { (language : Language) (tokens : List Placed) → IfOk (rule language tokens) (λ read. has_known_numbers read.0 ≡ true) }
{
    which_numbers_names_have();
}

/// No rule that is read by language 3 is the rule `all`; and where one has an exec word, its target, if it has one, names no stack.
pub fn which_rules_language_3_has()
    ensures { (tokens : List Placed) → IfOk (rule Three tokens) (λ read. IsNarrow read.0) }
{
    no_name_is_a_stack();
}
