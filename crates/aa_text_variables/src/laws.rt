//! Properties of variables and expansions, as laws over their definitions.

ghost use Rattle.std.specs.Prelude.{◌≡◌, ℕ, true, false, ◌↔◌, List, ◌∷◌, [], None, find, length};
ghost use Rattle.aa_text_variables.specs.CycleLaws.{HasAnyChain, IsCyclicByWord, IsOneOf, ReachesCycle};
ghost use Rattle.aa_text_variables.specs.ExpansionLaws.{Agree, AreExpandedWords, AreWordsDefined, ExpandsUnlessRefused};
ghost use Rattle.aa_text_variables.specs.ExpansionLaws.{FindsUndefinedAtOnce, names_nothing, value_product};
ghost use Rattle.aa_text_variables.specs.Expansions.{expansions, is_cyclic, leads_to_cycle};
ghost use Rattle.aa_text_variables.specs.Variables.{Variable, are_variables};

/// Where no word of a variable names one that isn't defined, a text leads to such a name only if it names one itself. Where no variable
/// leads to itself, no text leads to one that does.
pub fn what_a_text_leads_to()
    ensures undefined_name_is_found_at_once { (variables : List Variable) (text : List ℕ)
        → AreWordsDefined variables
        → FindsUndefinedAtOnce variables text }
    ensures no_cyclic_variable_no_cycle { (variables : List Variable) (text : List ℕ)
        → find (is_cyclic variables) variables ≡ None
        → leads_to_cycle variables text ≡ false }
{}

/// A chain of more variables than there are is a cycle: a text has such a chain exactly where it leads to some variable that leads to itself, and it
/// then has chains of any length. A variable is cyclic exactly where one of its words leads to some variable that leads to itself.
pub fn what_a_cycle_is()
    ensures chain_of_all_leads_to_a_cyclic_variable { (variables : List Variable) (text : List ℕ)
        → (leads_to_cycle variables text ≡ true) ↔ ReachesCycle variables text }
    ensures cycle_has_chains_of_any_length { (variables : List Variable) (text : List ℕ)
        → leads_to_cycle variables text ≡ true
        → HasAnyChain variables text }
    ensures variable_is_cyclic_by_a_word { (variables : List Variable) (variable : Variable)
        → IsOneOf variables variable
        → IsCyclicByWord variables variable }
{}

/// A text that names no variable has itself as its one expansion. A text has as many expansions as the product of the counts of its names'
/// values, and none if it doesn't close a name. The values of a variable that does not lead to itself are the expansions of its words, in
/// order. And the expansions of a text depend on the values of those names alone that it names. A text that isn't refused has an expansion.
pub fn how_texts_expand()
    ensures text_without_names_is_its_expansion { (variables : List Variable) (text : List ℕ)
        → names_nothing text ≡ true
        → expansions variables text ≡ text ∷ [] }
    ensures as_many_as_the_product_of_the_values { (variables : List Variable) (text : List ℕ)
        → length (expansions variables text) ≡ value_product variables text }
    ensures values_are_expansions_of_words { (variables : List Variable) (name : List ℕ)
        → AreExpandedWords variables name }
    ensures named_values_alone_decide { (variables others : List Variable) (text : List ℕ)
        → Agree variables others text
        → expansions variables text ≡ expansions others text }
    ensures text_expands_unless_refused { (variables : List Variable) (text : List ℕ)
        → are_variables variables ≡ true
        → ExpandsUnlessRefused variables text }
{}
