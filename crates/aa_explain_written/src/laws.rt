//! Properties of written rules, as laws over the definitions that the calls are proved to follow.

ghost use Rattle.std.specs.Prelude.{◌≡◌, ◌<◌, [], ◌∷◌, ◌++◌, ℕ, Bool, is_some, List, Ok, Some, true};
ghost use Rattle.aa_decide_rules.specs.Verdict.{verdict};
ghost use Rattle.aa_decide_rules.specs.declared.judgement.Mediation.{Mediation};
ghost use Rattle.aa_explain_rules.specs.Missing.{missing_rule};
ghost use Rattle.aa_explain_written.specs.Quotes.{between_quotes, fits_quotes};
ghost use Rattle.aa_explain_written.specs.ReadBack.{as_read, HasFileOf, IsOfOne, IsOfPath, needs_no_escape, profile_of_one};
ghost use Rattle.aa_explain_written.specs.Written.{written_rule};
ghost use Rattle.aa_glob.specs.Laws.{quoted};
ghost use Rattle.aa_glob_syntax.specs.Reading.{items_of};
ghost use Rattle.aa_profile.specs.FileReading.{file_profiles_in};
ghost use Rattle.aa_profile_data.specs.Access.{all_letters};
ghost use Rattle.aa_profile_data.specs.Request.{ForCapability, ForFile, ForSockets, Request};
ghost use Rattle.aa_profile_data.specs.declared.profile.Rule.{Rule};
ghost use Rattle.aa_profile_parsing.specs.declared.language.Language.{Language};
ghost use Rattle.aa_text_files.specs.Files.{File};

use aa_glob::quoted_text_reads_as_itself;

/// What is written is read back: a file of one profile with the written rule in its block, between blanks, is read as this one profile by each
/// language, and its rules are this one rule. Its pattern alone may be written with more backslashes than the rule's own. It reads the same, so it
/// matches the same; and it is the rule's own where no byte of the path is a quote, a closing bracket, or a slash after another. Among any other
/// rules, the rule that is read leads to the verdicts of the one that was written.
pub fn what_is_written_is_read()
    ensures rules_are_read_back { (language : Language) (files : List File) (name : List ℕ) (rule : Rule) (text : List ℕ)
        → IsOfOne rule → written_rule rule ≡ Some text → HasFileOf files name text
        → file_profiles_in language files name ≡ Ok (profile_of_one (as_read rule) ∷ []) }
    ensures patterns_read_the_same { (path pattern : List ℕ)
        → IsOfPath path pattern → fits_quotes (between_quotes pattern) ≡ true → items_of (between_quotes pattern) ≡ items_of pattern }
    ensures patterns_stay_where_they_can { (path : List ℕ) → needs_no_escape path ≡ true → between_quotes (quoted path) ≡ quoted path }
    ensures verdicts_stay { (mediation : Mediation) (flag : Bool) (request : Request) (before after : List Rule) (rule : Rule) (text : List ℕ)
        → IsOfOne rule → written_rule rule ≡ Some text
        → verdict mediation flag (before ++ as_read rule ∷ after) request ≡ verdict mediation flag (before ++ rule ∷ after) request }
{
    quoted_text_reads_as_itself();
}

/// The rules that requests lack can be written: one on a file is on its path alone, and is written where the path can be in quotes, having no line
/// feed and not being too long there; so is that of each capability, and of each domain and type.
pub fn which_missing_rules_are_written()
    ensures each_is_on_one_path { (request : Request) (rules : List Rule) (rule : Rule) → missing_rule request rules ≡ Some rule → IsOfOne rule }
    ensures of_each_path { (letters : ℕ) (owned : Bool) (path : List ℕ) (rules : List Rule) (rule : Rule)
        → letters < all_letters → fits_quotes (between_quotes (quoted path)) ≡ true
        → missing_rule (ForFile letters owned path) rules ≡ Some rule → is_some (written_rule rule) ≡ true }
    ensures of_each_capability { (number : ℕ) (rules : List Rule) (rule : Rule)
        → number < 41 → missing_rule (ForCapability number) rules ≡ Some rule → is_some (written_rule rule) ≡ true }
    ensures of_each_type { (domain kind : ℕ) (rules : List Rule) (rule : Rule)
        → domain < 44 → kind < 6 → missing_rule (ForSockets domain kind) rules ≡ Some rule → is_some (written_rule rule) ≡ true }
{
    quoted_text_reads_as_itself();
}
