//! What words after `diff` with the flag `--all` ask for, as a law over the definitions that `call_of` is proved to follow.

ghost use Rattle.std.specs.Prelude.{◌≡◌, ◌++◌, ℕ, Bool, None, Some, false, true, List, Option, [], ◌∷◌, codes};
ghost use Rattle.std.specs.List.{list_all};
ghost use Rattle.aa_start.specs.Options.{ForThis, Nothing, asked_as, is_name, is_option};
ghost use Rattle.aatry_arguments.specs.Arguments.{ForDiff, ForDiffAll, asked};
ghost use Rattle.aatry_arguments.specs.DiffAllWords.{all_flag, asked_all, asked_by, path_comparison_with, quiet_audit_flag, without_flags};
ghost use Rattle.aatry_arguments.specs.DiffWords.{asked_diff, stat_flag};
ghost use Rattle.aatry_arguments.specs.Flags.{is_given, without_flag};
ghost use Rattle.aatry_arguments.specs.PathsWords.{limit_option};
ghost use Rattle.aatry_arguments.specs.Values.{IsWithout, value_in};
ghost use Rattle.aatry_words.specs.Numbers.{number_of};

/// `diff` with `--all` alone, or with one word more that is no option, asks for nothing that exists. Two words that are no options, with more after
/// them, ask for the comparison of the first two, for the profiles named by the rest, by 262,144 sets and in full. With a path after `--log` or
/// `--questions` they ask for nothing. Wherever the flag is before `--`, the words ask for what they would with it in front; and where it isn't
/// there, they ask for a comparison of profiles and requests. The same holds of `--stat` and `--quiet-audit`. A number after `--limit`, in the next
/// word or after a `=` in its own, is the number of sets, and of two the last counts; where it is followed by no number, the words ask for nothing.
pub fn what_path_comparisons_have()
    ensures alone { asked (codes "diff" ∷ codes "--all" ∷ []) ≡ Nothing }
    ensures one { (old : List ℕ)
        → is_option old ≡ false
        → asked (codes "diff" ∷ codes "--all" ∷ old ∷ []) ≡ Nothing }
    ensures names { (old new : List ℕ) (who : List (List ℕ))
        → is_option old ≡ false
        → is_option new ≡ false
        → list_all is_name who ≡ true
        → asked (codes "diff" ∷ codes "--all" ∷ old ∷ new ∷ who) ≡ ForThis (ForDiffAll (path_comparison_with old new who false false 262144)) }
    ensures by_log { (old new path : List ℕ)
        → is_option old ≡ false
        → is_option new ≡ false
        → is_option path ≡ false
        → asked (codes "diff" ∷ codes "--all" ∷ old ∷ new ∷ codes "--log" ∷ path ∷ []) ≡ Nothing }
    ensures by_questions { (old new path : List ℕ)
        → is_option old ≡ false
        → is_option new ≡ false
        → is_option path ≡ false
        → asked (codes "diff" ∷ codes "--all" ∷ old ∷ new ∷ codes "--questions" ∷ path ∷ []) ≡ Nothing }
    ensures anywhere { (words : List (List ℕ))
        → is_given all_flag words ≡ true
        → asked (codes "diff" ∷ words) ≡ asked (codes "diff" ∷ codes "--all" ∷ without_flag all_flag words) }
    ensures nowhere { (words : List (List ℕ))
        → is_given all_flag words ≡ false
        → asked (codes "diff" ∷ words) ≡ asked_as ForDiff (asked_diff words) }
    ensures flags { (words : List (List ℕ)) (stat quiet_audit : Bool)
        → IsWithout limit_option words
        → is_given stat_flag words ≡ stat
        → is_given quiet_audit_flag words ≡ quiet_audit
        → asked_all words ≡ asked_by stat quiet_audit 262144 (without_flags words) }
    ensures limited { (number old new : List ℕ) (who : List (List ℕ)) (limit : ℕ)
        → number_of number ≡ Some limit
        → is_option old ≡ false
        → is_option new ≡ false
        → list_all is_name who ≡ true
        → asked (codes "diff" ∷ codes "--all" ∷ (codes "--limit=" ++ number) ∷ old ∷ new ∷ who)
        ≡ ForThis (ForDiffAll (path_comparison_with old new who false false limit)) }
    ensures no_number { (number old new : List ℕ) (who : List (List ℕ))
        → number_of number ≡ None
        → is_option old ≡ false
        → is_option new ≡ false
        → list_all is_name who ≡ true
        → asked (codes "diff" ∷ codes "--all" ∷ (codes "--limit=" ++ number) ∷ old ∷ new ∷ who) ≡ Nothing }
    ensures limit { (so_far : Option (List ℕ)) (number : List ℕ) (words : List (List ℕ))
        → value_in limit_option (Some so_far) (codes "--limit" ∷ number ∷ words) ≡ value_in limit_option (Some (Some number)) words }
    ensures limit_in_word { (so_far : Option (List ℕ)) (number : List ℕ) (words : List (List ℕ))
        → value_in limit_option (Some so_far) ((codes "--limit=" ++ number) ∷ words) ≡ value_in limit_option (Some (Some number)) words }
{}
