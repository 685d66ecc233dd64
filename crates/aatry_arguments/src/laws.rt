//! What the words after commands ask for, as laws over the definitions that `command_of` is proved to follow.

ghost use Rattle.std.specs.Prelude.{◌≡◌, ◌++◌, ℕ, None, Some, false, true, List, Option, [], ◌∷◌, codes};
ghost use Rattle.std.specs.List.{list_all};
ghost use Rattle.aa_start.specs.Options.{Open, is_name, is_option};
ghost use Rattle.aatry_arguments.specs.Arguments.{ForCheck, ForDiff, ForLog, ForReach, ForRules, ForSession, ForTest, ForWho, ForWhy, asked, asked_by_first};
ghost use Rattle.aa_start.specs.Options.{ForThis, Nothing, asked_as};
ghost use Rattle.aatry_arguments.specs.AskingWords.{asked_words, asking_with};
ghost use Rattle.aatry_arguments.specs.CheckWords.{CheckAsked, asked_behind, asked_check, below, check_with, with_names};
ghost use Rattle.aa_start.specs.Options as diff;
ghost use Rattle.aatry_arguments.specs.DiffAllWords.{all_flag};
ghost use Rattle.aatry_arguments.specs.DiffWords.{DiffGiven, LogAt, OfLog, OfQuestions, QuestionsAt};
ghost use Rattle.aatry_arguments.specs.DiffWords.{asked_by, comparison_with, given_behind, stat_flag, with_folders, with_path};
ghost use Rattle.aa_profile_parsing.specs.Languages.{language_named, word_of};
ghost use Rattle.aa_profile_parsing.specs.declared.language.Language.{Language};
ghost use Rattle.aatry_arguments.specs.Languages.{by_language};
ghost use Rattle.aatry_arguments.specs.LogWords.{all_lines, denied_flag, globs_flag, lines_with, logs_with, plain_telling, profile_option, rules_flag, since_option, strict_flag, telling_with};
ghost use Rattle.aatry_arguments.specs.Flags.{is_given, without_flag};
ghost use Rattle.aatry_arguments.specs.PathsWords.{limit_option};
ghost use Rattle.aatry_arguments.specs.ReachWords.{dot_flag, reach_with};
ghost use Rattle.aatry_arguments.specs.RulesWords.{asked_rules, included_flag, redundant_flag, rules_check_with};
ghost use Rattle.aatry_arguments.specs.SessionWords.{session_with};
ghost use Rattle.aatry_arguments.specs.TestWords.{accept_flag, test_with};
ghost use Rattle.aatry_arguments.specs.Values.{IsWithout, ValueOption, value_in};
ghost use Rattle.aatry_words.specs.Named.{time_named};

/// `check` alone asks for all files at the top of /etc/apparmor.d. Words after it that are no options are its NAMEs, all of them and in their order,
/// and so are all words after `--`. After `-b` and a folder each word asks for what it would ask for without them, of that folder; so of two folders
/// the last counts.
pub fn what_checks_have()
    ensures alone { asked (codes "check" ∷ []) ≡ ForThis (ForCheck (check_with (codes "/etc/apparmor.d") [])) }
    ensures plain { (words : List (List ℕ)) (check : CheckAsked)
        → list_all is_name words ≡ true
        → asked_behind (Open check) words ≡ ForThis (with_names words check) }
    ensures dashes { (words : List (List ℕ)) (check : CheckAsked)
        → asked_behind (Open check) (codes "--" ∷ words) ≡ ForThis (with_names words check) }
    ensures base { (words : List (List ℕ)) (folder : List ℕ) (check : CheckAsked)
        → is_option folder ≡ false
        → asked_behind (Open check) (codes "-b" ∷ folder ∷ words) ≡ asked_behind (Open (below folder check)) words }
    ensures last { (words : List (List ℕ)) (first last : List ℕ) (check : CheckAsked)
        → is_option first ≡ false
        → is_option last ≡ false
        → asked_behind (Open check) (codes "-b" ∷ first ∷ codes "-b" ∷ last ∷ words) ≡ asked_behind (Open (below last check)) words }
    ensures both { asked (codes "check" ∷ codes "x" ∷ codes "-b/srv" ∷ codes "y" ∷ [])
        ≡ ForThis (ForCheck (check_with (codes "/srv") (codes "x" ∷ codes "y" ∷ []))) }
{}

/// `check --rules` alone asks which rules decide nothing in all files at the top of /etc/apparmor.d, by 262,144 sets, of their own rules. Words
/// without `--rules` before a `--` ask for a check of files. Wherever `--rules` is before it, words ask for what they would with it in front; the
/// same holds of `--included`, by which included rules are tried, too. Words without these and without `--limit` that would ask for a check of files
/// ask for one of the rules in these files.
pub fn what_rule_checks_have()
    ensures alone { asked (codes "check" ∷ codes "--rules" ∷ []) ≡ ForThis (ForRules (rules_check_with false 262144 (check_with (codes "/etc/apparmor.d") []))) }
    ensures nowhere { (words : List (List ℕ))
        → is_given redundant_flag words ≡ false
        → asked (codes "check" ∷ words) ≡ asked_as ForCheck (asked_check words) }
    ensures anywhere { (words : List (List ℕ))
        → is_given redundant_flag words ≡ true
        → asked (codes "check" ∷ words) ≡ asked_as ForRules (asked_rules (without_flag redundant_flag words)) }
    ensures files { (words : List (List ℕ)) (base : List ℕ) (names : List (List ℕ))
        → is_given redundant_flag words ≡ false
        → is_given included_flag words ≡ false
        → IsWithout limit_option words
        → asked (codes "check" ∷ words) ≡ ForThis (ForCheck (check_with base names))
        → asked (codes "check" ∷ codes "--rules" ∷ words) ≡ ForThis (ForRules (rules_check_with false 262144 (check_with base names))) }
    ensures included { (words : List (List ℕ)) (base : List ℕ) (names : List (List ℕ))
        → is_given redundant_flag words ≡ false
        → is_given included_flag words ≡ true
        → IsWithout limit_option words
        → asked_check (without_flag included_flag words) ≡ ForThis (check_with base names)
        → asked (codes "check" ∷ codes "--rules" ∷ words) ≡ ForThis (ForRules (rules_check_with true 262144 (check_with base names))) }
{}

/// `test` alone asks for nothing that exists, and so does any `test` whose words would ask of `check` to check all files at the top of a folder.
/// Words that would ask of `check` for some files ask of `test` for the transcripts of these paths, over the same folder. This holds of words
/// without the flag `--accept`; words with it ask for the same as without it, and that the replies be accepted.
pub fn what_tests_have()
    ensures alone { asked (codes "test" ∷ []) ≡ Nothing }
    ensures none { (words : List (List ℕ)) (base : List ℕ)
        → is_given accept_flag words ≡ false
        → asked_by_first (codes "check") words ≡ ForThis (ForCheck (check_with base []))
        → asked_by_first (codes "test") words ≡ Nothing }
    ensures some { (words : List (List ℕ)) (base name : List ℕ) (names : List (List ℕ))
        → is_given accept_flag words ≡ false
        → asked_by_first (codes "check") words ≡ ForThis (ForCheck (check_with base (name ∷ names)))
        → asked_by_first (codes "test") words ≡ ForThis (ForTest (test_with base (name ∷ names) false)) }
    ensures accepted { (words : List (List ℕ)) (base name : List ℕ) (names : List (List ℕ))
        → is_given accept_flag words ≡ true
        → asked_by_first (codes "check") (without_flag accept_flag words) ≡ ForThis (ForCheck (check_with base (name ∷ names)))
        → asked_by_first (codes "test") words ≡ ForThis (ForTest (test_with base (name ∷ names) true)) }
{}

/// `who` and `why` alone ask for nothing that exists. Words that would ask of `check` for some files ask of them the question of these words, over
/// the same folder, and where they would ask for all files at the top of a folder they ask for nothing.
pub fn what_askings_have()
    ensures who_alone { asked (codes "who" ∷ []) ≡ Nothing }
    ensures who_none { (words : List (List ℕ)) (base : List ℕ)
        → asked_by_first (codes "check") words ≡ ForThis (ForCheck (check_with base []))
        → asked_by_first (codes "who") words ≡ Nothing }
    ensures who { (words : List (List ℕ)) (base word : List ℕ) (more : List (List ℕ))
        → asked_by_first (codes "check") words ≡ ForThis (ForCheck (check_with base (word ∷ more)))
        → asked_by_first (codes "who") words ≡ ForThis (ForWho (asking_with base (word ∷ more))) }
    ensures why_alone { asked (codes "why" ∷ []) ≡ Nothing }
    ensures why_none { (words : List (List ℕ)) (base : List ℕ)
        → asked_by_first (codes "check") words ≡ ForThis (ForCheck (check_with base []))
        → asked_by_first (codes "why") words ≡ Nothing }
    ensures why { (words : List (List ℕ)) (base word : List ℕ) (more : List (List ℕ))
        → asked_by_first (codes "check") words ≡ ForThis (ForCheck (check_with base (word ∷ more)))
        → asked_by_first (codes "why") words ≡ ForThis (ForWhy (asking_with base (word ∷ more))) }
{}

/// `reach` alone asks for nothing that exists. Words without `--dot` and without `--limit` that would ask a question of `who` ask under which
/// profiles programs may run that the profiles of these names start, over the same folder, by 262,144 sets; and with `--dot` as a graph.
pub fn what_reaches_have()
    ensures alone { asked (codes "reach" ∷ []) ≡ Nothing }
    ensures names { (words : List (List ℕ)) (base name : List ℕ) (names : List (List ℕ))
        → is_given dot_flag words ≡ false
        → IsWithout limit_option words
        → asked_words words ≡ ForThis (asking_with base (name ∷ names))
        → asked (codes "reach" ∷ words) ≡ ForThis (ForReach (reach_with false 262144 (asking_with base (name ∷ names)))) }
    ensures dot { (words : List (List ℕ)) (base name : List ℕ) (names : List (List ℕ))
        → is_given dot_flag words ≡ true
        → IsWithout limit_option words
        → asked_words (without_flag dot_flag words) ≡ ForThis (asking_with base (name ∷ names))
        → asked (codes "reach" ∷ words) ≡ ForThis (ForReach (reach_with true 262144 (asking_with base (name ∷ names)))) }
{}

/// `log` alone asks by all lines of standard input, of /etc/apparmor.d; `log --strict` for the status too, `log --rules` for rules, and with
/// `--globs` for wider ones beside these; and with `--denied`, `--profile` and a name, or `--since` and a time, by those lines. Words without these
/// that would ask of `check` for some files ask of `log` by all lines of the logs at these paths, over the same folder. Where a word after `--since`
/// names no time, the words ask for nothing that exists.
pub fn what_logs_have()
    ensures alone { asked (codes "log" ∷ []) ≡ ForThis (ForLog (logs_with (codes "/etc/apparmor.d") [] plain_telling all_lines)) }
    ensures strict { asked (codes "log" ∷ codes "--strict" ∷ []) ≡ ForThis (ForLog (logs_with (codes "/etc/apparmor.d") [] (telling_with true false false) all_lines)) }
    ensures rules { asked (codes "log" ∷ codes "--rules" ∷ []) ≡ ForThis (ForLog (logs_with (codes "/etc/apparmor.d") [] (telling_with false true false) all_lines)) }
    ensures globs { asked (codes "log" ∷ codes "--rules" ∷ codes "--globs" ∷ [])
        ≡ ForThis (ForLog (logs_with (codes "/etc/apparmor.d") [] (telling_with false true true) all_lines)) }
    ensures denied { asked (codes "log" ∷ codes "--denied" ∷ [])
        ≡ ForThis (ForLog (logs_with (codes "/etc/apparmor.d") [] plain_telling (lines_with true None None))) }
    ensures profile { (name : List ℕ) → asked (codes "log" ∷ codes "--profile" ∷ name ∷ [])
        ≡ ForThis (ForLog (logs_with (codes "/etc/apparmor.d") [] plain_telling (lines_with false (Some name) None))) }
    ensures since { (word : List ℕ) (time : ℕ)
        → IsWithout profile_option (codes "--since" ∷ word ∷ [])
        → time_named word ≡ Some time
        → asked (codes "log" ∷ codes "--since" ∷ word ∷ [])
        ≡ ForThis (ForLog (logs_with (codes "/etc/apparmor.d") [] plain_telling (lines_with false None (Some time)))) }
    ensures no_time { (word : List ℕ)
        → IsWithout profile_option (codes "--since" ∷ word ∷ [])
        → time_named word ≡ None
        → asked (codes "log" ∷ codes "--since" ∷ word ∷ []) ≡ Nothing }
    ensures paths { (words : List (List ℕ)) (base : List ℕ) (names : List (List ℕ))
        → IsWithout profile_option words
        → IsWithout since_option words
        → is_given strict_flag words ≡ false
        → is_given rules_flag words ≡ false
        → is_given globs_flag words ≡ false
        → is_given denied_flag words ≡ false
        → asked_by_first (codes "check") words ≡ ForThis (ForCheck (check_with base names))
        → asked_by_first (codes "log") words ≡ ForThis (ForLog (logs_with base names plain_telling all_lines)) }
{}

/// `--profile` and `--since` have their value in the next word, or after a `=` in their own, and of two the last counts. After `--` they have none.
/// Where no word follows, their value is missing.
pub fn how_values_are_named()
    ensures profile { (so_far : Option (List ℕ)) (name : List ℕ) (words : List (List ℕ))
        → value_in profile_option (Some so_far) (codes "--profile" ∷ name ∷ words) ≡ value_in profile_option (Some (Some name)) words }
    ensures profile_in_word { (so_far : Option (List ℕ)) (name : List ℕ) (words : List (List ℕ))
        → value_in profile_option (Some so_far) ((codes "--profile=" ++ name) ∷ words) ≡ value_in profile_option (Some (Some name)) words }
    ensures since { (so_far : Option (List ℕ)) (time : List ℕ) (words : List (List ℕ))
        → value_in since_option (Some so_far) (codes "--since" ∷ time ∷ words) ≡ value_in since_option (Some (Some time)) words }
    ensures since_in_word { (so_far : Option (List ℕ)) (time : List ℕ) (words : List (List ℕ))
        → value_in since_option (Some so_far) ((codes "--since=" ++ time) ∷ words) ≡ value_in since_option (Some (Some time)) words }
    ensures missing { (option : ValueOption) → value_in option None [] ≡ None }
    ensures dashes { (option : ValueOption) (so_far : Option (List ℕ)) (words : List (List ℕ))
        → value_in option (Some so_far) (codes "--" ∷ words) ≡ Some (record { value = so_far; words = codes "--" ∷ words }) }
{}

/// `session` alone asks for a session over /etc/apparmor.d. Words that would ask of `check` to check all files at the top of a folder ask of
/// `session` for one over it, and for some files they ask for nothing.
pub fn what_sessions_have()
    ensures alone { asked (codes "session" ∷ []) ≡ ForThis (ForSession (session_with (codes "/etc/apparmor.d"))) }
    ensures over { (words : List (List ℕ)) (base : List ℕ)
        → asked_by_first (codes "check") words ≡ ForThis (ForCheck (check_with base []))
        → asked_by_first (codes "session") words ≡ ForThis (ForSession (session_with base)) }
    ensures some { (words : List (List ℕ)) (base name : List ℕ) (names : List (List ℕ))
        → asked_by_first (codes "check") words ≡ ForThis (ForCheck (check_with base (name ∷ names)))
        → asked_by_first (codes "session") words ≡ Nothing }
{}

/// `diff` alone asks for nothing that exists. Two words that are no options ask for the comparison of these folders, with a path after `--log` or
/// after `--questions` by that log or file of questions too, and paths after both ask for nothing. Such an option gives its path wherever it is,
/// also after a `=` in its word, and of two paths the last counts. Words that are no options are folders, all of them and in their order, and so are
/// all words after `--`. Words with the flag `--stat`, and without `--all`, ask for the same as without it, and that how much differs be reported.
pub fn what_comparisons_have()
    ensures alone { asked (codes "diff" ∷ []) ≡ Nothing }
    ensures by_none { (old new : List ℕ)
        → is_option old ≡ false
        → is_option new ≡ false
        → asked (codes "diff" ∷ old ∷ new ∷ []) ≡ ForThis (ForDiff (comparison_with old new None false)) }
    ensures by_stat { (words : List (List ℕ))
        → is_given all_flag words ≡ false
        → is_given stat_flag words ≡ true
        → asked (codes "diff" ∷ words) ≡ asked_as ForDiff (asked_by true (without_flag stat_flag words)) }
    ensures by_log { (old new path : List ℕ)
        → is_option old ≡ false
        → is_option new ≡ false
        → is_option path ≡ false
        → asked (codes "diff" ∷ old ∷ new ∷ codes "--log" ∷ path ∷ []) ≡ ForThis (ForDiff (comparison_with old new (Some (LogAt path)) false)) }
    ensures by_questions { (old new path : List ℕ)
        → is_option old ≡ false
        → is_option new ≡ false
        → is_option path ≡ false
        → asked (codes "diff" ∷ old ∷ new ∷ codes "--questions" ∷ path ∷ []) ≡ ForThis (ForDiff (comparison_with old new (Some (QuestionsAt path)) false)) }
    ensures by_both { (old new log questions : List ℕ)
        → is_option old ≡ false
        → is_option new ≡ false
        → is_option log ≡ false
        → is_option questions ≡ false
        → asked (codes "diff" ∷ old ∷ new ∷ codes "--log" ∷ log ∷ codes "--questions" ∷ questions ∷ []) ≡ Nothing }
    ensures log { (words : List (List ℕ)) (path : List ℕ) (given : DiffGiven)
        → is_option path ≡ false
        → given_behind (diff.Open given) (codes "--log" ∷ path ∷ words) ≡ given_behind (diff.Open (with_path OfLog path given)) words }
    ensures log_in_word { (words : List (List ℕ)) (path : List ℕ) (given : DiffGiven)
        → given_behind (diff.Open given) ((codes "--log=" ++ path) ∷ words) ≡ given_behind (diff.Open (with_path OfLog path given)) words }
    ensures questions { (words : List (List ℕ)) (path : List ℕ) (given : DiffGiven)
        → is_option path ≡ false
        → given_behind (diff.Open given) (codes "--questions" ∷ path ∷ words) ≡ given_behind (diff.Open (with_path OfQuestions path given)) words }
    ensures questions_in_word { (words : List (List ℕ)) (path : List ℕ) (given : DiffGiven)
        → given_behind (diff.Open given) ((codes "--questions=" ++ path) ∷ words)
        ≡ given_behind (diff.Open (with_path OfQuestions path given)) words }
    ensures last_log { (words : List (List ℕ)) (first last : List ℕ) (given : DiffGiven)
        → is_option first ≡ false
        → is_option last ≡ false
        → given_behind (diff.Open given) (codes "--log" ∷ first ∷ codes "--log" ∷ last ∷ words)
        ≡ given_behind (diff.Open (with_path OfLog last given)) words }
    ensures last_questions { (words : List (List ℕ)) (first last : List ℕ) (given : DiffGiven)
        → is_option first ≡ false
        → is_option last ≡ false
        → given_behind (diff.Open given) (codes "--questions" ∷ first ∷ codes "--questions" ∷ last ∷ words)
        ≡ given_behind (diff.Open (with_path OfQuestions last given)) words }
    ensures plain { (words : List (List ℕ)) (given : DiffGiven)
        → list_all is_name words ≡ true
        → given_behind (diff.Open given) words ≡ ForThis (with_folders words given) }
    ensures dashes { (words : List (List ℕ)) (given : DiffGiven)
        → given_behind (diff.Open given) (codes "--" ∷ words) ≡ ForThis (with_folders words given) }
{}

/// Words name a language by `--language` and its number, in the next word or after a `=` in the same, and of two the last counts. After `--` none is
/// named. Where a number is no language's, or none follows, the words ask for nothing that exists.
pub fn how_languages_are_named()
    ensures next { (so_far language : Language) (words : List (List ℕ))
        → by_language (Some so_far) (codes "--language" ∷ word_of language ∷ words) ≡ by_language (Some language) words }
    ensures in_word { (so_far language : Language) (words : List (List ℕ))
        → by_language (Some so_far) ((codes "--language=" ++ word_of language) ∷ words) ≡ by_language (Some language) words }
    ensures none { (so_far : Language) (word : List ℕ) (words : List (List ℕ))
        → language_named word ≡ None
        → by_language (Some so_far) (codes "--language" ∷ word ∷ words) ≡ None }
    ensures missing { (so_far : Language) → by_language (Some so_far) (codes "--language" ∷ []) ≡ None }
    ensures dashes { (so_far : Language) (words : List (List ℕ))
        → by_language (Some so_far) (codes "--" ∷ words) ≡ Some (record { language = so_far; words = codes "--" ∷ words }) }
{}
