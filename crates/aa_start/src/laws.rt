//! Properties of runs, as laws over the definitions that `plan` is proved to follow.

ghost use Rattle.std.specs.Prelude.{◌≡◌, ◌<◌, ℕ, false, true, List, [], ◌∷◌, codes, length};
ghost use Rattle.std.specs.List.{list_all};
ghost use Rattle.aa_start.specs.Options.{Open, is_name, is_option};
ghost use Rattle.aa_profile_parsing.specs.declared.language.Language.TheVariants.{Three};
ghost use Rattle.aa_start.specs.Arguments.{ForRun, Run, asked, asked_at_end, asked_behind, below, forced, read_by, with_names};
ghost use Rattle.aa_start.specs.Plan.{run_with};

/// Each run has at least one NAME. Words that are no options are its NAMEs, all of them and in their order. After `-C` each word asks for what it
/// would ask for without it, in complain mode, after `-b` and a folder for the same below that folder, and after `--language` and a word for the
/// same by that language.
pub fn what_runs_have()
    ensures names { (words : List (List ℕ)) (run : Run) → asked words ≡ ForRun run → 0 < length run.names }
    ensures plain { (words : List (List ℕ)) (run : Run)
        → list_all is_name words ≡ true
        → asked_behind (Open run) words ≡ asked_at_end (with_names words run) }
    ensures mode { (words : List (List ℕ)) (run : Run)
        → asked_behind (Open run) (codes "-C" ∷ words) ≡ asked_behind (Open (forced run)) words }
    ensures base { (words : List (List ℕ)) (folder : List ℕ) (run : Run)
        → is_option folder ≡ false
        → asked_behind (Open run) (codes "-b" ∷ folder ∷ words) ≡ asked_behind (Open (below folder run)) words }
    ensures language { (words : List (List ℕ)) (word : List ℕ) (run : Run)
        → is_option word ≡ false
        → asked_behind (Open run) (codes "--language" ∷ word ∷ words) ≡ asked_behind (Open (read_by word run)) words }
    ensures both { asked (codes "-C" ∷ codes "-b" ∷ codes "/srv" ∷ codes "x" ∷ []) ≡ ForRun (run_with Three true (codes "/srv") (codes "x" ∷ [])) }
{}
