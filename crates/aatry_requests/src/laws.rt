//! What holds of questions, of their words and of the texts by which they are printed, as laws over the definitions that the calls are proved to
//! follow.

ghost use Rattle.std.specs.Prelude.{◌≡◌, ◌∷◌, [], ℕ, IsSome, List, Ok, Some, codes, true};
ghost use Rattle.aa_set_commands.specs.Question.{Question};
ghost use Rattle.aatry_words.specs.Masks.{needs_meant};
ghost use Rattle.aatry_questions.specs.Faults.{kind_of};
ghost use Rattle.aatry_questions.specs.Meant.{question_meant};
ghost use Rattle.aatry_requests.specs.AskedWords.{asking_words, letting_question};
ghost use Rattle.aatry_requests.specs.Laws.{CanBeAsked};
ghost use Rattle.aatry_requests.specs.Questions.{asked_as};
ghost use Rattle.aatry_requests.specs.Texts.{is_same};

use aatry_questions::how_names_read_back;

/// Questions that are printed by the same text are one question. So what is tallied as one occurred as one, and nothing that differs is counted
/// together.
pub fn what_texts_tell()
    ensures { (question other : Question) → CanBeAsked question → CanBeAsked other → is_same question other ≡ true → question ≡ other }
{
    how_names_read_back();
}

/// Words without the asker, put together with a name, make the question of that name that they make of no one in particular. After a kind of
/// questions they are those of its words that follow the asker. An access is no kind, so the access, the owner's word and the path of a question for
/// a file make that question with and without `file` before them.
pub fn what_words_ask_without_who_asks()
    ensures any_name { (who : List ℕ) (words : List (List ℕ)) (question : Question)
        → letting_question words ≡ Ok question
        → question_meant (asking_words who words) ≡ Ok (asked_as who question) }
    ensures kinds { (who kind : List ℕ) (words : List (List ℕ)) → IsSome (kind_of kind) → asking_words who (kind ∷ words) ≡ kind ∷ who ∷ words }
    ensures files { (who access : List ℕ) (words : List (List ℕ)) (needs : ℕ)
        → needs_meant access ≡ Some needs
        → asking_words who (access ∷ words) ≡ asking_words who (codes "file" ∷ access ∷ words) }
{}
