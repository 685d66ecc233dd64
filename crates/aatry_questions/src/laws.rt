//! What holds of the words of questions and of their faults, as laws over the definitions that the calls are proved to follow.

ghost use Rattle.std.specs.Prelude.{◌≡◌, ◌++◌, ℕ, List, Ok, false};
ghost use Rattle.std.specs.List.{list_any};
ghost use Rattle.hex.specs.Hex.{IsBytes};
ghost use Rattle.aa_set_commands.specs.Question.{Question, question_of};
ghost use Rattle.aatry_questions.specs.Faults.{Agree, question_fault};
ghost use Rattle.aatry_questions.specs.Meant.{meant_fault, question_meant};
ghost use Rattle.aatry_questions.specs.Names.{escaped, is_backslash, unescaped};

use aatry_words::{what_letters_mean, what_names_mean};

/// Something is found to be wrong with words exactly where they make no question, or mean none, and a command with them is refused by the fault:
/// with 65 where it is their kind or their number, and else with 67.
pub fn how_wrong_words_are_refused()
    ensures asked { (words : List (List ℕ)) → Agree (question_fault words) (question_of words) }
    ensures meant { (words : List (List ℕ)) → Agree (meant_fault words) (question_meant words) }
{}

/// Words that make a question after `ask` mean that very question: that words may be written like the kernel writes them takes no word's meaning
/// away.
pub fn what_words_mean()
    ensures { (words : List (List ℕ)) (question : Question) → question_of words ≡ Ok question → question_meant words ≡ Ok question }
{
    what_letters_mean();
    what_names_mean();
}

/// The bytes of a name read back from the text in which they are written, whatever follows them there; and a word without a backslash stands for
/// itself.
pub fn how_names_read_back()
    ensures escaped { (name rest : List ℕ) → IsBytes name → unescaped (escaped name ++ rest) ≡ name ++ unescaped rest }
    ensures plain { (word : List ℕ) → list_any is_backslash word ≡ false → unescaped word ≡ word }
{}
