//! What holds of the names that `who` prints, as a law over the definitions that the calls are proved to follow.

ghost use Rattle.aa_decide.specs.Exec.{Asker};
ghost use Rattle.aa_set_answers.specs.Laws.{IsListed};
ghost use Rattle.aa_set_commands.specs.Question.{Question};
ghost use Rattle.aatry_policy.specs.Folders.{Folder, policy_in};
ghost use Rattle.aatry_report.specs.declared.form.Form.{Form};
ghost use Rattle.aatry_who.specs.Laws.{IsToldByAnswer};

use aatry_policy::which_rules_parts_have;

/// `who` prints a profile, child or hat exactly where `ask` of its full name is answered so that the request is let through, and with that answer: a
/// question for a file, a capability or sockets is allowed, or let through by its mode, or nothing confines the asker; and a program that it starts
/// runs. The words of `who` with the name put in are those of this question (`aatry_requests::what_words_ask_without_who_asks`).
pub fn whom_who_tells()
    ensures { (form : Form) (folder : Folder) (question : Question) (who : Asker)
        → IsListed (policy_in folder) who
        → IsToldByAnswer form folder question who }
{
    which_rules_parts_have();
}
