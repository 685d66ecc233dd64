//! What holds of the values of a log and of its lines, as laws over the definitions that the calls are proved to follow.

ghost use Rattle.std.specs.Prelude.{◌≡◌, ℕ, false, true, List, [], ◌∷◌, None, Some, map};
ghost use Rattle.hex.specs.Hex.{IsBytes};
ghost use Rattle.aa_bytes.specs.Quoting.{written_text};
ghost use Rattle.aa_decide_rules.specs.LogLines.{exec_line, log_line};
ghost use Rattle.aa_decide_rules.specs.declared.verdict.Tag.{Tag};
ghost use Rattle.aa_decide_rules.specs.declared.verdict.Verdict.{Verdict};
ghost use Rattle.aa_profile_data.specs.Request.{Request};
ghost use Rattle.aa_set_commands.specs.Question.{OfExec, is_path};
ghost use Rattle.aa_set_commands.specs.Lines.{lines};
ghost use Rattle.aatry_log_lines.specs.Entries.{entry_by};
ghost use Rattle.aatry_log_lines.specs.Laws.{CanBeLogged, as_logged};
ghost use Rattle.aatry_log_lines.specs.Lines.{Asks, told_by};
ghost use Rattle.aatry_log_lines.specs.Selections.{Selection};
ghost use Rattle.aatry_log_lines.specs.Values.{text_of};

/// Text that is written as by the log lines of `aa_decide_rules`, in quotes or in hexadecimal, is read back as that text.
pub fn what_is_written_reads_back()
    ensures { (text : List ℕ) → IsBytes text → text_of (written_text text) ≡ Some text }
{}

/// A line that logs a request is read, among the lines of a log, as the question that was asked: of the same profile by its full name, for a file by
/// all letters that were needed, whichever of them are logged as denied or audited, and by its path, for a capability, or for a socket. A line has
/// no owner, so a file counts as another user's. The line that logs the start of a program is read as the question on that program. What isn't
/// logged, where rules allow it and none audits it, or where the task isn't confined, has no line.
pub fn what_is_logged_reads_back()
    ensures access { (asker : List ℕ) (request : Request) (verdict : Verdict) (tag : Tag)
        → verdict.tag ≡ Some tag
        → IsBytes asker
        → CanBeLogged request
        → map told_by (lines (log_line asker request verdict)) ≡ Asks (as_logged asker request) ∷ [] }
    ensures exec { (asker path : List ℕ) (verdict : Verdict) (tag : Tag)
        → verdict.tag ≡ Some tag
        → IsBytes asker
        → IsBytes path
        → is_path path ≡ true
        → map told_by (lines (exec_line asker path verdict)) ≡ Asks (OfExec asker false path) ∷ [] }
    ensures silent { (asker : List ℕ) (request : Request) (verdict : Verdict)
        → verdict.tag ≡ None
        → map told_by (lines (log_line asker request verdict)) ≡ [] }
{}

/// What a line of a log holds, whatever the selection, is what `told_by` returns.
pub fn what_entries_tell()
    ensures { (selection : Selection) (line : List ℕ) → (entry_by selection line).told ≡ told_by line }
{}
