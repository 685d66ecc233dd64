//! What follows where no start is told, as a law over the definitions that the calls are proved to follow.

ghost use Rattle.aa_explain_start_changes.specs.Laws.{NoStartChangeIsHidden};

/// Where no start is told, each program of an absolute path that the kernel may ask about is started to a place of the
/// same name, alike scrubbed, before and behind a change of policy, or by neither, whoever owns its file.
pub fn no_start_change_is_hidden()
    ensures { NoStartChangeIsHidden }
{}
