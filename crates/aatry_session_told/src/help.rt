//! The commands of a session, in words.

ghost use Rattle.std.specs.Prelude.{◌≡◌, ◌++◌, OnOk};
ghost use Rattle.aatry_session_told.specs.Help.{help_text};

use std::alloc::AllocError;

const HELP: &str = "\
add FILE, replace FILE, remove FILE: load the profiles of a file, or take them out
enforce NAME, complain NAME, disable NAME: set the mode of a profile
undo [N], redo [N]: go changes back or forward, back to the policy set as it was loaded
loading: from now on, have the changes of the loading in the history, too
mark NAME, back NAME: mark the policy set, and go to it
ask, why: file NAME ACCESS OWNED PATH, exec NAME OWNED PATH, cap NAME CAPABILITY, or net NAME DOMAIN TYPE
list, show NAME: tell what is loaded
status: tell what is loaded, and which files differ from those on disk
history: tell the changes, and the marks
reload: read the files anew
help, quit
";

/// Appends the commands of a session to a text.
///
/// # Errors
///
/// Where memory runs out.
pub fn push_help(out: &mut Vec<u8>) -> Result<(), AllocError>
    ensures { OnOk result (out.new.items ≡ out.old.items ++ help_text) }
{
    out.extend_from_slice(HELP.as_bytes())?;
    Ok(())
}
