//! What holds of a whole session, as a law over the definitions that it is proved to follow.

ghost use Rattle.aatry_session_run.specs.Undoing.{UndoesToTheLoaded};

use aa_start::FileSystem;
use aatry_folder::Folders;
use aatry_session::{how_far_sessions_go_back, the_history_is_in_step};

/// In a session over a folder of policy, whatever lines were answered so far, `reload` among them, but not `loading`: undoing as many changes as the
/// session lets undo leads to the very policy set as the folder was loaded, its profiles, their order, states, modes and rules.
pub fn what_undoing_leads_to<F: Folders, D: FileSystem>(folders: &F, disk: &D)
    ensures { UndoesToTheLoaded (F.told folders.now) (D.known disk.now) }
{
    the_history_is_in_step();
    how_far_sessions_go_back();
}
