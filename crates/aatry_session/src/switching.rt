//! The change of a profile that was added, by how its file is loaded.

ghost use Rattle.std.specs.Prelude.{◌≡◌, IfOk, OnErr, OnOk, option_map};
ghost use Rattle.aa_set_commands.specs.Command.{seen_change};
ghost use Rattle.aatry_session.specs.SeenSessions.{seen_session};
ghost use Rattle.aatry_session.specs.Switching.{change_of, kept_switched, switch_obeyed};

use crate::changes::{Changes, keep, make_room};
use crate::origins::Origins;
use aa_set_commands::{PolicyChange, RefusalKind};
use aa_set_manager::{Manager, Reply};
use aatry_folder::Loading;
use aatry_session_told::text_of;
use std::alloc::{AllocError, Global};

// Puts the profile of a name into complain mode or disables it, and returns the machine's reply.
fn make(manager: &mut Manager, loading: Loading, name: &[u8]) -> Result<Reply, AllocError>
    ensures obeyed { IfOk result (λ reply. record { reply = reply; managed = manager.new } ≡ switch_obeyed loading manager.old name.now) }
    ensures unchanged { OnErr result (manager.new ≡ manager.old) }
{
    let made = match loading {
        Loading::ByFlags => Ok(()),
        Loading::ForceComplain => manager.complain(name),
        Loading::Disable => manager.disable(name),
    };
    match made {
        Ok(()) => Ok(Reply::Done),
        Err(refusal) if refusal.refusal == RefusalKind::Memory => Err(AllocError),
        Err(refusal) => Ok(Reply::Refused(refusal)),
    }
}

// The change of a profile, by how its file is loaded; `None` where it is loaded by its flags.
fn change_of(loading: Loading, name: &[u8]) -> Option<PolicyChange<'_>>
    ensures { option_map seen_change result ≡ change_of loading name.now }
{
    match loading {
        Loading::ByFlags => None,
        Loading::ForceComplain => Some(PolicyChange::Complain(name)),
        Loading::Disable => Some(PolicyChange::Disable(name)),
    }
}

/// Puts the profile of a name, which is in force, into complain mode or disables it, as its file is loaded, and keeps that change.
///
/// # Errors
///
/// Where memory runs out. The change isn't made then.
pub fn switch(
    alloc: Global,
    manager: &mut Manager,
    changes: &mut Changes,
    loading: Loading,
    name: &[u8],
) -> Result<(), AllocError>
    ensures ok { OnOk result (seen_session manager.new changes.new ≡ kept_switched loading (seen_session manager.old changes.old) name.now) }
    ensures left { OnErr result (seen_session manager.new changes.new ≡ seen_session manager.old changes.old) }
{
    let Some(change) = change_of(loading, name) else {
        return Ok(());
    };
    let text = text_of(alloc, change)?;
    make_room(changes)?;
    let done = manager.depth();
    let reply = make(manager, loading, name)?;
    keep(changes, done, text, Origins::of(Vec::new(alloc)), &reply);
    Ok(())
}
