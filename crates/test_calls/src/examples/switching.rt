//! A profile that is disabled, and comes into force again.

use aa_set::{Manager, Refusal};

/// What the profile `web` consists of while it is disabled, and what once that is undone.
pub fn shown(manager: &mut Manager) -> Result<(Vec<u8>, Vec<u8>), Refusal> {
    manager.disable(b"web")?;
    let disabled = manager.show(b"web")?;
    manager.undo(1)?;
    let in_force = manager.show(b"web")?;
    Ok((disabled, in_force))
}
