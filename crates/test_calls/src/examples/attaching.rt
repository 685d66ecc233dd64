//! Which profile a program is attached to.

use aa_decide::{IndexedSlots, attach, entry_at};
use std::alloc::{AllocError, Global};

/// The name of the profile that a program of this path is attached to, if it is attached to one.
pub fn attached_name<'a>(
    alloc: Global,
    slots: &IndexedSlots<'a>,
    path: &[u8],
) -> Result<Option<&'a [u8]>, AllocError> {
    let Some(slot) = attach(alloc, slots, path)? else {
        return Ok(None);
    };
    match entry_at(slots.as_slice(), slot) {
        None => Ok(None),
        Some(entry) => Ok(Some(entry.profile().name.as_slice())),
    }
}
