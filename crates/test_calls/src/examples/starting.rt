//! Under what a program runs that is started.

use aa_decide::{ExecTo, IndexedSlots, exec_by, find_loaded};
use std::alloc::{AllocError, Global};

/// Whether a program of another owner that the profile `web` starts runs unconfined, if the profile is loaded.
pub fn runs_unconfined(
    alloc: Global,
    slots: &IndexedSlots<'_>,
    path: &[u8],
) -> Result<Option<bool>, AllocError> {
    let Some(web) = find_loaded(slots, b"web") else {
        return Ok(None);
    };
    let found = exec_by(alloc, slots, Some(web), false, path)?;
    Ok(Some(found.to == ExecTo::Unconfined))
}
