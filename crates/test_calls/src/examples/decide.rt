//! What a profile answers a request.

use aa_decide::{Answer, IndexedSlots, Mediation, Request, Steps, find_named};
use aa_profile::Perms;
use std::alloc::{AllocError, Global};

/// Whether the profile `web` lets a file of another owner be written, in enforce mode, if it is loaded.
pub fn lets_write(
    alloc: Global,
    slots: &IndexedSlots<'_>,
    path: &[u8],
) -> Result<Option<bool>, AllocError> {
    let Some((_, web)) = find_named(slots, b"web") else {
        return Ok(None);
    };
    let request = Request::File {
        needs: Perms::WRITE,
        owned: false,
        path,
    };
    let mut steps = Steps::new();
    let verdict = web
        .ready()
        .section(None)
        .decide(alloc, Mediation::Enforcing, &request, &mut steps)?;
    Ok(Some(verdict.answer == Answer::Allow))
}
