//! How an answer is logged.

use aa_decide::{IndexedSlots, Mediation, Request, find_named, log_line};
use aa_profile::Perms;
use std::alloc::{AllocError, Global};

/// The audit line where a task of the profile `web` writes a file of another owner, in enforce mode. It is empty
/// where nothing is logged.
pub fn written_line(
    alloc: Global,
    slots: &IndexedSlots<'_>,
    path: &[u8],
) -> Result<Vec<u8>, AllocError> {
    let Some((_, web)) = find_named(slots, b"web") else {
        return Ok(Vec::new(alloc));
    };
    let request = Request::File {
        needs: Perms::WRITE,
        owned: false,
        path,
    };
    let section = web.ready().section(None);
    let verdict = section.decide_once(alloc, Mediation::Enforcing, &request)?;
    log_line(alloc, b"web", &request, &verdict)
}
