//! What a session keeps of its changes.

ghost use Rattle.std.specs.Prelude.{◌≡◌, ◌<◌, ◌++◌, ◌∷◌, [], OnOk, length, take, vec_capacity};
ghost use Rattle.aatry_session.specs.Changes.{kept_with};

use crate::origins::Origins;
use aa_bytes::Sequence;
use aa_set_manager::Reply;
use std::alloc::{AllocError, Global};

/// What a session keeps of its changes: of the done ones, oldest first, and then of the undone ones, the next to redo first.
#[derive(Drop)]
pub struct Changes {
    /// The text of each.
    pub texts: Vec<Sequence<u8>>,
    /// Where the profiles were read that each loaded.
    pub origins: Vec<Origins>,
    /// How many of them, the first ones, the history leaves out, so that they can't be undone: those that loaded the files at the session's
    /// beginning.
    pub loaded: usize,
}

/// What is kept of no changes. It takes no memory.
pub fn no_changes(alloc: Global) -> Changes
    ensures texts { result.texts.items ≡ [] }
    ensures origins { result.origins.items ≡ [] }
    ensures loaded { result.loaded ≡ 0 }
{
    Changes {
        texts: Vec::new(alloc),
        origins: Vec::new(alloc),
        loaded: 0,
    }
}

/// Makes room for what is kept of one more change.
///
/// # Errors
///
/// Where memory runs out. What is kept is the same in any case.
pub fn make_room(changes: &mut Changes) -> Result<(), AllocError>
    ensures texts { changes.new.texts.items ≡ changes.old.texts.items }
    ensures origins { changes.new.origins.items ≡ changes.old.origins.items }
    ensures loaded { changes.new.loaded ≡ changes.old.loaded }
    ensures text_room { OnOk result (length changes.new.texts.items < vec_capacity changes.new.texts) }
    ensures origin_room { OnOk result (length changes.new.origins.items < vec_capacity changes.new.origins) }
{
    changes.texts.reserve(1)?;
    changes.origins.reserve(1)
}

/// Keeps the text of a change that was accepted, and where the profiles were read that it loaded, after those of the `done` changes before it, in
/// place of those that had been undone. Of a change that was refused nothing is kept. The caller has made room.
pub fn keep(changes: &mut Changes, done: usize, text: Sequence<u8>, origins: Origins, reply: &Reply)
    requires text_room { length changes.old.texts.items < vec_capacity changes.old.texts }
    requires origin_room { length changes.old.origins.items < vec_capacity changes.old.origins }
    ensures texts { changes.new.texts.items ≡ kept_with done text reply.now changes.old.texts.items }
    ensures origins { changes.new.origins.items ≡ kept_with done origins reply.now changes.old.origins.items }
    ensures loaded { changes.new.loaded ≡ changes.old.loaded }
{
    if matches!(reply, Reply::Done) {
        put(&mut changes.texts, done, text);
        put(&mut changes.origins, done, origins);
    }
}

// Puts an item after the first `done` ones, in place of those after them.
fn put<T: Drop>(items: &mut Vec<T>, done: usize, item: T)
    requires { length items.old.items < vec_capacity items.old }
    ensures { items.new.items ≡ take done items.old.items ++ item ∷ [] }
{
    items.truncate(done);
    match items.push(item) {
        Ok(()) => {}
        Err(_) => unreachable!(),
    }
}
