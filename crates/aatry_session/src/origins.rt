//! Where the profiles of a session's changes were read.

ghost use Rattle.std.specs.Prelude.{◌≡◌, map, option_map, take};
ghost use Rattle.aatry_session.specs.Origins.{newer_origin, origin_among, unplaced_origin};

use aatry_policy::{Origin, origin_in};
use std::marker::Model;

/// Where the profiles were read that a change loaded. Contracts see it as a list.
#[derive(Drop)]
pub struct Origins {
    items: Vec<Origin>,
}

impl Model for Origins {
    ghost use Rattle.std.specs.Prelude.{List};
    ghost use Rattle.aatry_policy.specs.declared.origins.Origin.{Origin};

    ghost Value = { List Origin };

    ghost view = { λ o. o.items.items };
}

impl Origins {
    /// The origins of some profiles. It takes no memory.
    pub fn of(items: Vec<Origin>) -> Origins
        ensures { result ≡ items.items }
    {
        Origins { items }
    }

    // The origins, in order.
    fn as_slice(&self) -> &[Origin]
        ensures { result.now ≡ self.now }
    {
        self.items.as_slice()
    }

    // Forgets the places in the files, and leaves the files' names.
    fn forget(&mut self)
        ensures { self.new ≡ map unplaced_origin self.old }
    {
        forget_each(&mut self.items);
    }
}

// Forgets the places of each of some origins.
fn forget_each(origins: &mut [Origin])
    ensures { origins.new ≡ map unplaced_origin origins.old }
{
    for origin in origins.iter_mut() {
        origin.places = None;
    }
}

/// Forgets the places in the files of where the profiles of changes were read, and leaves the files' names. It takes no memory.
pub fn forget_all(origins: &mut [Origins])
    ensures { origins.new ≡ map (map unplaced_origin) origins.old }
{
    for own in origins.iter_mut() {
        own.forget();
    }
}

// The first `count` of these; all where there are fewer.
fn first_of(origins: &[Origins], count: usize) -> &[Origins]
    ensures { result.now ≡ take count origins.now }
{
    if count < origins.len() {
        &origins[..count]
    } else {
        origins
    }
}

// Where the profile of a name was read: by a change that loaded one of the name, or else what was known before it.
fn newer_origin<'a>(before: Option<&'a Origin>, own: &'a Origins, name: &[u8]) -> Option<&'a Origin>
    ensures { option_map (λ origin. origin.now) result ≡ newer_origin name.now (option_map (λ origin. origin.now) before.entry) own.now }
{
    match origin_in(own.as_slice(), name) {
        None => before,
        Some(origin) => Some(origin),
    }
}

/// Where the profile of a name was read, by the last of the first `done` changes that loaded one of the name.
pub fn origin_among<'a>(origins: &'a [Origins], done: usize, name: &[u8]) -> Option<&'a Origin>
    ensures { option_map (λ origin. origin.now) result ≡ origin_among name.now done origins.now }
{
    let mut newest = None;
    let mut rest = first_of(origins, done);
    while let [own, behind @ ..] = rest {
        newest = newer_origin(newest, own, name);
        rest = behind;
    }
    newest
}
