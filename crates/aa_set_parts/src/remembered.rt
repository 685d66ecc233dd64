//! For whom runs are remembered, how many bytes that takes, and for which questions this is complete.

ghost use Rattle.std.specs.Prelude.{◌≡◌, ◌<◌, ◌≤◌, false, length, sum_by, vec_len, IfSome};
ghost use Rattle.aa_set_parts.specs.Remembered.{most_remembered};
ghost use Rattle.aa_set_parts.specs.code.Askers.{taken};

use aa_decide_ready::Entry;
use std::alloc::Global;
use std::mem;

// How many bytes are remembered at most, for all together.
const MOST_BYTES: usize = 50_331_648;

// How many fingerprints are kept, each in one of two entries.
const FINGERPRINTS: usize = 4096;

// How many bytes at a path's beginning, and at its end, go into its fingerprint.
const MOST_PRINTED: usize = 256;

/// A profile in a slot, or its child or hat at an index.
#[derive(Clone, Copy, PartialEq, Eq)]
pub(crate) struct Warm {
    pub slot: usize,
    pub child: Option<usize>,
}

/// One for whom runs are remembered.
#[derive(Clone, Copy)]
pub(crate) struct Asker {
    warm: Warm,
    // How many bytes that takes.
    bytes: usize,
    // When something was last remembered for it: the later, the greater.
    last: u64,
}

/// For whom runs are remembered, and fingerprints of the questions about paths for which this is complete.
#[derive(Drop)]
pub(crate) struct Remembered {
    alloc: Global,
    askers: Vec<Asker>,
    // How often something was remembered.
    times: u64,
    // Each fingerprint in one of the two entries of its remainder. Where a question has the fingerprint of another, no more is remembered for it; its
    // answer is the same.
    fingerprints: Vec<u32>,
}

/// A number by which a question is recognized: of the asker's name, of how long the path is, and of how it begins and ends, so that a long path
/// takes no longer than others. Where two questions share one, no more is remembered for the later one; no answer depends on it.
pub fn fingerprint(who: &[u8], path: &[u8]) -> u32 {
    let (beginning, rest) = path.split_at(path.len().min(MOST_PRINTED));
    let (_, end) = rest.split_at(rest.len().saturating_sub(MOST_PRINTED));
    let print = with_bytes(0x811c_9dc5, who);
    let print = with_number(print, (path.len() % 65_536) as u32);
    let print = with_bytes(print, beginning);
    with_bytes(print, end)
}

// A fingerprint continued with some bytes, four at a time.
fn with_bytes(print: u32, bytes: &[u8]) -> u32 {
    let mut print = print;
    let mut rest = bytes;
    while let [first, second, third, fourth, more @ ..] = rest {
        let word = u32::from_le_bytes([*first, *second, *third, *fourth]);
        print = with_number(print, word);
        rest = more;
    }
    for byte in rest {
        print = with_number(print, u32::from(*byte));
    }
    print
}

// A fingerprint continued with a number. The turn brings the upper half of the product, on which every bit of the number has an effect, to the bits
// that choose a place.
fn with_number(print: u32, number: u32) -> u32 {
    (print ^ number).wrapping_mul(0x9e37_79b1).rotate_left(15)
}

// The index of the first of the two entries in which a fingerprint may be.
fn place_of(fingerprint: u32) -> usize
    ensures { result < 4096 }
{
    fingerprint as usize % (FINGERPRINTS / 2) * 2
}

// The index of one among those for whom runs are remembered.
fn index_of(askers: &[Asker], warm: Warm) -> Option<usize>
    ensures { IfSome result (λ at. at < length askers.now) }
{
    for at in 0..askers.len() {
        if askers[at].warm == warm {
            return Some(at);
        }
    }
    None
}

// The index of the one for whom nothing was remembered for the longest time.
fn oldest(askers: &[Asker]) -> usize
    ensures { 0 < length askers.now → result < length askers.now }
{
    let mut oldest = 0;
    for at in 1..askers.len() {
        if askers[at].last < askers[oldest].last {
            oldest = at;
        }
    }
    oldest
}

// Whether some take more than so many bytes together.
fn take_more(askers: &[Asker], most: usize) -> bool
    ensures { result ≡ false → sum_by (λ asker. asker.bytes) askers.now ≤ most }
{
    let mut left = most;
    let mut rest = askers;
    while let [asker, behind @ ..] = rest {
        if asker.bytes > left {
            return true;
        }
        left -= asker.bytes;
        rest = behind;
    }
    false
}

// How many bytes are remembered for the profile in a slot, or for its child or hat at an index.
fn bytes_at(slots: &[Option<Entry>], warm: Warm) -> usize {
    match slots.get(warm.slot) {
        Some(Some(entry)) => entry.remembered_bytes(warm.child),
        _ => 0,
    }
}

impl Remembered {
    /// Nothing remembered. It takes no memory.
    pub fn new(alloc: Global) -> Remembered
        ensures { taken result ≤ most_remembered }
    {
        Remembered {
            alloc,
            askers: Vec::new(alloc),
            times: 0,
            fingerprints: Vec::new(alloc),
        }
    }

    /// Whether all is remembered for the path of a question with this fingerprint.
    pub fn has(&self, fingerprint: u32) -> bool {
        let place = place_of(fingerprint);
        self.fingerprints.get(place) == Some(&fingerprint)
            || self.fingerprints.get(place + 1) == Some(&fingerprint)
    }

    /// Notes that all is remembered for the path of a question with this fingerprint, where there is memory for that.
    pub fn note(&mut self, fingerprint: u32)
        ensures { taken self.new ≡ taken self.old }
    {
        if self.fingerprints.is_empty() {
            match vec![in self.alloc; 0; FINGERPRINTS] {
                Ok(none) => self.fingerprints = none,
                Err(_) => return,
            }
        }
        let place = place_of(fingerprint);
        if let Some(later) = self.fingerprints.get_mut(place) {
            let before = mem::replace(later, fingerprint);
            if let Some(earlier) = self.fingerprints.get_mut(place + 1) {
                *earlier = before;
            }
        }
    }

    /// Notes that something is to be remembered for an asker, the last one, and returns whether it could be noted.
    pub fn keep(&mut self, warm: Warm) -> bool {
        self.times = self.times.wrapping_add(1);
        let last = self.times;
        match index_of(&self.askers, warm) {
            Some(at) => {
                self.askers[at].last = last;
                true
            }
            None => self
                .askers
                .push(Asker {
                    warm,
                    bytes: 0,
                    last,
                })
                .is_ok(),
        }
    }

    // Notes how many bytes are remembered for an asker.
    fn measure(&mut self, slots: &[Option<Entry>], warm: Warm) {
        if let Some(at) = index_of(&self.askers, warm) {
            self.askers[at].bytes = bytes_at(slots, warm);
        }
    }

    // Forgets what is remembered for the one at an index.
    fn let_go(&mut self, slots: &mut Vec<Option<Entry>>, at: usize)
        requires { at < vec_len self.old.askers }
        ensures slots { slots.new.items ≡ slots.old.items }
        ensures fewer { vec_len self.new.askers < vec_len self.old.askers }
    {
        self.fingerprints.clear();
        let gone = self.askers.swap_remove(at);
        if gone.warm.slot < slots.len() {
            forget(&mut slots[gone.warm.slot], self.alloc, gone.warm.child);
        }
    }

    /// Notes how many bytes are remembered for an asker, and forgets what is remembered for others until all of it takes at most `MOST_BYTES`: first
    /// what is remembered for the one for whom nothing was added for the longest time.
    pub fn settle(&mut self, slots: &mut Vec<Option<Entry>>, warm: Warm)
        ensures slots { slots.new.items ≡ slots.old.items }
        ensures bound { taken self.new ≤ most_remembered }
    {
        self.measure(slots, warm);
        while !self.askers.is_empty() && take_more(&self.askers, MOST_BYTES) {
            let at = oldest(&self.askers);
            self.let_go(slots, at);
        }
    }

    /// Forgets everything, the last profile first.
    pub fn forget_all(&mut self, slots: &mut Vec<Option<Entry>>)
        ensures slots { slots.new.items ≡ slots.old.items }
        ensures bound { taken self.new ≤ most_remembered }
    {
        self.fingerprints.clear();
        while let Some(last) = self.askers.pop() {
            if last.warm.slot < slots.len() {
                forget(&mut slots[last.warm.slot], self.alloc, last.warm.child);
            }
        }
    }

    /// How many bytes are remembered, for all together.
    pub fn bytes(&self) -> usize
        requires { taken self.now ≤ most_remembered }
        ensures { result ≡ taken self.now }
    {
        let mut bytes = 0;
        let mut rest = self.askers.as_slice();
        while let [asker, behind @ ..] = rest {
            bytes += asker.bytes;
            rest = behind;
        }
        bytes
    }
}

// Forgets what is remembered for the profile in a slot, or for its child or hat at an index, if the slot is filled.
fn forget(slot: &mut Option<Entry>, alloc: Global, child: Option<usize>)
    ensures { slot.new ≡ slot.old }
{
    if let Some(entry) = slot {
        entry.forget(alloc, child);
    }
}
