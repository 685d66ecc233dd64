//! What is remembered of runs: the states that are live together at a place, and which are live after a byte.

ghost use Rattle.std.specs.Prelude.{◌≡◌, ◌<◌, ◌≤◌, ◌++◌, ◌∷◌, [], ℕ, false, length, slice_index_or, true, IfSome, OnOk, OnErr, IfOk};
ghost use Rattle.aa_glob_nfa.specs.Graphs.{Graph};
ghost use Rattle.aa_glob_run.specs.code.Memos.{HasRows, IsEmpty, Notes, Remembers, front_at, fronts_in, most_fronts, unknown_row, with_move};

use std::alloc::{AllocError, Global};

// How many lists are remembered at most.
const MOST_FRONTS: usize = 8192;

// So many lists are turned away for lack of room before all are forgotten to make room.
const PATIENCE: usize = 16384;

// How many buckets lists are found by.
const BUCKETS: usize = 16384;

// How many of the moves that were looked for in vain are kept at once.
const MOST_MISSED: usize = 4096;

// How many bytes a list takes beside its states and its row.
const LIST_BYTES: usize = 24;

// How many bytes a state in a list takes.
const STATE_BYTES: usize = 4;

// How many bytes a move in a row takes.
const MOVE_BYTES: usize = 2;

// How many bytes are taken by the buckets and the entries for missed moves.
const FINDING_BYTES: usize = 49_152;

// The row of a list of which no move is known yet.
const UNKNOWN_ROW: [u16; 256] = [0; 256];

// Lists of live states, and the moves between them that are known. A list that is found by its bucket is compared.
#[derive(Drop)]
pub struct Memo {
    fronts: Vec<Vec<u32>>,
    // A row for each list, with an entry for each byte: one more than the number of the list after it; 0 where it isn't known.
    moves: Vec<u16>,
    // For each bucket the number of the last list that was added to it.
    buckets: Vec<u16>,
    // Moves that were looked for in vain, each by its key, in the bucket of that key.
    missed: Vec<u32>,
    // How many lists weren't remembered.
    turned_away: usize,
    // How many states the lists have together.
    states: usize,
}

// The bucket of a list.
fn bucket_of(states: &[u32]) -> usize {
    let mut sum: u32 = 0;
    for state in states {
        sum = sum.wrapping_add(state.wrapping_mul(2_654_435_761));
    }
    (sum >> 18) as usize
}

// A list's number and a byte as one key, which is never 0.
fn key_of(number: usize, byte: u8) -> u32 {
    (number % 65_536) as u32 * 256 + u32::from(byte) + 1
}

// The bucket in which a missed move is kept.
fn remainder_of(key: u32) -> usize {
    (key.wrapping_mul(2_654_435_761) >> 20) as usize
}

impl Memo {
    // The memory of no run. It takes no memory.
    pub fn new(alloc: Global) -> Memo
        ensures { IsEmpty result }
    {
        Memo {
            fronts: Vec::new(alloc),
            moves: Vec::new(alloc),
            buckets: Vec::new(alloc),
            missed: Vec::new(alloc),
            turned_away: 0,
            states: 0,
        }
    }

    // How many lists there are.
    pub fn len(&self) -> usize
        ensures { result ≡ length (fronts_in self.now) }
    {
        self.fronts.len()
    }

    // Whether there is no room for another list.
    pub fn is_full(&self) -> bool
        ensures { result ≡ false → length (fronts_in self.now) < most_fronts }
    {
        self.fronts.len() >= MOST_FRONTS
    }

    // How many bytes are taken by lists, their rows, and what finds them, with capacity that isn't used.
    pub fn bytes(&self) -> usize {
        let lists = self.fronts.capacity().saturating_mul(LIST_BYTES);
        let states = self.states.saturating_mul(STATE_BYTES);
        let rows = self.moves.capacity().saturating_mul(MOVE_BYTES);
        lists
            .saturating_add(states)
            .saturating_add(rows)
            .saturating_add(FINDING_BYTES)
    }

    // The list of a number.
    pub fn front(&self, number: usize) -> &[u32]
        requires { number < length (fronts_in self.now) }
        ensures { result.now ≡ front_at self.now number }
    {
        &self.fronts[number]
    }

    // The number of the list that is known to follow by a byte, if one is.
    pub fn behind(&self, number: usize, byte: u8) -> Option<usize>
        requires rows { HasRows self.now }
        requires within { number < length (fronts_in self.now) }
        ensures { IfSome result (λ to. Notes self.now.moves.items number byte to) }
    {
        usize::from(self.moves[number * 256 + usize::from(byte)]).checked_sub(1)
    }

    // Whether a list is known to follow itself by a byte.
    fn is_kept(&self, number: usize, byte: u8) -> bool
        requires rows { HasRows self.now }
        requires within { number < length (fronts_in self.now) }
        ensures { result ≡ true → Notes self.now.moves.items number byte number }
    {
        match self.behind(number, byte) {
            None => false,
            Some(to) => to == number,
        }
    }

    // How many bytes a text begins with by each of which a list is known to follow itself. No byte waits for the one before it, so that is quicker
    // than to go on from list to list.
    pub fn kept_by(&self, number: usize, text: &[u8]) -> usize
        requires rows { HasRows self.now }
        requires within { number < length (fronts_in self.now) }
        ensures within { result ≤ length text.now }
        ensures each { (i : ℕ) → i < result → Notes self.now.moves.items number (slice_index_or text.now i 0) number }
    {
        for (at, byte) in text.iter().enumerate() {
            if !self.is_kept(number, *byte) {
                return at;
            }
        }
        text.len()
    }

    // The number of an equal list, if one is found.
    pub fn find(&self, states: &[u32]) -> Option<usize>
        ensures within { IfSome result (λ number. number < length (fronts_in self.now)) }
        ensures same { IfSome result (λ number. front_at self.now number ≡ states.now) }
    {
        let number = *self.buckets.get(bucket_of(states))? as usize;
        let front = self.fronts.get(number)?;
        if front.as_slice() == states {
            Some(number)
        } else {
            None
        }
    }

    // Notes which list follows by a byte.
    pub fn note(&mut self, number: usize, byte: u8, behind: usize)
        requires rows { HasRows self.old }
        requires from { number < length (fronts_in self.old) }
        requires to { behind < 65535 }
        ensures fronts { self.new.fronts ≡ self.old.fronts }
        ensures moves { self.new.moves.items ≡ with_move self.old.moves.items number byte behind }
    {
        self.moves[number * 256 + usize::from(byte)] = behind as u16 + 1;
    }

    // Whether a move was looked for in vain before, as far as that was kept; it is kept now.
    pub fn is_missed_again(&mut self, number: usize, byte: u8) -> bool
        ensures fronts { self.new.fronts ≡ self.old.fronts }
        ensures moves { self.new.moves ≡ self.old.moves }
    {
        let key = key_of(number, byte);
        match self.missed.get_mut(remainder_of(key)) {
            None => true,
            Some(missed) => {
                let is_again = *missed == key;
                *missed = key;
                is_again
            }
        }
    }

    // Appends a list, and an empty row for it.
    fn push(&mut self, list: Vec<u32>) -> Result<(), AllocError>
        requires rows { HasRows self.old }
        ensures fronts { OnOk result (fronts_in self.new ≡ fronts_in self.old ++ list.items ∷ []) }
        ensures moves { OnOk result (self.new.moves.items ≡ self.old.moves.items ++ unknown_row) }
        ensures same { OnErr result (fronts_in self.new ≡ fronts_in self.old) }
        ensures still { OnErr result (self.new.moves.items ≡ self.old.moves.items) }
    {
        self.moves.extend_from_slice(&UNKNOWN_ROW)?;
        let states = list.len();
        match self.fronts.push(list) {
            Ok(()) => {
                self.states = self.states.saturating_add(states);
                Ok(())
            }
            Err(_) => {
                self.moves.truncate(self.fronts.len() * 256);
                Err(AllocError)
            }
        }
    }

    // Adds a copy of a list, without unused capacity, and returns its number.
    pub fn add(&mut self, alloc: Global, states: &[u32]) -> Result<usize, AllocError>
        requires rows { HasRows self.old }
        requires few { length (fronts_in self.old) < most_fronts }
        ensures number { IfOk result (λ number. number ≡ length (fronts_in self.old)) }
        ensures fronts { OnOk result (fronts_in self.new ≡ fronts_in self.old ++ states.now ∷ []) }
        ensures moves { OnOk result (self.new.moves.items ≡ self.old.moves.items ++ unknown_row) }
        ensures same { OnErr result (fronts_in self.new ≡ fronts_in self.old) }
        ensures still { OnErr result (self.new.moves.items ≡ self.old.moves.items) }
    {
        let list = Vec::from_slice(alloc, states)?;
        let number = self.fronts.len();
        self.make_room(alloc)?;
        self.set_bucket(bucket_of(states), number);
        self.push(list)?;
        Ok(number)
    }

    // Allocates the buckets and the entries for missed moves, if they aren't allocated yet.
    fn make_room(&mut self, alloc: Global) -> Result<(), AllocError>
        ensures fronts { self.new.fronts ≡ self.old.fronts }
        ensures moves { self.new.moves ≡ self.old.moves }
    {
        if self.missed.is_empty() {
            self.buckets = vec![in alloc; 0u16; BUCKETS]?;
            self.missed = vec![in alloc; 0u32; MOST_MISSED]?;
        }
        Ok(())
    }

    // Makes a bucket point to the list of this number.
    fn set_bucket(&mut self, bucket: usize, number: usize)
        requires { number < 65536 }
        ensures fronts { self.new.fronts ≡ self.old.fronts }
        ensures moves { self.new.moves ≡ self.old.moves }
    {
        if let Some(found) = self.buckets.get_mut(bucket) {
            *found = number as u16;
        }
    }

    // Notes that a list wasn't remembered, for lack of room. After many of these, all lists are forgotten.
    pub fn turn_away(&mut self)
        ensures { (g : Graph) (room : ℕ) → Remembers g room self.old → Remembers g room self.new }
    {
        if self.turned_away < PATIENCE {
            self.turned_away += 1;
        } else {
            self.turned_away = 0;
            self.states = 0;
            self.fronts.clear();
            self.moves.clear();
        }
    }
}
