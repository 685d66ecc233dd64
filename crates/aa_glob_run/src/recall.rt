//! What follows at a place of a text, by what is remembered, and how it comes to be remembered.

ghost use Rattle.std.specs.Prelude.{◌≡◌, ◌≢◌, ◌<◌, ◌≤◌, ◌+◌, ℕ, length, slice_index_or, suc, true, IfOk, IfSome, OnOk};
ghost use Rattle.aa_glob_nfa.specs.Graphs.{Graph};
ghost use Rattle.aa_glob_nfa.specs.OfTables.{AreSound, AreSorted, graph_of};
ghost use Rattle.aa_glob_nfa.specs.Fronts.{IsLive};
ghost use Rattle.aa_glob_nfa.specs.Runs.{LeadsTo};
ghost use Rattle.aa_glob_run.specs.code.Memos.{HasRows, IsRecalling, Notes, Remembers, front_at, fronts_in, most_fronts, most_new};

use crate::memo::Memo;
use aa_glob_nfa::{Steps, Tables, first, follow};
use std::alloc::{AllocError, Global};

// How many states a remembered list has at most, so that all lists take no more than some 2 MB.
const LONGEST: usize = 64;

// A text of so many bytes is worth remembering the first time: what is found at one of its places comes again at others.
const LONG: usize = 1024;

impl Memo {
    // Adds the list of the states that are live before a text, if it isn't there. Its number is 0.
    pub fn begin(&mut self, alloc: Global, tables: &Tables) -> Result<(), AllocError>
        requires sound { AreSound tables.now }
        requires sorted { AreSorted tables.now }
        requires memo { Remembers (graph_of tables.now) (length tables.now.states) self.old }
        ensures memo { Remembers (graph_of tables.now) (length tables.now.states) self.new }
        ensures some { OnOk result (0 < length (fronts_in self.new)) }
    {
        if self.len() == 0 {
            let states = first(alloc, tables)?;
            self.add(alloc, &states)?;
        }
        Ok(())
    }

    // The number of a list, which is added where it isn't found. The numbers of other lists don't change.
    fn place(&mut self, alloc: Global, states: &[u32]) -> Result<usize, AllocError>
        requires rows { HasRows self.old }
        requires few { length (fronts_in self.old) < most_fronts }
        requires some { 0 < length (fronts_in self.old) }
        ensures rows { HasRows self.new }
        ensures memo { (g : Graph) (room : ℕ) → Remembers g room self.old → IsLive room states.now → Remembers g room self.new }
        ensures kept { (n : ℕ) → n < length (fronts_in self.old) → (n < length (fronts_in self.new)) × (front_at self.new n ≡ front_at self.old n) }
        ensures within { IfOk result (λ number. (number < length (fronts_in self.new)) × (number ≤ most_fronts)) }
        ensures same { IfOk result (λ number. front_at self.new number ≡ states.now) }
    {
        match self.find(states) {
            Some(number) => Ok(number),
            None => self.add(alloc, states),
        }
    }

    // Remembers that a list follows by a byte, and returns its number.
    fn remember(
        &mut self,
        alloc: Global,
        number: usize,
        byte: u8,
        states: &[u32],
    ) -> Result<usize, AllocError>
        requires rows { HasRows self.old }
        requires few { length (fronts_in self.old) < most_fronts }
        requires within { number < length (fronts_in self.old) }
        ensures memo { (g : Graph) (room : ℕ) → Remembers g room self.old → LeadsTo g (front_at self.old number) byte states.now
            → IsLive room states.now → Remembers g room self.new }
        ensures within { IfOk result (λ to. to < length (fronts_in self.new)) }
    {
        let to = self.place(alloc, states)?;
        self.note(number, byte, to);
        Ok(to)
    }

    // Finds the list that follows by a byte, remembers it, and returns its number. `None` where it is too long, or where there is no room for more.
    fn learn(
        &mut self,
        alloc: Global,
        tables: &Tables,
        number: usize,
        byte: u8,
    ) -> Result<Option<usize>, AllocError>
        requires sound { AreSound tables.now }
        requires sorted { AreSorted tables.now }
        requires memo { Remembers (graph_of tables.now) (length tables.now.states) self.old }
        requires within { number < length (fronts_in self.old) }
        ensures memo { Remembers (graph_of tables.now) (length tables.now.states) self.new }
        ensures within { IfOk result (λ found. IfSome found (λ to. to < length (fronts_in self.new))) }
    {
        if self.is_full() {
            self.turn_away();
            return Ok(None);
        }
        let states = follow(alloc, tables, self.front(number), byte)?;
        if states.len() > LONGEST {
            return Ok(None);
        }
        self.remember(alloc, number, byte, &states).map(Some)
    }

    // Whether a move of a text is to be found, after so many others of this text were. The first one is where it was missed before or the text is
    // long, so that a short text that is asked once adds nothing.
    fn is_worth_learning(&mut self, text: &[u8], new: usize, number: usize, byte: u8) -> bool
        ensures fronts { self.new.fronts ≡ self.old.fronts }
        ensures moves { self.new.moves ≡ self.old.moves }
        ensures few { result ≡ true → new < most_new text.now }
    {
        if new == 0 && text.len() < LONG {
            self.is_missed_again(number, byte)
        } else {
            new < most_new(text)
        }
    }
}

// How many moves of a text are found at most, each time it is remembered: 32, and more for a long one.
fn most_new(text: &[u8]) -> usize
    ensures { result ≡ most_new text.now }
{
    32 + text.len() / 128
}

// Remembers what follows at the places of a text, as far as it is known already and for some moves more. Returns whether all of it is known now.
pub fn recall(
    alloc: Global,
    tables: &Tables,
    text: &[u8],
    memo: &mut Memo,
) -> Result<bool, AllocError>
    requires sound { AreSound tables.now }
    requires sorted { AreSorted tables.now }
    requires memo { Remembers (graph_of tables.now) (length tables.now.states) memo.old }
    ensures memo { Remembers (graph_of tables.now) (length tables.now.states) memo.new }
{
    memo.begin(alloc, tables)?;
    let mut at = 0;
    let mut new = 0;
    for byte in text {
        if let Some(to) = memo.behind(at, *byte) {
            at = to;
            continue;
        }
        if memo.front(at).is_empty() {
            return Ok(true);
        }
        if !memo.is_worth_learning(text, new, at, *byte) {
            return Ok(false);
        }
        match memo.learn(alloc, tables, at, *byte)? {
            None => return Ok(false),
            Some(to) => at = to,
        }
        new += 1;
    }
    Ok(true)
}

// A place of a text to which a run has come, and the number of the list of the states that are live there.
#[derive(Clone, Copy)]
pub struct Far {
    pub place: usize,
    pub number: usize,
}

// So many places of a text are passed at once where a list goes on to another by a byte: one, and where the other is the list itself, one more for each
// byte after it that keeps the list.
fn places_passed(memo: &Memo, from: usize, to: usize, after: &[u8]) -> usize
    requires rows { HasRows memo.now }
    requires there { from < length (fronts_in memo.now) }
    ensures some { 0 < result }
    ensures within { result ≤ 1 + length after.now }
    ensures one { from ≢ to → result ≡ 1 }
    ensures kept { (i : ℕ) → suc i < result → Notes memo.now.moves.items to (slice_index_or after.now i 0) to }
{
    if from == to {
        1 + memo.kept_by(to, after)
    } else {
        1
    }
}

// Follows a text by what is remembered, as far as that goes. The visits at each place before the one where it stops are counted. `None` where
// nothing is remembered.
pub fn known_far(tables: &Tables, text: &[u8], memo: &Memo, steps: &mut Steps) -> Option<Far>
    requires memo { Remembers (graph_of tables.now) (length tables.now.states) memo.now }
    ensures { IfSome result (λ far. (far.place ≤ length text.now)
        × IsRecalling (graph_of tables.now) text.now far.place (length tables.now.states) memo.now far.number steps.old steps.new) }
{
    if memo.len() == 0 {
        return None;
    }
    let mut far = Far {
        place: 0,
        number: 0,
    };
    while far.place < text.len() {
        let live = memo.front(far.number).len();
        match memo.behind(far.number, text[far.place]) {
            Some(number) if live > 0 => {
                let places = places_passed(memo, far.number, number, &text[far.place + 1..]);
                steps.visited_at(live, places);
                far.place += places;
                far.number = number;
            }
            _ => return Some(far),
        }
    }
    Some(far)
}
