//! A state with its history.

ghost use Rattle.std.specs.Prelude.{◌≡◌, ◌+◌, ◌<◌, ◌≤◌, [], ◌∷◌, ◌++◌, true, false, length, map, sum, take};
ghost use Rattle.std.specs.Prelude.{IfErr, OnOk, OnErr, None, vec_capacity};
ghost use Rattle.aa_history.specs.Machine.{all_sets, begun, can_go_back, can_go_on, committed, gone_back, gone_on};
ghost use Rattle.aa_history.specs.Machine.{gone_to_mark, gone_to_number, is_marked, marked, with_mark};
ghost use Rattle.aa_history.specs.SeenMarks.{seen_marks};

use crate::change::Change;
use crate::marks::{Mark, Marks};
use crate::tend::Tend;
use std::alloc::{AllocError, Global};
use std::marker::Model;
use thiserror::Error;

/// Fewer changes than were asked for can be undone or redone: `have`.
#[derive(Clone, Copy, Debug, PartialEq, Eq, Error)]
#[error("no more than {have} changes can be undone or redone")]
pub struct Short {
    /// How many changes can be undone, or redone.
    pub have: usize,
}

/// Nothing is marked by the name.
#[derive(Clone, Copy, Debug, PartialEq, Eq, Error)]
#[error("nothing is marked by the name")]
pub struct NoMark;

/// A state, with the changes that undo and redo lead through, and with names for some of its earlier and later states.
///
/// Contracts see the machine that keeps whole states (docs/guarantees.md): the state now, the earlier ones, oldest first, and the later ones,
/// nearest first, each by what it stands for (`Change::means`), and the marks, each a name and how many states are earlier than the one that it
/// marks. They also see how many parts each change has, in the same order: first those that can be undone, oldest first, and then those that can be
/// redone, nearest first.
#[derive(Drop)]
pub struct Journal<S: Drop, C: Change<S>> {
    state: S,
    // The changes that can be undone, oldest first, and then those that can be redone, nearest first.
    changes: Vec<C>,
    // How many of the changes can be undone.
    done: usize,
    marks: Marks,
}

impl<S: Drop, C: Change<S>> Model for Journal<S, C> {
    ghost use Rattle.std.specs.Prelude.{◌≤◌, length, map};
    ghost use Rattle.std.specs.List.{All};
    ghost use Rattle.aa_history.specs.Machine.{AreUpTo, Kept};
    ghost use Rattle.aa_history.specs.code.Timeline.{timeline};

    ghost Value = { Kept S };

    ghost view = { λ j. record {
      machine = timeline C.after j.changes.items j.done (C.means j.state) j.marks;
      sizes = map C.parts j.changes.items;
    } };

    ghost invariant = { λ j. (j.done ≤ length j.changes.items)
        × All (λ change. C.need change ≤ C.room j.state) j.changes.items
        × AreUpTo (length j.changes.items) j.marks };
}

impl<S: Drop, C: Change<S>> Journal<S, C> {
    /// A journal of a state to which no change was made yet. It takes no memory; `alloc` is for the changes to come.
    pub fn new(alloc: Global, state: S) -> Journal<S, C>
        ensures { result ≡ begun (C.means state) }
    {
        Journal {
            state,
            changes: Vec::new(alloc),
            done: 0,
            marks: Marks::new(alloc),
        }
    }

    /// The state now. It takes no memory; `O(1)`.
    pub fn state(&self) -> &S
        ensures { C.means result.now ≡ self.now.machine.now }
    {
        &self.state
    }

    /// Does something to the state that doesn't change what it stands for: no change is recorded, and contracts see nothing of it. It must leave
    /// `C::means` and `C::room` of the state as they were.
    pub fn tend<T: Tend<S>>(&mut self, tend: &T)
        requires kept { (state : S) → T.kept state ≡ C.means state }
        requires room { (state : S) → T.room state ≡ C.room state }
        ensures { self.new ≡ self.old }
    {
        tend.tend(&mut self.state);
    }

    /// How many changes can be undone. It takes no memory; `O(1)`.
    pub fn depth(&self) -> usize
        ensures { result ≡ length self.now.machine.earlier }
    {
        self.done
    }

    /// How many changes can be redone. It takes no memory; `O(1)`.
    pub fn ahead(&self) -> usize
        ensures { result ≡ length self.now.machine.later }
    {
        self.changes.len() - self.done
    }

    /// Makes a change to the state, and records how to undo it. Changes that could be redone are dropped, and so are the marks of the states to
    /// which they led.
    ///
    /// # Errors
    ///
    /// `AllocError`, with the change as it was, where memory runs out: to keep the change, or for the room that it needs. The journal is then
    /// unchanged: the state stands for what it stood for, the same changes can be undone and redone, and the same states are marked.
    pub fn commit(&mut self, change: C) -> Result<(), (C, AllocError)>
        ensures ok { OnOk result (self.new ≡ committed self.old (C.after self.old.machine.now change) (C.parts change)) }
        ensures handed_back { IfErr result (λ refused. refused.0 ≡ change) }
        ensures unchanged { OnErr result (self.new ≡ self.old) }
    {
        if let Err(error) = room_for_one(&mut self.changes, self.done) {
            return Err((change, error));
        }
        if let Err(error) = change.prepare(&mut self.state) {
            return Err((change, error));
        }
        put(&mut self.changes, self.done, change);
        self.marks.keep_up_to(self.done);
        self.step_on();
        Ok(())
    }

    /// How many parts all changes have together (`Change::size`), those that can be undone and those that can be redone: a measure of the memory of
    /// the history. It takes no memory; `O(n)` calls of `Change::size` for n changes.
    pub fn kept(&self) -> u128
        ensures { result ≡ sum self.now.sizes }
    {
        kept_by::<S, C>(&self.changes)
    }

    // Undoes one change.
    fn step_back(&mut self)
        requires { 0 < length self.old.machine.earlier }
        ensures { self.new ≡ record self.old { machine = gone_back 1 self.old.machine } }
    {
        self.done -= 1;
        let last = &mut self.changes[self.done];
        last.turn(&mut self.state);
    }

    // Redoes one change.
    fn step_on(&mut self)
        requires { 0 < length self.old.machine.later }
        ensures { self.new ≡ record self.old { machine = gone_on 1 self.old.machine } }
    {
        let next = &mut self.changes[self.done];
        next.turn(&mut self.state);
        self.done += 1;
    }

    // Undoes `n` changes.
    fn steps_back(&mut self, n: usize)
        requires { n ≤ length self.old.machine.earlier }
        ensures { self.new ≡ record self.old { machine = gone_back n self.old.machine } }
    {
        for _step in 0..n {
            self.step_back();
        }
    }

    // Redoes `n` changes.
    fn steps_on(&mut self, n: usize)
        requires { n ≤ length self.old.machine.later }
        ensures { self.new ≡ record self.old { machine = gone_on n self.old.machine } }
    {
        for _step in 0..n {
            self.step_on();
        }
    }

    /// Undoes the last `n` changes. It takes no memory; it turns n changes.
    ///
    /// # Errors
    ///
    /// `Short`, with the number of changes that can be undone, where fewer than `n` can. Nothing is undone then.
    pub fn undo(&mut self, n: usize) -> Result<(), Short>
        ensures can { OnOk result (can_go_back n self.old.machine ≡ true) }
        ensures ok { OnOk result (self.new ≡ record self.old { machine = gone_back n self.old.machine }) }
        ensures short { IfErr result (λ short. can_go_back n self.old.machine ≡ false × short.have ≡ length self.old.machine.earlier) }
        ensures unchanged { OnErr result (self.new ≡ self.old) }
    {
        let have = self.depth();
        if n > have {
            return Err(Short { have });
        }
        self.steps_back(n);
        Ok(())
    }

    /// Redoes the last `n` changes that were undone. It takes no memory; it turns n changes.
    ///
    /// # Errors
    ///
    /// `Short`, with the number of changes that can be redone, where fewer than `n` can. Nothing is redone then.
    pub fn redo(&mut self, n: usize) -> Result<(), Short>
        ensures can { OnOk result (can_go_on n self.old.machine ≡ true) }
        ensures ok { OnOk result (self.new ≡ record self.old { machine = gone_on n self.old.machine }) }
        ensures short { IfErr result (λ short. can_go_on n self.old.machine ≡ false × short.have ≡ length self.old.machine.later) }
        ensures unchanged { OnErr result (self.new ≡ self.old) }
    {
        let have = self.ahead();
        if n > have {
            return Err(Short { have });
        }
        self.steps_on(n);
        Ok(())
    }

    /// Marks the state now by a name; the name then no longer marks another state. A name that is in use takes no memory. `O(m)` comparisons of
    /// names for m marks.
    ///
    /// # Errors
    ///
    /// `AllocError`, with the name, where memory runs out, which it may only where nothing was marked by the name. The journal is then unchanged.
    pub fn mark(&mut self, name: Vec<u8>) -> Result<(), (Vec<u8>, AllocError)>
        ensures ok { OnOk result (self.new ≡ record self.old { machine = with_mark name.items self.old.machine }) }
        ensures handed_back { IfErr result (λ refused. refused.0 ≡ name) }
        ensures unchanged { OnErr result (self.new ≡ self.old) }
        ensures new_name { OnErr result (marked name.items self.old.machine ≡ None) }
    {
        self.marks.set(name, self.done)
    }

    /// The marks, in the order in which their names were first given. It takes no memory; `O(1)`.
    pub fn marks(&self) -> &[Mark]
        ensures { seen_marks result.now ≡ self.now.machine.marks }
    {
        self.marks.as_slice()
    }

    /// How many changes had been made to the state that is marked by a name; `None` where none is. It takes no memory; `O(m)` comparisons of names
    /// for m marks.
    pub fn marked(&self, name: &[u8]) -> Option<usize>
        ensures { result ≡ marked name.now self.now.machine }
    {
        self.marks.number_of(name)
    }

    /// Goes to the state that is marked by a name, by undoing or redoing the changes between. It takes no memory, and all that could be undone or
    /// redone still can be.
    ///
    /// # Errors
    ///
    /// `NoMark` where nothing is marked by the name. The journal is then unchanged.
    pub fn back(&mut self, name: &[u8]) -> Result<(), NoMark>
        ensures can { OnOk result (is_marked name.now self.old.machine ≡ true) }
        ensures ok { OnOk result (self.new ≡ record self.old { machine = gone_to_mark name.now self.old.machine }) }
        ensures keeps { all_sets self.new.machine ≡ all_sets self.old.machine }
        ensures no_mark { OnErr result (is_marked name.now self.old.machine ≡ false) }
        ensures unchanged { OnErr result (self.new ≡ self.old) }
    {
        match self.marks.number_of(name) {
            Some(number) => {
                self.go_to(number);
                Ok(())
            }
            None => Err(NoMark),
        }
    }

    // Undoes or redoes changes until `number` can be undone.
    fn go_to(&mut self, number: usize)
        requires { number ≤ length self.old.machine.earlier + length self.old.machine.later }
        ensures { self.new ≡ record self.old { machine = gone_to_number number self.old.machine } }
    {
        let depth = self.depth();
        if number < depth {
            self.steps_back(depth - number);
        } else if depth < number {
            self.steps_on(number - depth);
        }
    }
}

// How many parts changes have together.
fn kept_by<S, C: Change<S>>(changes: &[C]) -> u128
    ensures { result ≡ sum (map C.parts changes.now) }
{
    let mut kept = 0;
    let mut rest = changes;
    while let [change, behind @ ..] = rest {
        kept += change.size() as u128;
        rest = behind;
    }
    kept
}

// Makes room for a change after those that can be undone, of which there are `done`.
fn room_for_one<C>(changes: &mut Vec<C>, done: usize) -> Result<(), AllocError>
    requires { done ≤ length changes.old.items }
    ensures same { changes.new.items ≡ changes.old.items }
    ensures ok { OnOk result (done < vec_capacity changes.new) }
{
    if done == changes.len() {
        changes.reserve(1)?;
    }
    Ok(())
}

// Puts a change after those that can be undone, of which there are `done`, and drops those that could be redone.
fn put<C: Drop>(changes: &mut Vec<C>, done: usize, change: C)
    requires within { done ≤ length changes.old.items }
    requires room { done < vec_capacity changes.old }
    ensures { changes.new.items ≡ take done changes.old.items ++ change ∷ [] }
{
    changes.truncate(done);
    match changes.push(change) {
        Ok(()) => {}
        Err(_) => unreachable!(),
    }
}
