//! Names for places in a history.

ghost use Rattle.std.specs.Prelude.{◌≡◌, [], OnOk, OnErr, IfErr, None};
ghost use Rattle.std.specs.Map.{lookup};
ghost use Rattle.std.specs.Str.{bytes_eq};
ghost use Rattle.aa_history.specs.Machine.{up_to, with_number};
ghost use Rattle.aa_history.specs.SeenMarks.{seen_marks};

use std::alloc::{AllocError, Global};
use std::marker::Model;

/// A mark of a state. Contracts see lists of marks by `seen_marks`.
#[derive(Drop)]
pub struct Mark {
    /// The name that marks the state.
    pub name: Vec<u8>,
    /// How many states are earlier than the marked one.
    pub number: usize,
}

/// Names, each with a number: how many states are earlier than the one that it marks.
///
/// Contracts see the list of the names and their numbers.
#[derive(Drop)]
pub(crate) struct Marks {
    marks: Vec<Mark>,
    // No mark has a greater number, so that most changes needn't look at the marks.
    greatest: usize,
}

impl Model for Marks {
    ghost use Rattle.std.specs.Prelude.{ℕ, List};
    ghost use Rattle.aa_history.specs.Machine.{AreUpTo};
    ghost use Rattle.aa_history.specs.SeenMarks.{seen_marks};

    ghost Value = { List (List ℕ × ℕ) };

    ghost view = { λ m. seen_marks m.marks.items };

    ghost invariant = { λ m. AreUpTo m.greatest (seen_marks m.marks.items) };
}

impl Marks {
    /// No marks. It takes no memory; `alloc` is for the marks to come.
    pub(crate) fn new(alloc: Global) -> Marks
        ensures { result ≡ [] }
    {
        Marks {
            marks: Vec::new(alloc),
            greatest: 0,
        }
    }

    /// All marks, in the order in which their names were first given.
    pub(crate) fn as_slice(&self) -> &[Mark]
        ensures { seen_marks result.now ≡ self.now }
    {
        &self.marks
    }

    /// The number of a name. It takes no memory.
    pub(crate) fn number_of(&self, name: &[u8]) -> Option<usize>
        ensures { result ≡ lookup (λ other. bytes_eq other name.now) self.now }
    {
        number_among(&self.marks, name)
    }

    /// Gives a name a number, replacing the one that it has.
    ///
    /// # Errors
    ///
    /// `AllocError`, with the name, where memory runs out, which it may only where the name has no number yet. Nothing is changed then.
    pub(crate) fn set(&mut self, name: Vec<u8>, number: usize) -> Result<(), (Vec<u8>, AllocError)>
        ensures ok { OnOk result (self.new ≡ with_number name.items number self.old) }
        ensures handed_back { IfErr result (λ refused. refused.0 ≡ name) }
        ensures unchanged { OnErr result (self.new ≡ self.old) }
        ensures new_name { OnErr result (lookup (λ other. bytes_eq other name.items) self.old ≡ None) }
    {
        set_among(&mut self.marks, name, number)?;
        self.greatest = self.greatest.max(number);
        Ok(())
    }

    /// Drops the marks with a greater number than this one. It takes no memory, and goes over the marks only where one may have such a number.
    pub(crate) fn keep_up_to(&mut self, number: usize)
        ensures { self.new ≡ up_to number self.old }
    {
        if self.greatest > number {
            keep_among(&mut self.marks, number);
            self.greatest = number;
        }
    }
}

// The number of a name among marks.
fn number_among(marks: &[Mark], name: &[u8]) -> Option<usize>
    ensures { result ≡ lookup (λ other. bytes_eq other name.now) (seen_marks marks.now) }
{
    let mut rest = marks;
    while let [mark, behind @ ..] = rest {
        if mark.name.as_slice() == name {
            return Some(mark.number);
        }
        rest = behind;
    }
    None
}

// Gives a name a number among marks, replacing the one that it has; a new name comes after all others.
fn set_among(
    marks: &mut Vec<Mark>,
    name: Vec<u8>,
    number: usize,
) -> Result<(), (Vec<u8>, AllocError)>
    ensures ok { OnOk result (seen_marks marks.new.items ≡ with_number name.items number (seen_marks marks.old.items)) }
    ensures handed_back { IfErr result (λ refused. refused.0 ≡ name) }
    ensures unchanged { OnErr result (marks.new.items ≡ marks.old.items) }
    ensures new_name { OnErr result (lookup (λ other. bytes_eq other name.items) (seen_marks marks.old.items) ≡ None) }
{
    for place in 0..marks.len() {
        let mark = &mut marks[place];
        if mark.name.as_slice() == name.as_slice() {
            mark.number = number;
            return Ok(());
        }
    }
    match marks.push(Mark { name, number }) {
        Ok(()) => Ok(()),
        Err(refused) => Err((refused.value.name, AllocError)),
    }
}

// Drops the marks with a greater number than this one.
fn keep_among(marks: &mut Vec<Mark>, number: usize)
    ensures { seen_marks marks.new.items ≡ up_to number (seen_marks marks.old.items) }
{
    marks.retain(|mark| mark.number <= number);
}
