//! Lists of texts, written out: texts are begun, continued and finished, in the order of the list.

ghost use Rattle.std.specs.Prelude.{◌≡◌, ◌<◌, ◌≤◌, ◌+◌, ◌++◌, true, List, length, IfOk, MatchOption, OnOk};
ghost use Rattle.aa_text_expansion.specs.Joining.{cut_off, most_kept, texts_of};
ghost use Rattle.aa_text_expansion.specs.Lists.{list_at};
ghost use Rattle.aa_text_expansion.specs.code.Made.{AreRight, Listed, listed, listed_at, lists_of, with_ends};
ghost use Rattle.aa_text_expansion.specs.code.Written.{Adds, IsAllDone, IsBegunLast, IsStacked, IsStarted, IsStep, Waits, ends_at, ends_of, rest_at};
ghost use Rattle.aa_text_expansion.specs.code.Written.{rests, the_end};

use crate::joining::{MOST_KEPT, put_behind};
use crate::lists::{Made, Node, node_at};
use std::alloc::{AllocError, Global};

// What is to be appended to a text: the texts of a list, and then a rest.
#[derive(Clone, Copy)]
pub(crate) struct Cell {
    list: usize,
    rest: usize,
}

// A text that is begun. The texts of a list are to be appended to it, and then a rest: none for 0, else the cell at `rest - 1`.
#[derive(Drop)]
pub(crate) struct Begun {
    text: Vec<u8>,
    list: usize,
    rest: usize,
    // How many cells there were when it was begun. It needs no later ones.
    height: usize,
}

// Texts that are begun and texts that are finished.
#[derive(Drop)]
pub(crate) struct Writing {
    cells: Vec<Cell>,
    // Texts that are begun. The last one is continued first.
    waiting: Vec<Begun>,
    // Texts that are finished.
    done: Vec<Vec<u8>>,
}

impl Writing {
    // The empty text is begun, to which the texts of a list are to be appended.
    fn start(alloc: Global, list: usize) -> Result<Writing, AllocError>
        ensures { (lists : List Listed) → IfOk result (IsStarted lists list) }
    {
        let mut waiting = Vec::new(alloc);
        waiting.push(Begun {
            text: Vec::new(alloc),
            list,
            rest: 0,
            height: 0,
        })?;
        Ok(Writing {
            cells: Vec::new(alloc),
            waiting,
            done: Vec::new(alloc),
        })
    }

    // Removes the text that was begun last, if there is one, and the cells that neither it nor another text needs.
    fn next(&mut self) -> Option<Begun>
        requires { IsStacked self.old }
        ensures { (lists : List Listed)
            → MatchOption result (IsAllDone lists self.old self.new) (λ begun. IsBegunLast lists self.old begun self.new) }
    {
        let begun = self.waiting.pop()?;
        self.cells.truncate(begun.height);
        Some(begun)
    }

    // Adds a text that continues with the texts of a list and a rest.
    fn wait(&mut self, text: Vec<u8>, list: usize, rest: usize) -> Result<(), AllocError>
        requires stacked { IsStacked self.old }
        requires within { rest ≤ length self.old.cells.items }
        ensures { (lists : List Listed) → OnOk result (Waits lists self.old
            (ends_of text (ends_at lists self.old.cells.items list rest).texts)
            (ends_at lists self.old.cells.items list rest).steps
            self.new) }
    {
        let height = self.cells.len();
        self.waiting.push(Begun {
            text,
            list,
            rest,
            height,
        })?;
        Ok(())
    }

    // Finishes a text.
    fn finish(&mut self, text: Vec<u8>) -> Result<(), AllocError>
        requires { IsStacked self.old }
        ensures { (lists : List Listed) → OnOk result (Adds lists self.old (ends_of text the_end.texts) the_end.steps self.new) }
    {
        let mut text = text;
        text.truncate(MOST_KEPT);
        self.done.push(text)?;
        Ok(())
    }

    // Continues a text with a rest, or finishes it where there is none.
    fn go_on(&mut self, text: Vec<u8>, rest: usize) -> Result<(), AllocError>
        requires stacked { IsStacked self.old }
        requires within { rest ≤ length self.old.cells.items }
        ensures { (lists : List Listed) → OnOk result (Adds lists self.old
            (ends_of text (rest_at (rests lists self.old.cells.items) rest).texts)
            (rest_at (rests lists self.old.cells.items) rest).steps
            self.new) }
    {
        if rest == 0 {
            self.finish(text)?;
            return Ok(());
        }
        let cell = self.cells[rest - 1];
        self.wait(text, cell.list, cell.rest)?;
        Ok(())
    }

    // Continues a text with the texts of a list, each followed by those of another and a rest.
    fn go_on_with(
        &mut self,
        text: Vec<u8>,
        first: usize,
        second: usize,
        rest: usize,
    ) -> Result<(), AllocError>
        requires stacked { IsStacked self.old }
        requires within { rest ≤ length self.old.cells.items }
        ensures { (lists : List Listed) → OnOk result (Adds lists self.old
            (ends_of text (with_ends (listed_at lists first) (ends_at lists self.old.cells.items second rest)).texts)
            (with_ends (listed_at lists first) (ends_at lists self.old.cells.items second rest)).steps
            self.new) }
    {
        self.cells.push(Cell { list: second, rest })?;
        let last = self.cells.len();
        self.wait(text, first, last)?;
        Ok(())
    }

    // Continues a text with the texts of a list, and a copy of it with those of another, each with a rest.
    fn part(
        &mut self,
        alloc: Global,
        text: Vec<u8>,
        first: usize,
        second: usize,
        rest: usize,
    ) -> Result<(), AllocError>
        requires stacked { IsStacked self.old }
        requires within { rest ≤ length self.old.cells.items }
        ensures { (lists : List Listed) → OnOk result (Adds lists self.old
            (ends_of text (ends_at lists self.old.cells.items first rest).texts
            ++ ends_of text (ends_at lists self.old.cells.items second rest).texts)
            ((ends_at lists self.old.cells.items first rest).steps
            + (ends_at lists self.old.cells.items second rest).steps)
            self.new) }
    {
        let copy = Vec::from_slice(alloc, text.as_slice())?;
        self.wait(copy, second, rest)?;
        self.wait(text, first, rest)?;
        Ok(())
    }
}

// Whether nothing would be kept of the one text of a list after a text.
fn is_full(node: &Node, text: &[u8]) -> bool
    ensures { result ≡ true → (node.now.single ≡ true) × (most_kept ≤ length text.now) }
{
    node.single && text.len() >= MOST_KEPT
}

// Continues a text by one step.
fn step(
    alloc: Global,
    nodes: &[Node],
    writing: &mut Writing,
    begun: Begun,
) -> Result<(), AllocError>
    requires right { AreRight nodes.now }
    requires stacked { IsStacked writing.old }
    requires within { begun.rest ≤ length writing.old.cells.items }
    ensures { OnOk result (IsStep (listed nodes.now) writing.old begun writing.new) }
{
    let Some(node) = node_at(nodes, begun.list) else {
        return Ok(());
    };
    let Begun { mut text, rest, .. } = begun;
    if is_full(node, text.as_slice()) {
        writing.go_on(text, rest)?;
        return Ok(());
    }
    match &node.made {
        Made::Nothing => Ok(()),
        Made::Text(bytes) => {
            put_behind(&mut text, bytes.as_slice())?;
            writing.go_on(text, rest)?;
            Ok(())
        }
        Made::Joined(first, second) => {
            writing.go_on_with(text, *first, *second, rest)?;
            Ok(())
        }
        Made::Both(first, second) => {
            writing.part(alloc, text, *first, *second, rest)?;
            Ok(())
        }
    }
}

/// The texts of a list, each cut off after its first 4,097 bytes.
///
/// # Errors
///
/// Memory ran out.
pub(crate) fn write_out(
    alloc: Global,
    nodes: &[Node],
    number: usize,
) -> Result<Vec<Vec<u8>>, AllocError>
    requires { AreRight nodes.now }
    ensures { IfOk result (λ texts. texts_of texts ≡ cut_off (list_at (lists_of nodes.now) number)) }
{
    let mut writing = Writing::start(alloc, number)?;
    while let Some(begun) = writing.next() {
        step(alloc, nodes, &mut writing, begun)?;
    }
    Ok(writing.done)
}
