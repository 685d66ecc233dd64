//! The states of an automaton while it grows, element by element.

ghost use Rattle.std.specs.Prelude.{◌≡◌, ◌<◌, length, None, Some, IfOk, OnOk};
ghost use Rattle.std.specs.List.{All};
ghost use Rattle.aa_glob.specs.Grown.{IsThere};
ghost use Rattle.aa_glob.specs.Numbers.{most_number, number_of};
ghost use Rattle.aa_glob.specs.code.Growths.{GoesOver, GrowsBy, IsWalked, LeadsTo};
ghost use Rattle.aa_glob_syntax.specs.Cursor.{meaning};
ghost use Rattle.aa_glob.specs.Tree.{next, places};

use crate::element::{add_state, number_of};
use crate::graph_laws::how_graphs_are_drawn;
use crate::numbers::Numbers;
use crate::tree::Tree;
use crate::walk::Walk;
use aa_glob_pattern::how_beginnings_are_gathered;
use aa_glob_run::Drawing;
use aa_glob_syntax::Element;
use std::alloc::{AllocError, Global};

/// An automaton while it grows: its states with their ways, the tree in which they are found, and the numbers of elements by which they are found
/// there.
#[derive(Drop)]
pub struct Growing {
    pub drawing: Drawing,
    pub tree: Tree,
    pub numbers: Numbers,
}

impl Growing {
    /// Follows an element to the state that it leads to, which is added if it isn't there yet.
    ///
    /// # Errors
    ///
    /// Where memory runs out, and where there are too many states to be numbered.
    pub fn go_on(
        &mut self,
        alloc: Global,
        walk: &mut Walk,
        element: Element<'_>,
    ) -> Result<(), AllocError>
        requires { IsWalked self.old walk.old }
        ensures { OnOk result (GoesOver self.old walk.old (meaning element.entry) self.new walk.new) }
    {
        let state = self.state_behind(alloc, walk, element)?;
        walk.enter(alloc, element, state)
    }

    // The state to which an element leads.
    fn state_behind(
        &mut self,
        alloc: Global,
        walk: &Walk,
        element: Element<'_>,
    ) -> Result<u32, AllocError>
        requires { IsWalked self.old walk.now }
        ensures { IfOk result (λ state. LeadsTo self.old walk.now (meaning element.entry) self.new state) }
    {
        let number = number_of(&mut self.numbers, alloc, element)?;
        match self.tree.next(walk.state(), number) {
            Some(state) => {
                how_beginnings_are_gathered();
                Ok(state)
            }
            None => self.new_state(alloc, walk, element, number),
        }
    }

    // Adds the state to which an element leads by its number.
    fn new_state(
        &mut self,
        alloc: Global,
        walk: &Walk,
        element: Element<'_>,
        number: u32,
    ) -> Result<u32, AllocError>
        requires walked { IsWalked self.old walk.now }
        requires within { number < most_number }
        requires number { number_of self.old.numbers (meaning element) ≡ Some number }
        requires free { next self.old.tree walk.now.state number ≡ None }
        ensures { IfOk result (λ state. LeadsTo self.old walk.now (meaning element.entry) self.new state) }
    {
        how_beginnings_are_gathered();
        how_graphs_are_drawn();
        self.draw_state(alloc, walk, element, number)
    }

    // Adds the state to which an element leads by its number, with its ways.
    fn draw_state(
        &mut self,
        alloc: Global,
        walk: &Walk,
        element: Element<'_>,
        number: u32,
    ) -> Result<u32, AllocError>
        requires there { walk.now.state < length self.old.drawing.entries }
        requires groups { All (IsThere (length self.old.drawing.entries)) walk.now.groups }
        requires places { places self.old.tree ≡ length self.old.drawing.entries }
        requires within { number < most_number }
        requires free { next self.old.tree walk.now.state number ≡ None }
        ensures state { IfOk result (λ state. state ≡ length self.old.drawing.entries) }
        ensures grows { OnOk result (GrowsBy self.old walk.now (meaning element.entry) number self.new) }
    {
        self.tree.add(walk.state(), number)?;
        let state = add_state(&mut self.drawing, alloc, element)?;
        walk.draw_to(element, &mut self.drawing, state)?;
        Ok(state)
    }
}
