//! The walk of a pattern through the states of its beginnings.

ghost use Rattle.std.specs.Prelude.{◌≡◌, ◌<◌, [], length, OnOk};
ghost use Rattle.std.specs.List.{All};
ghost use Rattle.aa_glob.specs.Walks.{entered, source_states, standing_at};
ghost use Rattle.aa_glob.specs.Ways.{AddsWays};
ghost use Rattle.aa_glob_syntax.specs.Cursor.{meaning};
ghost use Rattle.aa_glob_syntax.specs.Elements.{Close, Comma};

use crate::ways::{draw_way, draw_ways};
use aa_glob_run::Drawing;
use aa_glob_syntax::Element;
use std::alloc::{AllocError, Global};
use std::marker::Model;

// A group that is open.
#[derive(Drop)]
struct Group {
    // The state after its brace.
    beginning: u32,
    // The states before its commas.
    ends: Vec<u32>,
}

/// Where the walk of a pattern is. Contracts see the state, and the groups that are open there, the innermost first.
#[derive(Drop)]
pub struct Walk {
    state: u32,
    groups: Vec<Group>,
}

impl Model for Walk {
    ghost use Rattle.aa_glob.specs.Walks.{Standing};
    ghost use Rattle.aa_glob.specs.code.SeenGroups.{seen_groups};

    ghost Value = { Standing };

    ghost view = { λ w. record { state = w.state; groups = seen_groups w.groups.items } };
}

impl Walk {
    /// A walk that begins at the start. It takes no memory.
    pub fn new(alloc: Global) -> Walk
        ensures { result ≡ standing_at 0 [] }
    {
        Walk {
            state: 0,
            groups: Vec::new(alloc),
        }
    }

    /// The state where the walk is.
    pub fn state(&self) -> u32
        ensures { result ≡ self.now.state }
    {
        self.state
    }

    /// Moves to a state, along an element.
    ///
    /// # Errors
    ///
    /// Where memory runs out.
    pub fn enter(
        &mut self,
        alloc: Global,
        element: Element<'_>,
        state: u32,
    ) -> Result<(), AllocError>
        ensures { OnOk result (self.new ≡ entered (meaning element.entry) state self.old) }
    {
        match element {
            Element::Open => self.groups.push(Group {
                beginning: state,
                ends: Vec::new(alloc),
            })?,
            Element::Comma => self.end_alternative()?,
            Element::Close => {
                self.groups.pop();
            }
            _ => {}
        }
        self.state = state;
        Ok(())
    }

    // Ends an alternative of the innermost group before the state where the walk is.
    fn end_alternative(&mut self) -> Result<(), AllocError>
        ensures { OnOk result (self.new ≡ entered Comma self.old.state self.old) }
    {
        if let Some(mut group) = self.groups.pop() {
            group.ends.push(self.state)?;
            self.groups.push(group)?;
        }
        Ok(())
    }

    /// Adds the ways to a state from those from which an element is reached.
    ///
    /// # Errors
    ///
    /// Where memory runs out. Some of them may be added then.
    pub fn draw_to(
        &self,
        element: Element<'_>,
        drawing: &mut Drawing,
        state: u32,
    ) -> Result<(), AllocError>
        requires from { All (λ q. q < length drawing.old.entries) (source_states (meaning element) self.now) }
        requires to { state < length drawing.old.entries }
        ensures { OnOk result (AddsWays drawing.old drawing.new (source_states (meaning element.entry) self.now) state) }
    {
        match element {
            Element::Comma => self.draw_from_beginning(drawing, state),
            Element::Close => self.draw_from_ends(drawing, state),
            _ => draw_way(drawing, self.state, state),
        }
    }

    // Adds the way from the state at which the innermost group's alternatives begin.
    fn draw_from_beginning(&self, drawing: &mut Drawing, state: u32) -> Result<(), AllocError>
        requires from { All (λ q. q < length drawing.old.entries) (source_states Comma self.now) }
        requires to { state < length drawing.old.entries }
        ensures { OnOk result (AddsWays drawing.old drawing.new (source_states Comma self.now) state) }
    {
        match self.groups.last() {
            None => draw_way(drawing, self.state, state),
            Some(group) => draw_way(drawing, group.beginning, state),
        }
    }

    // Adds the ways from the ends of the innermost group's alternatives, the last of which ends where the walk is.
    fn draw_from_ends(&self, drawing: &mut Drawing, state: u32) -> Result<(), AllocError>
        requires from { All (λ q. q < length drawing.old.entries) (source_states Close self.now) }
        requires to { state < length drawing.old.entries }
        ensures { OnOk result (AddsWays drawing.old drawing.new (source_states Close self.now) state) }
    {
        draw_way(drawing, self.state, state)?;
        match self.groups.last() {
            None => Ok(()),
            Some(group) => {
                draw_ways(drawing, &group.ends, state)?;
                Ok(())
            }
        }
    }
}
