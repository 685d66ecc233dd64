//! A depth-first walk through variables, which puts each after those that its words name, or finds one that leads to itself.

ghost use Rattle.std.specs.Prelude.{◌≡◌, ◌++◌, None, Some, IfOk, OnOk, true, false, length, map, if◌then◌else◌};
ghost use Rattle.aa_text_variables.specs.code.VariableWalks.{AllBelow, IsBeginning, IsSettled, IsWalked, SomeEndless, after_enter};
ghost use Rattle.aa_text_variables.specs.code.VariableWalks.{after_task, names_at, progress};
ghost use Rattle.aa_text_variables.specs.declared.variables.walk.Task.TheVariants.{Enter};

use crate::variables::Variables;
use indexmap::IndexSet;
use std::alloc::AllocError;
use std::mem;

// A task of a walk that isn't done yet.
#[derive(Clone, Copy)]
enum Task {
    // To enter the variable at an index, unless it was left already.
    Enter(usize),
    // To leave it: all variables that its words name were left.
    Leave(usize),
}

// The state of a walk: which variables it entered, its tasks, the next one last, and the order of those that it left.
#[derive(Drop)]
struct Walk {
    entered: IndexSet<usize>,
    tasks: Vec<Task>,
    order: IndexSet<usize>,
}

// Appends tasks to enter the variables at some indices, the last of them first.
fn push_all(indexes: &[usize], tasks: &mut Vec<Task>) -> Result<(), AllocError>
    ensures { OnOk result (tasks.new.items ≡ tasks.old.items ++ map Enter indexes.now) }
{
    for index in indexes {
        tasks.push(Task::Enter(*index))?;
    }
    Ok(())
}

impl Variables {
    // Appends tasks to enter the variables that the words of the variable at an index name.
    fn push_names(&self, index: usize, tasks: &mut Vec<Task>) -> Result<(), AllocError>
        ensures { OnOk result (tasks.new.items ≡ tasks.old.items ++ map Enter (names_at self.now index)) }
    {
        let mut names = IndexSet::new(*self.entries.allocator());
        self.note_words(index, &mut names)?;
        push_all(names.as_slice(), tasks)
    }

    // Enters the variable at an index, unless it is in the order, and returns whether that can be: a variable that was entered, and not left, leads
    // to itself.
    fn enter(&self, index: usize, walk: &mut Walk) -> Result<bool, AllocError>
        ensures { IfOk result (λ fine. after_enter self.now index (progress walk.old) ≡ (if fine then Some (progress walk.new) else None)) }
    {
        if walk.order.contains(&index) {
            return Ok(true);
        }
        if !walk.entered.insert(index)? {
            return Ok(false);
        }
        walk.tasks.push(Task::Leave(index))?;
        self.push_names(index, &mut walk.tasks)?;
        Ok(true)
    }

    // Does a task of a walk, and returns whether that can be.
    fn step(&self, task: Task, walk: &mut Walk) -> Result<bool, AllocError>
        ensures { IfOk result (λ fine. after_task self.now task (progress walk.old) ≡ (if fine then Some (progress walk.new) else None)) }
    {
        match task {
            Task::Enter(index) => self.enter(index, walk),
            Task::Leave(index) => {
                walk.order.insert(index)?;
                Ok(true)
            }
        }
    }

    // Walks from some variables, and returns whether none of them leads to a cycle: then they are in the order.
    fn finish(&self, starts: &[usize], walk: &mut Walk) -> Result<bool, AllocError>
        requires starts { AllBelow (length self.now) starts.now }
        requires begins { IsBeginning self.now (progress walk.old) }
        ensures fine { IfOk result (λ fine. fine ≡ true → IsWalked self.now starts.now walk.old.order.keys walk.new.order.keys) }
        ensures cycle { IfOk result (λ fine. fine ≡ false → SomeEndless self.now starts.now) }
    {
        push_all(starts, &mut walk.tasks)?;
        while let Some(task) = walk.tasks.pop() {
            if !self.step(task, walk)? {
                return Ok(false);
            }
        }
        Ok(true)
    }

    // Appends some variables, and all that they lead to, to an order, and returns whether none of them leads to a cycle.
    pub(super) fn walk(
        &self,
        starts: &[usize],
        order: &mut IndexSet<usize>,
    ) -> Result<bool, AllocError>
        requires starts { AllBelow (length self.now) starts.now }
        requires settled { IsSettled self.now order.old.keys }
        ensures fine { IfOk result (λ fine. fine ≡ true → IsWalked self.now starts.now order.old.keys order.new.keys) }
        ensures cycle { IfOk result (λ fine. fine ≡ false → SomeEndless self.now starts.now) }
    {
        let alloc = *self.entries.allocator();
        let mut walk = Walk {
            entered: IndexSet::new(alloc),
            tasks: Vec::new(alloc),
            order: mem::replace(order, IndexSet::new(alloc)),
        };
        let fine = self.finish(starts, &mut walk);
        mem::swap(order, &mut walk.order);
        fine
    }
}
