//! The order of the variables that a text leads to, and the first variable that leads to itself.

ghost use Rattle.std.specs.Prelude.{◌≡◌, ◌≢◌, ◌<◌, ◌≤◌, [], true, false, None, Some, IfOk, IfErr, OnOk, length, position};
ghost use Rattle.aa_text_variables.specs.code.ExpansionOrder.{IsOrder, is_text_known};
ghost use Rattle.aa_text_variables.specs.Expansions.{expansion_refusal, expansions, is_cyclic, leads_to_cycle};
ghost use Rattle.aa_text_variables.specs.code.VariableWalks.{IsOrderOf, IsSettled};
ghost use Rattle.aa_text_files.specs.declared.text_error.TextRefusal.TheVariants.{Memory};

use crate::variables::Variables;
use aa_text_files::{TextError, TextRefusal, plain};
use indexmap::IndexSet;
use std::alloc::AllocError;

impl Variables {
    // The indices of the variables that a text leads to, in an order in which each comes after all that its words name.
    pub(super) fn order(&self, text: &[u8]) -> Result<IndexSet<usize>, TextError>
        ensures order { IfOk result (λ o. IsOrder self.now o.keys) }
        ensures few { IfOk result (λ o. length o.keys ≤ length self.now) }
        ensures named { IfOk result (λ o. is_text_known self.now o.keys text.now ≡ true) }
        ensures fine { OnOk result (expansion_refusal self.now text.now ≡ None) }
        ensures some { OnOk result (0 < length (expansions self.now text.now)) }
        ensures refused { IfErr result (λ e. e.refusal ≢ Memory → expansion_refusal self.now text.now ≡ Some e.refusal) }
        ensures place { IfErr result (λ e. e.place ≡ None) }
    {
        self.refuse_undefined(text)?;
        let mut order = IndexSet::new(*self.entries.allocator());
        if !self.walk_text(text, &mut order)? {
            return Err(plain(TextRefusal::Cycle));
        }
        Ok(order)
    }

    // Adds the variables that a text leads to at the end of an order, and returns whether it leads to no cycle.
    pub(super) fn walk_text(
        &self,
        text: &[u8],
        order: &mut IndexSet<usize>,
    ) -> Result<bool, AllocError>
        requires { IsSettled self.now order.old.keys }
        ensures fine { IfOk result (λ fine. fine ≡ true → IsOrderOf self.now text.now order.old.keys order.new.keys) }
        ensures cycle { IfOk result (λ fine. fine ≡ false → leads_to_cycle self.now text.now ≡ true) }
    {
        let mut starts = IndexSet::new(*self.entries.allocator());
        self.note(text, &mut starts)?;
        self.walk(starts.as_slice(), order)
    }

    /// The index, in the order of first definitions, of the first variable that leads to itself, or to one that does; `None` where no variable does.
    ///
    /// Names that aren't defined lead nowhere; names before one that isn't closed count.
    ///
    /// # Errors
    ///
    /// - `Memory`, without a place: memory ran out.
    pub fn first_cycle(&self) -> Result<Option<usize>, TextError>
        ensures ok { IfOk result (λ index. index ≡ position (is_cyclic self.now) self.now) }
        ensures memory { IfErr result (λ e. e.refusal ≡ Memory) }
        ensures place { IfErr result (λ e. e.place ≡ None) }
    {
        let mut order = IndexSet::new(*self.entries.allocator());
        Ok(self.first_cyclic(&mut order)?)
    }

    // The index of the first variable that leads to a cycle. Appends those before it, and all that they lead to, to an order.
    fn first_cyclic(&self, order: &mut IndexSet<usize>) -> Result<Option<usize>, AllocError>
        requires { order.old.keys ≡ [] }
        ensures { IfOk result (λ index. index ≡ position (is_cyclic self.now) self.now) }
    {
        for index in 0..self.entries.len() {
            if !self.walk(&[index], order)? {
                return Ok(Some(index));
            }
        }
        Ok(None)
    }
}
