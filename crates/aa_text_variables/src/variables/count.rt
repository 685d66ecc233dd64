//! How many expansions a text has.

ghost use Rattle.std.specs.Prelude.{◌≡◌, ◌≢◌, ◌<◌, ◌≤◌, None, Some, IfOk, IfErr, OnOk, length, map, min};
ghost use Rattle.aa_text_expansion.specs.Counting.{CountsChoicesWithin, most_counted};
ghost use Rattle.aa_text_variables.specs.code.Columns.{counts_in};
ghost use Rattle.aa_text_variables.specs.code.ExpansionOrder.{IsOrder};
ghost use Rattle.aa_text_variables.specs.code.ExpansionTables.{AreFirstCounts, count_at};
ghost use Rattle.aa_text_variables.specs.Expansions.{expansion_refusal, expansions};
ghost use Rattle.aa_text_variables.specs.code.VariableIndexes.{words_at};
ghost use Rattle.aa_text_files.specs.declared.text_error.TextRefusal.TheVariants.{Memory};

use crate::variables::Variables;
use crate::variables::column::Column;
use crate::variables::reached::gathered;
use aa_text_expansion::{MOST_COUNTED, count_text, count_words};
use aa_text_files::TextError;
use indexmap::IndexSet;
use std::alloc::AllocError;

// How many values the variable at an index has, at most 16,385, by the counts of the variables that its words name.
fn counted_at(counts: &Column<'_, usize>, index: usize) -> usize
    ensures { CountsChoicesWithin (counts_in counts.now) (words_at counts.now.variables.now index) result }
{
    let (defined, added) = counts.variables.words(index);
    let count = count_words(counts, defined).saturating_add(count_words(counts, added));
    count.min(MOST_COUNTED)
}

impl Variables {
    /// How many expansions a text has, at least one, where that is less than 16,385, and else 16,385. It is the number of texts that `expand`
    /// returns, where it is less than 16,385.
    ///
    /// # Errors
    ///
    /// The first of these that applies, without a place.
    /// - `Undefined`: the text leads to a name that isn't defined or isn't closed.
    /// - `Cycle`: the text leads to a variable that leads to itself.
    /// - `Memory`: memory ran out.
    pub fn count(&self, text: &[u8]) -> Result<usize, TextError>
        ensures fine { OnOk result (expansion_refusal self.now text.now ≡ None) }
        ensures some { IfOk result (λ count. 0 < count) }
        ensures count { IfOk result (λ count. count ≡ min (length (expansions self.now text.now)) most_counted) }
        ensures refused { IfErr result (λ e. e.refusal ≢ Memory → expansion_refusal self.now text.now ≡ Some e.refusal) }
        ensures place { IfErr result (λ e. e.place ≡ None) }
    {
        let order = self.order(text)?;
        let mut counts = Vec::new(*self.entries.allocator());
        self.counts(&order, &mut counts)?;
        Ok(count_text(&self.beside(&order, counts.as_slice()), text))
    }

    // Appends how many values each variable of an order has, at most 16,385, to the counts of the first ones.
    pub(super) fn counts(
        &self,
        order: &IndexSet<usize>,
        counts: &mut Vec<usize>,
    ) -> Result<(), AllocError>
        requires order { IsOrder self.now order.now.keys }
        requires few { length order.now.keys ≤ length self.now }
        requires first { AreFirstCounts self.now order.now.keys counts.old.items }
        ensures { OnOk result (counts.new.items ≡ map (count_at self.now) order.now.keys) }
    {
        while let Some(index) = gathered(order, counts.len()) {
            let count = counted_at(&self.beside(order, counts.as_slice()), index);
            counts.push(count)?;
        }
        Ok(())
    }
}
