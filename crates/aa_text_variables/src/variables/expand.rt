//! The expansions of a text: one for each choice of a value for each of its names.

ghost use Rattle.std.specs.Prelude.{◌≡◌, ◌≢◌, ◌<◌, ◌≤◌, true, None, Some, IfOk, IfErr, OnOk, length, map, take};
ghost use Rattle.aa_text_expansion.specs.Expanding.{AreThere, ExpandsWords};
ghost use Rattle.aa_text_expansion.specs.Joining.{most_kept, texts_of};
ghost use Rattle.aa_text_variables.specs.code.Columns.{numbers_in};
ghost use Rattle.aa_text_variables.specs.code.ExpansionOrder.{IsOrder, is_text_known};
ghost use Rattle.aa_text_variables.specs.code.ExpansionTables.{AreListed};
ghost use Rattle.aa_text_variables.specs.Expansions.{expansion_refusal, expansions};
ghost use Rattle.aa_text_variables.specs.code.VariableIndexes.{words_at};
ghost use Rattle.aa_text_files.specs.declared.text_error.TextRefusal.TheVariants.{Memory};

use crate::variables::Variables;
use crate::variables::column::Column;
use crate::variables::reached::gathered;
use aa_text_expansion::{Lists, expand_text, expand_words};
use aa_text_files::TextError;
use indexmap::IndexSet;
use std::alloc::AllocError;

// The list of the values of the variable at an index, by the lists of the names in its words.
fn listed_at(lists: &mut Lists, held: &Column<'_, usize>, index: usize) -> Result<usize, AllocError>
    requires { AreThere lists.old (numbers_in held.now) }
    ensures { IfOk result (λ number. ExpandsWords lists.old (numbers_in held.now) (words_at held.now.variables.now index) number lists.new) }
{
    let (defined, added) = held.variables.words(index);
    expand_words(lists, held, defined, added)
}

impl Variables {
    /// The expansions of a text, at least one: one for each choice of a value for each name, the first name changing slowest. Each is cut off after
    /// its first 4,097 bytes.
    ///
    /// Call `count` before: there may be more expansions than memory holds.
    ///
    /// # Errors
    ///
    /// The first of these that applies, without a place.
    /// - `Undefined`: the text leads to a name that isn't defined or isn't closed.
    /// - `Cycle`: the text leads to a variable that leads to itself.
    /// - `Memory`: memory ran out.
    pub fn expand(&self, text: &[u8]) -> Result<Vec<Vec<u8>>, TextError>
        ensures fine { OnOk result (expansion_refusal self.now text.now ≡ None) }
        ensures some { IfOk result (λ texts. 0 < length texts.items) }
        ensures texts { IfOk result (λ texts. map (λ t. t.items) texts.items ≡ map (take most_kept) (expansions self.now text.now)) }
        ensures refused { IfErr result (λ e. e.refusal ≢ Memory → expansion_refusal self.now text.now ≡ Some e.refusal) }
        ensures place { IfErr result (λ e. e.place ≡ None) }
    {
        let order = self.order(text)?;
        Ok(self.expanded_by(&order, text)?)
    }

    // The expansions of a text, each of whose variables is in an order.
    fn expanded_by(&self, order: &IndexSet<usize>, text: &[u8]) -> Result<Vec<Vec<u8>>, AllocError>
        requires order { IsOrder self.now order.now.keys }
        requires few { length order.now.keys ≤ length self.now }
        requires known { is_text_known self.now order.now.keys text.now ≡ true }
        ensures { IfOk result (λ texts. texts_of texts ≡ map (take most_kept) (expansions self.now text.now)) }
    {
        let alloc = *order.allocator();
        let mut lists = Lists::new(alloc);
        let mut numbers = Vec::new(alloc);
        self.list(order, &mut lists, &mut numbers)?;
        let number = expand_text(&mut lists, &self.beside(order, numbers.as_slice()), text)?;
        lists.texts(number)
    }

    // Makes lists of the values of all variables of an order, where the first ones have theirs, and appends the numbers of these lists.
    pub(super) fn list(
        &self,
        order: &IndexSet<usize>,
        lists: &mut Lists,
        numbers: &mut Vec<usize>,
    ) -> Result<(), AllocError>
        requires order { IsOrder self.now order.now.keys }
        requires few { length order.now.keys ≤ length self.now }
        requires first { AreListed self.now order.now.keys numbers.old.items lists.old }
        requires fewer { length numbers.old.items ≤ length order.now.keys }
        ensures listed { OnOk result (AreListed self.now order.now.keys numbers.new.items lists.new) }
        ensures all { OnOk result (length numbers.new.items ≡ length order.now.keys) }
    {
        while let Some(index) = gathered(order, numbers.len()) {
            let number = listed_at(lists, &self.beside(order, numbers.as_slice()), index)?;
            numbers.push(number)?;
        }
        Ok(())
    }
}
