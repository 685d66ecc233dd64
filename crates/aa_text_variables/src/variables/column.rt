//! What is computed for the variables of an order: a table with a row for each of them.

ghost use Rattle.std.specs.Prelude.{◌≡◌, is_none};
ghost use Rattle.aa_text_variables.specs.code.Columns.{IsBeside, counts_in, numbers_in};
ghost use Rattle.aa_text_variables.specs.code.ExpansionTables.{row_of};

use crate::variables::Variables;
use aa_text_expansion::{Counts, Values};
use indexmap::IndexSet;

impl Variables {
    // A table with the order to which its rows belong.
    pub(super) fn beside<'a, T>(
        &'a self,
        order: &'a IndexSet<usize>,
        rows: &'a [T],
    ) -> Column<'a, T>
        ensures { IsBeside result self.now order.now.keys rows.now }
    {
        Column {
            variables: self,
            order,
            rows,
        }
    }

    // The row of a name's variable in each table of an order.
    pub(super) fn row(&self, order: &IndexSet<usize>, name: &[u8]) -> Option<usize>
        ensures { result ≡ row_of self.now order.now.keys name.now }
    {
        let index = self.index_of(name)?;
        order.get_index_of(&index)
    }
}

// A table with the order to which its rows belong: counts of values, or numbers of lists of values. Rows may be missing at its end.
#[derive(Drop)]
pub(super) struct Column<'a, T> {
    pub(super) variables: &'a Variables,
    pub(super) order: &'a IndexSet<usize>,
    rows: &'a [T],
}

impl Counts for Column<'_, usize> {
    ghost counts = { counts_in };

    fn count_of(&self, name: &[u8]) -> usize {
        match self.variables.row(self.order, name) {
            Some(row) => self.rows.get(row).copied().unwrap_or(0),
            None => 0,
        }
    }
}

impl Values for Column<'_, usize> {
    ghost numbers = { numbers_in };

    fn list_of(&self, name: &[u8]) -> Option<usize> {
        match self.variables.row(self.order, name) {
            Some(row) => self.rows.get(row).copied(),
            None => None,
        }
    }
}

impl Column<'_, usize> {
    // Whether a name has no list.
    pub(super) fn lacks(&self, name: &[u8]) -> bool
        ensures { result ≡ is_none (numbers_in self.now name.now) }
    {
        self.list_of(name).is_none()
    }
}
