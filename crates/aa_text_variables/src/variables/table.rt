//! A table of the values of variables, for expanding many texts.
//!
//! Each variable that some text leads to is counted once, and a list of its values is made once, of the lists of the variables that its words name,
//! when a text is expanded. A text that names no variable is its one expansion, and the table stays as it is. What the table holds decides how long
//! an answer takes, not what it is: for what isn't held a list is made anew.

ghost use Rattle.std.specs.Prelude.{◌≡◌, ◌≢◌, ◌<◌, [], None, Some, IfOk, IfErr, IfSome, OnOk, drop, length, true, false, map, min, take};
ghost use Rattle.aa_text_expansion.specs.Counting.{most_counted};
ghost use Rattle.aa_text_expansion.specs.Joining.{cut_off, most_kept, texts_of};
ghost use Rattle.aa_text_variables.specs.code.ExpansionTables.{number_of};
ghost use Rattle.aa_text_variables.specs.code.HeldValues.{AreRows, HasList, HasText, is_text_lacking, names_undefined_at};
ghost use Rattle.aa_text_variables.specs.Expansions.{expansion_refusal, expansions};
ghost use Rattle.aa_text_variables.specs.Variables.{are_variables};
ghost use Rattle.std.specs.List.{list_any};
ghost use Rattle.aa_text_files.specs.declared.text_error.TextRefusal.TheVariants.{Memory};

use crate::variables::Variables;
use crate::variables::plain::{alone, names_nothing};
use aa_text_expansion::{Lists, count_text, expand_text, has_missing};
use aa_text_files::{TextError, TextRefusal, plain};
use indexmap::IndexSet;
use std::alloc::{AllocError, Global};
use std::marker::Model;

// Rows of variables that texts lead to.
#[derive(Drop)]
struct Rows {
    // The indices of the variables: each comes after all that its words name.
    order: IndexSet<usize>,
    // How many values each has, at most 16,385.
    counts: Vec<usize>,
    // Lists of texts, those of the variables' values among them.
    lists: Lists,
    // The number of the list of each variable's values.
    numbers: Vec<usize>,
}

impl Rows {
    // No rows. It takes no memory.
    fn new(alloc: Global) -> Rows
        ensures order { result.order.keys ≡ [] }
        ensures counts { result.counts.items ≡ [] }
        ensures numbers { result.numbers.items ≡ [] }
    {
        Rows {
            order: IndexSet::new(alloc),
            counts: Vec::new(alloc),
            lists: Lists::new(alloc),
            numbers: Vec::new(alloc),
        }
    }

    // Removes all rows.
    fn clear(&mut self)
        ensures order { self.new.order.keys ≡ [] }
        ensures counts { self.new.counts.items ≡ [] }
        ensures numbers { self.new.numbers.items ≡ [] }
    {
        *self = Rows::new(*self.order.allocator());
    }
}

impl Variables {
    // What a `Variables` holds meets the definition of variables. It does nothing at run time.
    pub(super) fn lawful(&self)
        ensures { are_variables self.now ≡ true }
    {
        let _ = &self.entries;
    }

    // Whether a word of the variables at some indexes names a variable that isn't defined, or doesn't close a name.
    fn some_undefined(&self, indexes: &[usize]) -> bool
        ensures { result ≡ list_any (names_undefined_at self.now) indexes.now }
    {
        for index in indexes {
            if self.undefined_at(*index) {
                return true;
            }
        }
        false
    }

    // Whether a word of one of the variables from position `first` of an order on names a variable that isn't defined, or doesn't close a name.
    fn undefined_behind(&self, order: &IndexSet<usize>, first: usize) -> bool
        ensures { result ≡ list_any (names_undefined_at self.now) (drop first order.now.keys) }
    {
        match order.as_slice().get(first..) {
            Some(behind) => self.some_undefined(behind),
            None => false,
        }
    }

    // Adds rows for the variables that a text leads to, and returns whether it leads to no cycle and to no name that isn't defined.
    fn grow(&self, text: &[u8], rows: &mut Rows) -> Result<bool, AllocError>
        requires { AreRows self.now rows.old }
        ensures { IfOk result (λ there. there ≡ true → HasText self.now text.now rows.new) }
    {
        if self.undefined(text) {
            return Ok(false);
        }
        let first = rows.order.len();
        if !self.walk_text(text, &mut rows.order)? {
            return Ok(false);
        }
        if self.undefined_behind(&rows.order, first) {
            return Ok(false);
        }
        self.counts(&rows.order, &mut rows.counts)?;
        Ok(true)
    }

    // How many expansions a text has, at most 16,385, by rows with all variables that it leads to.
    fn counted(&self, text: &[u8], rows: &Rows) -> usize
        requires { HasText self.now text.now rows.now }
        ensures some { 0 < result }
        ensures count { result ≡ min (length (expansions self.now text.now)) most_counted }
        ensures fine { expansion_refusal self.now text.now ≡ None }
    {
        self.lawful();
        let counts = self.beside(&rows.order, rows.counts.as_slice());
        count_text(&counts, text)
    }

    // How many expansions a text has, at most 16,385, by rows to which variables may be added. The rows are empty afterwards where the text leads to
    // something undefined or to a cycle, or where memory ran out.
    fn count_by(&self, text: &[u8], rows: &mut Rows) -> Result<usize, TextError>
        requires { AreRows self.now rows.old }
        ensures rows { AreRows self.now rows.new }
        ensures fine { OnOk result (expansion_refusal self.now text.now ≡ None) }
        ensures some { IfOk result (λ count. 0 < count) }
        ensures count { IfOk result (λ count. count ≡ min (length (expansions self.now text.now)) most_counted) }
        ensures refused { IfErr result (λ e. e.refusal ≢ Memory → expansion_refusal self.now text.now ≡ Some e.refusal) }
        ensures place { IfErr result (λ e. e.place ≡ None) }
    {
        match self.grow(text, rows) {
            Ok(true) => Ok(self.counted(text, rows)),
            Ok(false) => {
                rows.clear();
                self.count(text)
            }
            Err(_) => {
                rows.clear();
                Err(plain(TextRefusal::Memory))
            }
        }
    }

    // Whether the rows have no list for a name of a text.
    fn lacks(&self, text: &[u8], rows: &Rows) -> bool
        ensures { result ≡ is_text_lacking (number_of self.now rows.now.order.keys rows.now.numbers.items) text.now }
    {
        let held = self.beside(&rows.order, rows.numbers.as_slice());
        has_missing(text, |name| held.lacks(name))
    }

    // Makes a list of the expansions of a text, for each of whose names the rows have a list, and returns its number.
    fn listed(&self, text: &[u8], rows: &mut Rows) -> Result<usize, AllocError>
        requires rows { AreRows self.now rows.old }
        requires listed { is_text_lacking (number_of self.now rows.old.order.keys rows.old.numbers.items) text.now ≡ false }
        ensures { IfOk result (λ number. HasList self.now text.now number rows.new) }
    {
        let held = self.beside(&rows.order, rows.numbers.as_slice());
        expand_text(&mut rows.lists, &held, text)
    }

    // The expansions of a text, for each of whose names the rows have a list.
    fn written(&self, text: &[u8], rows: &mut Rows) -> Result<Vec<Vec<u8>>, AllocError>
        requires rows { AreRows self.now rows.old }
        requires listed { is_text_lacking (number_of self.now rows.old.order.keys rows.old.numbers.items) text.now ≡ false }
        ensures rows { OnOk result (AreRows self.now rows.new) }
        ensures fine { OnOk result (expansion_refusal self.now text.now ≡ None) }
        ensures texts { IfOk result (λ texts. texts_of texts ≡ cut_off (expansions self.now text.now)) }
    {
        let number = self.listed(text, rows)?;
        let texts = rows.lists.texts(number)?;
        Ok(texts)
    }

    // The expansions of a text, once the rows have a list for each of their variables; `None` where they have none for a name of the text.
    fn filled_and_written(
        &self,
        text: &[u8],
        rows: &mut Rows,
    ) -> Result<Option<Vec<Vec<u8>>>, AllocError>
        requires { AreRows self.now rows.old }
        ensures rows { OnOk result (AreRows self.now rows.new) }
        ensures fine { IfOk result (λ found. IfSome found (λ texts. expansion_refusal self.now text.now ≡ None)) }
        ensures texts { IfOk result (λ found. IfSome found (λ texts. texts_of texts ≡ cut_off (expansions self.now text.now))) }
    {
        self.list(&rows.order, &mut rows.lists, &mut rows.numbers)?;
        if self.lacks(text, rows) {
            return Ok(None);
        }
        Ok(Some(self.written(text, rows)?))
    }

    // The expansions of a text, by rows to which lists may be added. The rows are empty afterwards where memory ran out for them.
    fn expand_by(&self, text: &[u8], rows: &mut Rows) -> Result<Vec<Vec<u8>>, TextError>
        requires { AreRows self.now rows.old }
        ensures rows { AreRows self.now rows.new }
        ensures fine { OnOk result (expansion_refusal self.now text.now ≡ None) }
        ensures some { IfOk result (λ texts. 0 < length texts.items) }
        ensures texts { IfOk result (λ texts. texts_of texts ≡ cut_off (expansions self.now text.now)) }
        ensures refused { IfErr result (λ e. e.refusal ≢ Memory → expansion_refusal self.now text.now ≡ Some e.refusal) }
        ensures place { IfErr result (λ e. e.place ≡ None) }
    {
        match self.filled_and_written(text, rows) {
            Ok(Some(texts)) => {
                self.lawful();
                Ok(texts)
            }
            Ok(None) => self.expand(text),
            Err(_) => {
                rows.clear();
                Err(plain(TextRefusal::Memory))
            }
        }
    }
}

/// The values of variables, computed once for many texts. Answers are those of `Variables`.
#[derive(Drop)]
pub struct ExpansionTable<'v> {
    variables: &'v Variables,
    rows: Rows,
}

impl<'v> Model for ExpansionTable<'v> {
    ghost use Rattle.std.specs.Prelude.{List};
    ghost use Rattle.aa_text_variables.specs.Variables.{Variable};
    ghost use Rattle.aa_text_variables.specs.code.HeldValues.{AreRows};

    ghost Value = { List Variable };

    ghost view = { λ t. t.variables.now };

    // The counts and lists of the table are right.
    ghost invariant = { λ t. AreRows t.variables.now t.rows };
}

impl<'v> ExpansionTable<'v> {
    /// A table for these variables, in which nothing is computed yet. It takes no memory.
    pub fn new(alloc: Global, variables: &'v Variables) -> ExpansionTable<'v>
        ensures { result ≡ variables.now }
    {
        ExpansionTable {
            variables,
            rows: Rows::new(alloc),
        }
    }

    /// How many expansions a text has, at least one, where that is less than 16,385, and else 16,385. What is computed for it is kept for later
    /// texts.
    ///
    /// # Errors
    ///
    /// As `Variables::count`. The table is then empty.
    pub fn count(&mut self, text: &[u8]) -> Result<usize, TextError>
        ensures fine { OnOk result (expansion_refusal self.old text.now ≡ None) }
        ensures some { IfOk result (λ count. 0 < count) }
        ensures count { IfOk result (λ count. count ≡ min (length (expansions self.old text.now)) most_counted) }
        ensures refused { IfErr result (λ e. e.refusal ≢ Memory → expansion_refusal self.old text.now ≡ Some e.refusal) }
        ensures place { IfErr result (λ e. e.place ≡ None) }
        ensures same { self.new ≡ self.old }
    {
        if names_nothing(text) {
            return Ok(1);
        }
        self.variables.count_by(text, &mut self.rows)
    }

    /// The expansions of a text, as `Variables::expand` returns them.
    ///
    /// It is quick for a text that was counted before: the variables' counts and lists are kept.
    ///
    /// # Errors
    ///
    /// As `Variables::expand`. Where memory ran out, the table is then empty.
    pub fn expand(&mut self, text: &[u8]) -> Result<Vec<Vec<u8>>, TextError>
        ensures fine { OnOk result (expansion_refusal self.old text.now ≡ None) }
        ensures some { IfOk result (λ texts. 0 < length texts.items) }
        ensures texts { IfOk result (λ texts. map (λ t. t.items) texts.items ≡ map (take most_kept) (expansions self.old text.now)) }
        ensures refused { IfErr result (λ e. e.refusal ≢ Memory → expansion_refusal self.old text.now ≡ Some e.refusal) }
        ensures place { IfErr result (λ e. e.place ≡ None) }
        ensures same { self.new ≡ self.old }
    {
        if names_nothing(text) {
            return Ok(alone(*self.rows.order.allocator(), text)?);
        }
        self.variables.expand_by(text, &mut self.rows)
    }
}
