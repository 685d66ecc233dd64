//! Rows of a journal over a change of one's own: a number replaces another.

use aa_history::{Change, Journal, Short};
use std::alloc::AllocError;
use std::mem;
use test_row_texts::{
    Part, RowError, Tally, number_of, put_number_word, put_word, put_words, question_of, split_at,
};

// The change to a number, for which memory may run out.
#[derive(Drop)]
struct To {
    number: u64,
    finds_no_memory: bool,
}

impl Change<u64> for To {
    ghost use Rattle.std.specs.Prelude.{refl};

    // A number is all that it stands for, and takes no memory: there is no room to make.
    ghost means = { λ state. state };

    ghost room = { λ state. 0 };

    ghost need = { λ change. 0 };

    // Each change counts as one part.
    ghost parts = { λ change. 1 };

    // The number and the change's number trade places.
    ghost after = { λ state change. change.number };

    ghost back = { λ state change. record change { number = state } };

    fn prepare(&self, _state: &mut u64) -> Result<(), AllocError> {
        if self.finds_no_memory {
            Err(AllocError)
        } else {
            Ok(())
        }
    }

    fn turn(&mut self, state: &mut u64) {
        mem::swap(&mut self.number, state);
    }

    fn size(&self) -> usize {
        1
    }

    ghost returns = { λ state change. refl };

    ghost restores = { λ state change. refl };

    ghost settled = { λ state. refl };

    ghost needs_as_much = { λ state change. refl };

    ghost has_as_many = { λ state change. refl };
}

type Numbers = Journal<u64, To>;

// Appends a change that is handed back to an answer.
fn put_refused(answered: &mut Vec<u8>, change: &To) -> Result<(), RowError> {
    if change.finds_no_memory {
        put_word(answered, b"refused")?;
    }
    put_number_word(answered, change.number as usize)
}

// Commits the change to a number.
fn put_commit(
    answered: &mut Vec<u8>,
    journal: &mut Numbers,
    number: usize,
    finds_no_memory: bool,
) -> Result<(), RowError> {
    let change = To {
        number: number as u64,
        finds_no_memory,
    };
    match journal.commit(change) {
        Ok(()) => put_word(answered, b"ok"),
        Err((change, _)) => put_refused(answered, &change),
    }
}

// Appends the answer of an undo or redo to the others.
fn put_way(answered: &mut Vec<u8>, way: Result<(), Short>) -> Result<(), RowError> {
    match way {
        Ok(()) => put_word(answered, b"ok"),
        Err(short) => {
            put_word(answered, b"short")?;
            put_number_word(answered, short.have)
        }
    }
}

// Marks the number that the journal is at.
fn put_mark(answered: &mut Vec<u8>, journal: &mut Numbers, name: &str) -> Result<(), RowError> {
    let name = Vec::from_slice(*answered.allocator(), name.as_bytes())?;
    match journal.mark(name) {
        Ok(()) => put_word(answered, b"ok"),
        Err(_) => Err(RowError::Memory),
    }
}

// Goes to a mark.
fn put_back(answered: &mut Vec<u8>, journal: &mut Numbers, name: &str) -> Result<(), RowError> {
    match journal.back(name.as_bytes()) {
        Ok(()) => put_word(answered, b"ok"),
        Err(_) => put_word(answered, b"unmarked"),
    }
}

// Appends how many changes had been made at a mark to the answer.
fn put_marked(answered: &mut Vec<u8>, journal: &Numbers, name: &str) -> Result<(), RowError> {
    match journal.marked(name.as_bytes()) {
        Some(number) => put_number_word(answered, number),
        None => put_word(answered, b"none"),
    }
}

// Appends the answer to a question of two words.
fn put_answer(
    answered: &mut Vec<u8>,
    journal: &mut Numbers,
    kind: &str,
    word: &str,
) -> Result<(), RowError> {
    match kind {
        "commit" => put_commit(answered, journal, number_of(word)?, false),
        "refuse" => put_commit(answered, journal, number_of(word)?, true),
        "undo" => put_way(answered, journal.undo(number_of(word)?)),
        "redo" => put_way(answered, journal.redo(number_of(word)?)),
        "mark" => put_mark(answered, journal, word),
        "back" => put_back(answered, journal, word),
        "marked" => put_marked(answered, journal, word),
        _ => Err(RowError::NoSuchKind),
    }
}

// Appends the state of a journal to an answer: its number, how many changes can be undone and redone, and how many parts it keeps.
fn put_place(answered: &mut Vec<u8>, journal: &Numbers) -> Result<(), RowError> {
    put_number_word(answered, *journal.state() as usize)?;
    put_number_word(answered, journal.depth())?;
    put_number_word(answered, journal.ahead())?;
    let kept = usize::try_from(journal.kept()).unwrap_or(usize::MAX);
    put_number_word(answered, kept)
}

// Asks a row.
fn ask_line(tally: &mut Tally, journal: &mut Numbers, line: &str) -> Result<(), RowError> {
    let (question, wanted) = question_of(line);
    put_words(&mut tally.wanted, wanted, 0)?;
    let (kind, word) = split_at(question, " ")?;
    put_answer(&mut tally.answered, journal, kind, word)?;
    put_place(&mut tally.answered, journal)?;
    tally.settle(question)
}

// Asks the rows of lines.
fn ask_lines(tally: &mut Tally, journal: &mut Numbers, parts: &[Part<'_>]) -> Result<(), RowError> {
    for part in parts {
        tally.begin(part.line);
        ask_line(tally, journal, part.head)?;
    }
    Ok(())
}

/// Asks the rows of a paragraph, one a line, over a journal that begins at 1.
pub fn ask_journal_rows(tally: &mut Tally, parts: &[Part<'_>]) -> Result<(), RowError> {
    let mut journal = Journal::new(tally.alloc(), 1);
    ask_lines(tally, &mut journal, parts)
}
