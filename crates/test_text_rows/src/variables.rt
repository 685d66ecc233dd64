//! Rows of variables.

use aa_text::{ExpansionTable, TextError, Variables};
use std::alloc::Global;
use test_row_texts::{
    Part, RowError, Tally, number_of, put_all, put_number_word, put_word, put_words, question_of,
    turns_of, words_of, yes_or_no,
};

// Appends a refusal to an answer. None has a place.
fn put_refusal(answered: &mut Vec<u8>, error: TextError) -> Result<(), RowError> {
    put_word(answered, error.name().as_bytes())?;
    if error.place.is_some() {
        put_word(answered, b"at a place")?;
    }
    Ok(())
}

// Appends the answer of a step.
fn put_step(answered: &mut Vec<u8>, answer: Result<(), TextError>) -> Result<(), RowError> {
    match answer {
        Ok(()) => put_word(answered, b"ok"),
        Err(error) => put_refusal(answered, error),
    }
}

// Appends a count to an answer.
fn put_count(answered: &mut Vec<u8>, answer: Result<usize, TextError>) -> Result<(), RowError> {
    match answer {
        Ok(count) => put_number_word(answered, count),
        Err(error) => put_refusal(answered, error),
    }
}

// Appends the expansions of a text to an answer.
fn put_expansions(
    answered: &mut Vec<u8>,
    answer: Result<Vec<Vec<u8>>, TextError>,
) -> Result<(), RowError> {
    match answer {
        Ok(texts) => put_all(answered, &texts),
        Err(error) => put_refusal(answered, error),
    }
}

// Appends a place to an answer.
fn put_place(
    answered: &mut Vec<u8>,
    answer: Result<Option<usize>, TextError>,
) -> Result<(), RowError> {
    match answer {
        Ok(Some(place)) => put_number_word(answered, place),
        Ok(None) => put_word(answered, b"none"),
        Err(error) => put_refusal(answered, error),
    }
}

// Words as parts of others.
fn borrowed(alloc: Global, words: &[Vec<u8>]) -> Result<Vec<&[u8]>, RowError> {
    let mut all = Vec::new(alloc);
    for word in words {
        all.push(word.as_slice())?;
    }
    Ok(all)
}

// Does `=` or `+=`.
fn put_assignment(
    answered: &mut Vec<u8>,
    variables: &mut Variables,
    kind: &str,
    name: &[u8],
    words: &[&[u8]],
) -> Result<(), RowError> {
    if words.is_empty() {
        return put_word(answered, b"no words");
    }
    match kind {
        "=" => put_step(answered, variables.define(name, words)),
        _ => put_step(answered, variables.append(name, words)),
    }
}

// The name of the variable at a place.
fn put_name(answered: &mut Vec<u8>, variables: &Variables, place: &str) -> Result<(), RowError> {
    put_word(
        answered,
        variables.name(number_of(place)?).unwrap_or(b"none"),
    )
}

// Asks about a text, or about all variables.
fn put_answer(
    answered: &mut Vec<u8>,
    variables: &Variables,
    kind: &str,
    text: &[u8],
) -> Result<(), RowError> {
    match kind {
        "undefined" => put_word(answered, yes_or_no(variables.undefined(text))),
        "count" => put_count(answered, variables.count(text)),
        "expand" => put_expansions(answered, variables.expand(text)),
        "first_cycle" => put_place(answered, variables.first_cycle()),
        _ => Err(RowError::NoSuchVariableRow),
    }
}

// Appends the answers of a table, one step after the other: after `#` a word is a text to count, and without it one to expand.
fn put_steps(
    answered: &mut Vec<u8>,
    variables: &Variables,
    steps: &[Vec<u8>],
) -> Result<(), RowError> {
    let mut table = ExpansionTable::new(*answered.allocator(), variables);
    for step in steps {
        match step.as_slice() {
            [b'#', text @ ..] => put_count(answered, table.count(text))?,
            text => put_expansions(answered, table.expand(text))?,
        }
    }
    Ok(())
}

// The answer to a question of these words.
fn put_words_answer(
    answered: &mut Vec<u8>,
    variables: &mut Variables,
    kind: &str,
    words: &[Vec<u8>],
) -> Result<(), RowError> {
    let (first, rest): (&[u8], &[Vec<u8>]) = match words {
        [first, rest @ ..] => (first.as_slice(), rest),
        [] => (&[], &[]),
    };
    if kind == "table" {
        return put_steps(answered, variables, words);
    }
    if kind == "=" || kind == "+=" {
        let rest = borrowed(*answered.allocator(), rest)?;
        return put_assignment(answered, variables, kind, first, &rest);
    }
    put_answer(answered, variables, kind, first)
}

// Appends the answer to a question, each of its words followed by a blank.
fn put_answered(
    answered: &mut Vec<u8>,
    variables: &mut Variables,
    question: &str,
    turn: usize,
) -> Result<(), RowError> {
    let (kind, rest) = match question.split_once(' ') {
        Some((kind, rest)) => (kind, rest),
        None => (question, ""),
    };
    if kind == "name" {
        return put_name(answered, variables, rest);
    }
    let words = words_of(*answered.allocator(), rest, turn)?;
    put_words_answer(answered, variables, kind, &words)
}

// Asks a row.
fn ask_line(
    tally: &mut Tally,
    variables: &mut Variables,
    line: &str,
    turn: usize,
) -> Result<(), RowError> {
    let (question, wanted) = question_of(line);
    put_words(&mut tally.wanted, wanted, turn)?;
    put_answered(&mut tally.answered, variables, question, turn)?;
    tally.settle(question)
}

// Asks a row as often as it says.
fn ask_turns(tally: &mut Tally, variables: &mut Variables, row: &str) -> Result<(), RowError> {
    let (times, line) = turns_of(row)?;
    for turn in 0..times {
        ask_line(tally, variables, line, turn)?;
    }
    Ok(())
}

// Asks the rows of lines.
fn ask_lines(
    tally: &mut Tally,
    variables: &mut Variables,
    parts: &[Part<'_>],
) -> Result<(), RowError> {
    for part in parts {
        tally.begin(part.line);
        ask_turns(tally, variables, part.head)?;
    }
    Ok(())
}

/// Asks the rows of a paragraph, one a line, over the variables that its lines define.
pub fn ask_variable_rows(tally: &mut Tally, parts: &[Part<'_>]) -> Result<(), RowError> {
    let mut variables = Variables::new(tally.alloc());
    ask_lines(tally, &mut variables, parts)
}
