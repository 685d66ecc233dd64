//! Rows of the tables of capabilities, and of the domains and kinds of sockets.

use aa_profile_data::{
    capability_name, capability_number, domain_name, domain_number, kind_name, kind_number, type_of,
};
use test_row_texts::{
    Part, RowError, Tally, number_of, put_number_word, put_word, put_words, question_of, split_at,
    words_of,
};

// Appends a number to an answer.
fn put_number(answered: &mut Vec<u8>, number: Option<u8>) -> Result<(), RowError> {
    match number {
        Some(number) => put_number_word(answered, usize::from(number)),
        None => put_word(answered, b"none"),
    }
}

// Appends a name to an answer.
fn put_name(answered: &mut Vec<u8>, name: Option<&str>) -> Result<(), RowError> {
    put_word(answered, name.unwrap_or("none").as_bytes())
}

// The number of a name.
fn put_number_of(answered: &mut Vec<u8>, kind: &str, name: &[u8]) -> Result<(), RowError> {
    match kind {
        "capability" => put_number(answered, capability_number(name)),
        "domain" => put_number(answered, domain_number(name)),
        "kind" => put_number(answered, kind_number(name)),
        _ => Err(RowError::NoSuchTableRow),
    }
}

// The name of a number.
fn put_name_of(answered: &mut Vec<u8>, kind: &str, number: u8) -> Result<(), RowError> {
    match kind {
        "capability_at" => put_name(answered, capability_name(number)),
        "domain_at" => put_name(answered, domain_name(number)),
        "kind_at" => put_name(answered, kind_name(number)),
        "type_of" => put_name(answered, kind_name(type_of(number))),
        _ => Err(RowError::NoSuchTableRow),
    }
}

// Appends the answer to a question, followed by a blank.
fn put_answered(answered: &mut Vec<u8>, question: &str) -> Result<(), RowError> {
    let (kind, rest) = split_at(question, " ")?;
    if let "capability" | "domain" | "kind" = kind {
        let words = words_of(*answered.allocator(), rest, 0)?;
        return match words.as_slice() {
            [name] => put_number_of(answered, kind, name),
            _ => Err(RowError::NoSuchTableRow),
        };
    }
    match u8::try_from(number_of(rest)?) {
        Ok(number) => put_name_of(answered, kind, number),
        Err(_) => Err(RowError::NoSuchTableRow),
    }
}

// Asks a row.
fn ask_line(tally: &mut Tally, line: &str) -> Result<(), RowError> {
    let (question, wanted) = question_of(line);
    put_words(&mut tally.wanted, wanted, 0)?;
    put_answered(&mut tally.answered, question)?;
    tally.settle(question)
}

/// Asks the rows of a paragraph, one a line.
pub fn ask_table_rows(tally: &mut Tally, parts: &[Part<'_>]) -> Result<(), RowError> {
    for part in parts {
        tally.begin(part.line);
        ask_line(tally, part.head)?;
    }
    Ok(())
}
