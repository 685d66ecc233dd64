//! Rows of tokens.

use aa_text::{CutFault, Token, TokenKind, tokens};
use test_row_texts::{
    Part, RowError, Tally, find, number_of, put_each, put_lines, put_number_word, put_word,
};

// The word for a kind of tokens.
fn kind_word(kind: TokenKind) -> &'static str {
    match kind {
        TokenKind::Include { if_exists: false } => "include",
        TokenKind::Include { if_exists: true } => "include-if-exists",
        TokenKind::Assign { append: false } => "assign",
        TokenKind::Assign { append: true } => "append",
        TokenKind::Value => "value",
        TokenKind::Quoted => "quoted",
        TokenKind::Word => "word",
        TokenKind::Comma => "comma",
        TokenKind::OpenBrace => "open",
        TokenKind::CloseBrace => "close",
    }
}

// Appends the line of a token to an answer.
fn put_token(answered: &mut Vec<u8>, token: &Token<'_>) -> Result<(), RowError> {
    put_word(answered, kind_word(token.kind).as_bytes())?;
    put_word(answered, token.text)?;
    put_number_word(answered, token.start)?;
    put_number_word(answered, token.end)?;
    answered.extend_from_slice(b"\n")?;
    Ok(())
}

// Appends the line of a fault to an answer.
fn put_fault(answered: &mut Vec<u8>, fault: CutFault) -> Result<(), RowError> {
    put_each(answered, &[b"refused".as_slice(), fault.name().as_bytes()])?;
    if let Some(at) = fault.at {
        put_number_word(answered, at)?;
    }
    answered.extend_from_slice(b"\n")?;
    Ok(())
}

// Appends the lines of tokens to an answer.
fn put_tokens(answered: &mut Vec<u8>, found: &[Token<'_>]) -> Result<(), RowError> {
    for token in found {
        put_token(answered, token)?;
    }
    Ok(())
}

// Appends the answer for a text.
fn put_answer(answered: &mut Vec<u8>, source: &[u8]) -> Result<(), RowError> {
    match tokens(*answered.allocator(), source) {
        Ok(found) => put_tokens(answered, &found),
        Err(fault) => put_fault(answered, fault),
    }
}

// How many tokens a text has.
fn put_count(answered: &mut Vec<u8>, source: &[u8]) -> Result<(), RowError> {
    match tokens(*answered.allocator(), source) {
        Ok(found) => put_number_word(answered, found.len()),
        Err(fault) => put_fault(answered, fault),
    }
}

// Asks how many tokens a text has.
fn ask_count(tally: &mut Tally, source: &[u8], count: &str) -> Result<(), RowError> {
    put_number_word(&mut tally.wanted, number_of(count)?)?;
    put_count(&mut tally.answered, source)?;
    tally.settle("count")
}

// Asks for the tokens of a text.
fn ask_tokens(tally: &mut Tally, source: &[u8], lines: &[Part<'_>]) -> Result<(), RowError> {
    put_lines(&mut tally.wanted, lines)?;
    put_answer(&mut tally.answered, source)?;
    tally.settle("tokens")
}

/// Asks the row that a paragraph is.
pub fn ask_token_rows(tally: &mut Tally, parts: &[Part<'_>]) -> Result<(), RowError> {
    let [source, lines @ ..] = parts else {
        return Ok(());
    };
    tally.begin(source.line);
    if let Ok((count, _)) = find(lines, "count ") {
        return ask_count(tally, &source.bytes, count);
    }
    ask_tokens(tally, &source.bytes, lines)
}
