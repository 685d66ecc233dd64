//! Rows of patterns.

use crate::overlaps;
use aa_glob::Pattern;
use test_row_texts::{
    Part, RowError, Tally, answer_of, put_all, put_each, put_number_word, put_word, split_at,
    words_of, yes_or_no,
};

// Appends the properties of a pattern except its matches: whether it is exact, how many items come before the first that isn't a byte for itself,
// and its text.
fn put_pattern(answered: &mut Vec<u8>, pattern: &Pattern) -> Result<(), RowError> {
    put_word(answered, yes_or_no(pattern.is_exact()))?;
    put_number_word(answered, pattern.literal_prefix())?;
    put_word(answered, pattern.text())
}

// Asks whether a pattern and its copy match a text.
fn ask_text(
    tally: &mut Tally,
    pattern: &Pattern,
    copy: &Pattern,
    wanted: &[u8],
    text: &[u8],
) -> Result<(), RowError> {
    tally.compare("matches", wanted, yes_or_no(pattern.matches(text)))?;
    tally.compare("matches of a copy", wanted, yes_or_no(copy.matches(text)))
}

// Asks which texts a pattern and its copy match: those after `yes`, and not those after `no`.
fn ask_texts(
    tally: &mut Tally,
    pattern: &Pattern,
    copy: &Pattern,
    words: &[Vec<u8>],
) -> Result<(), RowError> {
    let mut wanted = b"yes".as_slice();
    for word in words {
        match answer_of(word) {
            Some(answer) => wanted = answer,
            None => ask_text(tally, pattern, copy, wanted, word)?,
        }
    }
    Ok(())
}

// Compares a copy with its pattern.
fn ask_copy(tally: &mut Tally, pattern: &Pattern, copy: &Pattern) -> Result<(), RowError> {
    put_pattern(&mut tally.wanted, pattern)?;
    put_pattern(&mut tally.answered, copy)?;
    tally.settle("try_copy")
}

// Asks about a pattern and its copy.
fn ask_both(
    tally: &mut Tally,
    pattern: &Pattern,
    copy: &Pattern,
    words: &[Vec<u8>],
) -> Result<(), RowError> {
    ask_copy(tally, pattern, copy)?;
    ask_texts(tally, pattern, copy, words)
}

// Asks about a pattern that was read from a text.
fn ask_pattern(
    tally: &mut Tally,
    pattern: &Pattern,
    text: &[u8],
    words: &[Vec<u8>],
) -> Result<(), RowError> {
    tally.compare("text", text, pattern.text())?;
    let copy = pattern.try_copy(tally.alloc())?;
    ask_both(tally, pattern, &copy, words)
}

// `match PATTERN yes TEXT.. no TEXT..`
fn ask_match(tally: &mut Tally, text: &[u8], words: &[Vec<u8>]) -> Result<(), RowError> {
    match Pattern::read(tally.alloc(), text) {
        Ok(pattern) => ask_pattern(tally, &pattern, text, words),
        Err(error) => tally.compare("read", b"a pattern", error.name().as_bytes()),
    }
}

// Appends the properties of a text's pattern to the answer, or why it is none.
fn put_reading(tally: &mut Tally, text: &[u8]) -> Result<(), RowError> {
    match Pattern::read(tally.alloc(), text) {
        Ok(pattern) => put_pattern(&mut tally.answered, &pattern),
        Err(error) => put_word(&mut tally.answered, error.name().as_bytes()),
    }
}

// Asks whether a text reads as a pattern that is described so. Its text is wanted too.
fn ask_described(
    tally: &mut Tally,
    answer: &[u8],
    number: &[u8],
    text: &[u8],
) -> Result<(), RowError> {
    put_each(&mut tally.wanted, &[answer, number, text])?;
    put_reading(tally, text)?;
    tally.settle("is_exact and literal_prefix")
}

// `exact ANSWER NUMBER PATTERN..`
fn ask_exact(tally: &mut Tally, answer: &[u8], words: &[Vec<u8>]) -> Result<(), RowError> {
    let [number, patterns @ ..] = words else {
        return Err(RowError::NoNumber);
    };
    for pattern in patterns {
        ask_described(tally, answer, number, pattern)?;
    }
    Ok(())
}

// Asks for why a text is refused.
fn ask_refusal(tally: &mut Tally, wanted: &[u8], text: &[u8]) -> Result<(), RowError> {
    let answered = match Pattern::read(tally.alloc(), text) {
        Ok(_) => "a pattern",
        Err(error) => error.name(),
    };
    tally.compare("read", wanted, answered.as_bytes())
}

// `refuse NAME TEXT..`
fn ask_refusals(tally: &mut Tally, name: &[u8], texts: &[Vec<u8>]) -> Result<(), RowError> {
    for text in texts {
        ask_refusal(tally, name, text)?;
    }
    Ok(())
}

// The letters of the texts that `only` asks for.
const LETTERS: [u8; 4] = [b'/', b'a', b'b', 0];

// The text of five letters that a number spells, the first letter changing fastest.
fn spelled(number: usize) -> [u8; 5] {
    let mut rest = number;
    let mut text = [b'/'; 5];
    for letter in &mut text {
        *letter = LETTERS[rest % 4];
        rest /= 4;
    }
    text
}

// Appends a text to an answer where a pattern matches it.
fn put_matched(answered: &mut Vec<u8>, pattern: &Pattern, text: &[u8]) -> Result<(), RowError> {
    if pattern.matches(text) {
        put_word(answered, text)
    } else {
        Ok(())
    }
}

// Appends the texts of so many letters that a pattern matches to an answer.
fn put_matching(
    answered: &mut Vec<u8>,
    pattern: &Pattern,
    length: usize,
    count: usize,
) -> Result<(), RowError> {
    for number in 0..count {
        let text = spelled(number);
        put_matched(answered, pattern, text.get(..length).unwrap_or(&[]))?;
    }
    Ok(())
}

// Appends the texts of at most five letters that a pattern matches to an answer.
fn put_short_texts(answered: &mut Vec<u8>, pattern: &Pattern) -> Result<(), RowError> {
    for (length, count) in [1, 4, 16, 64, 256, 1_024].iter().enumerate() {
        put_matching(answered, pattern, length, *count)?;
    }
    Ok(())
}

// Appends which of all short texts match to the answer, or why a text is no pattern.
fn put_only(tally: &mut Tally, text: &[u8]) -> Result<(), RowError> {
    match Pattern::read(tally.alloc(), text) {
        Ok(pattern) => put_short_texts(&mut tally.answered, &pattern),
        Err(error) => put_word(&mut tally.answered, error.name().as_bytes()),
    }
}

// `only PATTERN TEXT..`: which of all short texts a pattern matches.
fn ask_only(tally: &mut Tally, text: &[u8], texts: &[Vec<u8>]) -> Result<(), RowError> {
    put_all(&mut tally.wanted, texts)?;
    put_only(tally, text)?;
    tally.settle("matches among short texts")
}

// Asks a row of these words, of a kind that begins with the first of them.
fn ask_words(
    tally: &mut Tally,
    kind: &str,
    first: &[u8],
    words: &[Vec<u8>],
) -> Result<(), RowError> {
    match kind {
        "match" => ask_match(tally, first, words),
        "overlap" => overlaps::ask(tally, first, words),
        "exact" => ask_exact(tally, first, words),
        "refuse" => ask_refusals(tally, first, words),
        "only" => ask_only(tally, first, words),
        _ => Err(RowError::NoSuchPatternRow),
    }
}

// Asks a row.
fn ask_line(tally: &mut Tally, line: &str) -> Result<(), RowError> {
    let (kind, rest) = split_at(line, " ")?;
    let words = words_of(tally.alloc(), rest, 0)?;
    match words.as_slice() {
        [first, words @ ..] => ask_words(tally, kind, first, words),
        [] => Err(RowError::OneWord),
    }
}

/// Asks the rows of a paragraph, one a line.
pub fn ask_pattern_rows(tally: &mut Tally, parts: &[Part<'_>]) -> Result<(), RowError> {
    for part in parts {
        tally.begin(part.line);
        ask_line(tally, part.head)?;
    }
    Ok(())
}
