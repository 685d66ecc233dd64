//! Rows of automata.

use aa_glob::{Automaton, Pattern, Steps};
use std::alloc::Global;
use std::str;
use test_row_texts::{
    Part, RowError, Tally, number_of, put_number, put_number_word, put_word, split_at, words_of,
    yes_or_no,
};

// The pattern of a text.
fn read(alloc: Global, text: &[u8]) -> Result<Pattern, RowError> {
    match Pattern::read(alloc, text) {
        Ok(pattern) => Ok(pattern),
        Err(_) => Err(RowError::NoSuchPatternRow),
    }
}

// The patterns of some texts.
fn read_all(alloc: Global, texts: &[Vec<u8>]) -> Result<Vec<Pattern>, RowError> {
    let mut patterns = Vec::new(alloc);
    for text in texts {
        patterns.push(read(alloc, text)?)?;
    }
    Ok(patterns)
}

// Appends one more place to an answer.
fn put_place(answered: &mut Vec<u8>, place: usize) -> Result<(), RowError> {
    if !answered.is_empty() {
        answered.push(b',')?;
    }
    put_number(answered, place)
}

// Makes the answer `none` where it has no place.
fn put_none(answered: &mut Vec<u8>) -> Result<(), RowError> {
    if answered.is_empty() {
        put_word(answered, b"none")
    } else {
        Ok(())
    }
}

// Appends places to an answer.
fn put_places(answered: &mut Vec<u8>, places: &[usize]) -> Result<(), RowError> {
    for place in places {
        put_place(answered, *place)?;
    }
    put_none(answered)
}

// Appends the places of the patterns that match a path to an answer, each of them asked by itself.
fn put_matches(answered: &mut Vec<u8>, patterns: &[Pattern], path: &[u8]) -> Result<(), RowError> {
    for (place, pattern) in patterns.iter().enumerate() {
        if pattern.matches(path) {
            put_place(answered, place)?;
        }
    }
    put_none(answered)
}

// Puts what is wanted: places with commas between, or `none`.
fn want(tally: &mut Tally, answer: &[u8]) -> Result<(), RowError> {
    if answer == b"none".as_slice() {
        return put_none(&mut tally.wanted);
    }
    tally.wanted.extend_from_slice(answer)?;
    Ok(())
}

// Asks an automaton for the places of the patterns that match a path.
fn ask_automaton(
    tally: &mut Tally,
    automaton: &Automaton,
    path: &[u8],
    answer: &[u8],
) -> Result<(), RowError> {
    let places = automaton.matching(tally.alloc(), path, &mut Steps::new())?;
    want(tally, answer)?;
    put_places(&mut tally.answered, &places)?;
    tally.settle("matching")
}

// How often an automaton is asked of a path that it remembers more and more of: what is missed once is only noted.
const TIMES_REMEMBERED: usize = 3;

// Asks an automaton that remembers the path, in part and then, where it isn't long, in whole.
fn ask_remembering(
    tally: &mut Tally,
    automaton: &mut Automaton,
    path: &[u8],
    answer: &[u8],
) -> Result<(), RowError> {
    for _ in 0..TIMES_REMEMBERED {
        automaton.remember(tally.alloc(), path);
        ask_automaton(tally, automaton, path, answer)?;
    }
    Ok(())
}

// `matching PATH PLACES PATTERN..`
fn ask_matching(
    tally: &mut Tally,
    path: &[u8],
    answer: &[u8],
    texts: &[Vec<u8>],
) -> Result<(), RowError> {
    let patterns = read_all(tally.alloc(), texts)?;
    want(tally, answer)?;
    put_matches(&mut tally.answered, &patterns, path)?;
    tally.settle("matches of each pattern")?;
    let mut automaton = Automaton::build(tally.alloc(), &patterns)?;
    ask_automaton(tally, &automaton, path, answer)?;
    ask_remembering(tally, &mut automaton, path, answer)
}

// The automaton of the patterns of some texts.
fn automaton_of(alloc: Global, texts: &[Vec<u8>]) -> Result<Automaton, RowError> {
    let patterns = read_all(alloc, texts)?;
    Ok(Automaton::build(alloc, &patterns)?)
}

// `states NUMBER PATTERN..`
fn ask_states(tally: &mut Tally, number: &[u8], texts: &[Vec<u8>]) -> Result<(), RowError> {
    let automaton = automaton_of(tally.alloc(), texts)?;
    put_word(&mut tally.wanted, number)?;
    put_number_word(&mut tally.answered, automaton.states())?;
    tally.settle("states")
}

// The number of a word.
fn number_in(word: &[u8]) -> Result<usize, RowError> {
    match str::from_utf8(word) {
        Ok(text) => number_of(text),
        Err(_) => Err(RowError::NotANumber),
    }
}

// Whether a path takes at least so many visits, and no more than one for each state at each byte and at the end.
fn visits_as_many(
    alloc: Global,
    automaton: &Automaton,
    least: usize,
    path: &[u8],
) -> Result<bool, RowError> {
    let mut steps = Steps::new();
    automaton.matching(alloc, path, &mut steps)?;
    let places = (path.len() as u128).saturating_add(1);
    let most = places.saturating_mul(automaton.states() as u128);
    Ok(least as u128 <= steps.count() && steps.count() <= most)
}

// `visits LEAST PATH PATTERN..`
fn ask_visits(
    tally: &mut Tally,
    least: &[u8],
    path: &[u8],
    texts: &[Vec<u8>],
) -> Result<(), RowError> {
    let automaton = automaton_of(tally.alloc(), texts)?;
    let as_many = visits_as_many(tally.alloc(), &automaton, number_in(least)?, path)?;
    tally.compare("visits", b"yes", yes_or_no(as_many))
}

// Asks a row of these words.
fn ask_words(tally: &mut Tally, kind: &str, words: &[Vec<u8>]) -> Result<(), RowError> {
    match (kind, words) {
        ("matching", [path, answer, texts @ ..]) => ask_matching(tally, path, answer, texts),
        ("states", [number, texts @ ..]) => ask_states(tally, number, texts),
        ("visits", [least, path, texts @ ..]) => ask_visits(tally, least, path, texts),
        _ => Err(RowError::NoSuchKind),
    }
}

// Asks a row.
fn ask_line(tally: &mut Tally, line: &str) -> Result<(), RowError> {
    let (kind, rest) = split_at(line, " ")?;
    let words = words_of(tally.alloc(), rest, 0)?;
    ask_words(tally, kind, &words)
}

/// Asks the rows of a paragraph, one a line.
pub fn ask_automaton_rows(tally: &mut Tally, parts: &[Part<'_>]) -> Result<(), RowError> {
    for part in parts {
        tally.begin(part.line);
        ask_line(tally, part.head)?;
    }
    Ok(())
}
