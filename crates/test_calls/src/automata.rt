//! Automata of very many patterns, and what they remember.

use aa_glob::{Automaton, Pattern, Steps};
use std::alloc::{AllocError, Global};
use std::test::Fail;

// As many patterns of one text.
fn equal_patterns(alloc: Global, text: &[u8], count: usize) -> Result<Vec<Pattern>, AllocError> {
    let mut patterns = Vec::new(alloc);
    for _ in 0..count {
        if let Ok(pattern) = Pattern::read(alloc, text) {
            patterns.push(pattern)?;
        }
    }
    Ok(patterns)
}

// Has an automaton remember a path so many times. Whether all of it is remembered then.
fn remembers(alloc: Global, automaton: &mut Automaton, path: &[u8], times: usize) -> bool {
    let mut is_known = false;
    for _ in 0..times {
        is_known = automaton.remember(alloc, path);
    }
    is_known
}

// Whether so many patterns match a path.
fn finds(
    alloc: Global,
    automaton: &Automaton,
    path: &[u8],
    count: usize,
) -> Result<bool, AllocError> {
    let found = automaton.matching(alloc, path, &mut Steps::new())?;
    Ok(found.len() == count)
}

// Whether an automaton finds so many patterns for a path, before it remembers that and after.
fn finds_twice(alloc: Global, automaton: &mut Automaton, count: usize) -> Result<bool, AllocError> {
    let is_found = finds(alloc, automaton, b"/a/c", count)?;
    let is_known = remembers(alloc, automaton, b"/a/c", 2);
    Ok(is_found && is_known && finds(alloc, automaton, b"/a/c", count)?)
}

// Whether the automaton of so many patterns of one text has the states of one, and finds all of them.
fn finds_each(alloc: Global, count: usize) -> Result<bool, AllocError> {
    let patterns = equal_patterns(alloc, b"/a/{b,c}", count)?;
    let mut automaton = Automaton::build(alloc, &patterns)?;
    Ok(automaton.states() == 9 && finds_twice(alloc, &mut automaton, count)?)
}

#[test]
fn patterns_of_one_text_are_found_together(rt: HostRuntime) -> Result<(), Fail> {
    assert!(rt; finds_each(rt.alloc(), 16_384)?);
    Ok(())
}

// A slash and so many of a letter.
fn row_of(alloc: Global, letter: u8, count: usize) -> Result<Vec<u8>, AllocError> {
    let mut row = vec![in alloc; letter; count]?;
    row.insert(0, b'/')?;
    Ok(row)
}

// The automaton of five patterns, each a long row of a letter: one byte more of a row leads to one state more, and to no other.
fn automaton_of_rows(alloc: Global) -> Result<Automaton, AllocError> {
    let mut patterns = Vec::new(alloc);
    for letter in b'a'..=b'e' {
        let row = row_of(alloc, letter, 4_000)?;
        if let Ok(pattern) = Pattern::read(alloc, &row) {
            patterns.push(pattern)?;
        }
    }
    Automaton::build(alloc, &patterns)
}

// Has an automaton remember the rows of three letters, as far as there is room: two fill nearly all of it.
fn fill(alloc: Global, automaton: &mut Automaton) -> Result<(), AllocError> {
    for letter in b'a'..=b'c' {
        let row = row_of(alloc, letter, 4_000)?;
        remembers(alloc, automaton, &row, 300);
    }
    Ok(())
}

// Whether so many patterns match a row of so many letters.
fn finds_row(
    alloc: Global,
    automaton: &Automaton,
    letter: u8,
    letters: usize,
    count: usize,
) -> Result<bool, AllocError> {
    let row = row_of(alloc, letter, letters)?;
    finds(alloc, automaton, &row, count)
}

// Whether each row is found, and none that is one letter short.
fn finds_rows(alloc: Global, automaton: &Automaton) -> Result<bool, AllocError> {
    for letter in b'a'..=b'e' {
        let is_found = finds_row(alloc, automaton, letter, 4_000, 1)?;
        if !is_found || !finds_row(alloc, automaton, letter, 3_999, 0)? {
            return Ok(false);
        }
    }
    Ok(true)
}

// Whether rows are found where there is no room to remember one more, and where it was forgotten to make room.
fn forgets(alloc: Global) -> Result<bool, AllocError> {
    let mut automaton = automaton_of_rows(alloc)?;
    fill(alloc, &mut automaton)?;
    let has_room = remembers(alloc, &mut automaton, b"/e", 3);
    let is_found = finds_rows(alloc, &automaton)?;
    let has_room_again = remembers(alloc, &mut automaton, b"/e", 20_000);
    Ok(!has_room && is_found && has_room_again && finds_rows(alloc, &automaton)?)
}

#[test]
fn what_is_remembered_has_an_end(rt: HostRuntime) -> Result<(), Fail> {
    assert!(rt; forgets(rt.alloc())?);
    Ok(())
}
