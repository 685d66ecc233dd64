//! How much work it is to ask the automaton of some patterns for some paths, and how long that takes beside asking each pattern by itself.

use aa_glob::{Automaton, Pattern, Steps};
use anyhow::{Result, bail};
use std::alloc::{AllocError, Global};
use std::rt::{Clock, Env, Files};
use std::time::Instant;
use std::{env, fs, str};
use test_row_texts::{Part, RowError, Tally, find};

// The patterns of lines; other lines are passed over.
fn patterns_in(alloc: Global, text: &str) -> Result<Vec<Pattern>, AllocError> {
    let mut patterns = Vec::new(alloc);
    for line in text.lines() {
        if let Ok(pattern) = Pattern::read(alloc, line.as_bytes()) {
            patterns.push(pattern)?;
        }
    }
    Ok(patterns)
}

// How many bytes the texts of patterns have.
fn bytes_of(patterns: &[Pattern]) -> usize {
    let mut bytes: usize = 0;
    for pattern in patterns {
        bytes = bytes.saturating_add(pattern.text().len());
    }
    bytes
}

// Asks an automaton for each path: returns how many matches there were.
fn ask_automaton(
    alloc: Global,
    automaton: &Automaton,
    paths: &str,
    steps: &mut Steps,
) -> Result<usize, AllocError> {
    let mut matches: usize = 0;
    for path in paths.lines() {
        let found = automaton.matching(alloc, path.as_bytes(), steps)?;
        matches = matches.saturating_add(found.len());
    }
    Ok(matches)
}

// Asks each pattern by itself for a path: returns how many matches there were.
fn ask_each(patterns: &[Pattern], path: &str) -> usize {
    let mut matches: usize = 0;
    for pattern in patterns {
        matches = matches.saturating_add(usize::from(pattern.matches(path.as_bytes())));
    }
    matches
}

// Asks each pattern by itself for all paths: returns how many matches there were.
fn ask_patterns(patterns: &[Pattern], paths: &str) -> usize {
    let mut matches: usize = 0;
    for path in paths.lines() {
        matches = matches.saturating_add(ask_each(patterns, path));
    }
    matches
}

// The line on how much work all paths are.
fn work_of(alloc: Global, patterns: &[Pattern], paths: &str) -> Result<String, AllocError> {
    let automaton = Automaton::build(alloc, patterns)?;
    let mut steps = Steps::new();
    let matches = ask_automaton(alloc, &automaton, paths, &mut steps)?;
    let (count, bytes) = (patterns.len(), bytes_of(patterns));
    let (states, visits) = (automaton.states(), steps.count());
    format!(in alloc;
        "patterns {count}, bytes {bytes}, states {states}, matches {matches}, visits {visits}"
    )
}

// The text of bytes.
fn text_of(bytes: &[u8]) -> Result<&str, RowError> {
    match str::from_utf8(bytes) {
        Ok(text) => Ok(text),
        Err(_) => Err(RowError::NoSuchPatternRow),
    }
}

// Asks how much work the paths are that lines have.
fn ask_work(tally: &mut Tally, patterns: &str, paths: &str, wanted: &str) -> Result<(), RowError> {
    let patterns = patterns_in(tally.alloc(), patterns)?;
    let told = work_of(tally.alloc(), &patterns, paths)?;
    tally.compare("work", wanted.as_bytes(), told.as_bytes())
}

/// Asks the row that a paragraph is: the patterns and the paths, one a line, and how much work the paths are.
pub fn ask_work_rows(tally: &mut Tally, parts: &[Part<'_>]) -> Result<(), RowError> {
    let Some(first) = parts.first() else {
        return Ok(());
    };
    tally.begin(first.line);
    let (wanted, _) = find(parts, "work ")?;
    let (_, patterns) = find(parts, "patterns")?;
    let (_, paths) = find(parts, "paths")?;
    ask_work(tally, text_of(patterns)?, text_of(paths)?, wanted)
}

// How many nanoseconds an automaton takes for all paths, so many times.
fn time_of_rounds<R: Clock>(
    rt: &R,
    alloc: Global,
    automaton: &Automaton,
    paths: &str,
    rounds: u32,
) -> Result<u128> {
    let start = Instant::now(rt)?;
    for _ in 0..rounds {
        ask_automaton(alloc, automaton, paths, &mut Steps::new())?;
    }
    Ok(start.elapsed(rt)?.as_nanos())
}

// Prints how much work all paths are.
fn print_work<R: Print>(rt: &R, alloc: Global, patterns: &[Pattern], paths: &str) -> Result<()> {
    let work = work_of(alloc, patterns, paths)?;
    println!(rt; "{work}")?;
    Ok(())
}

// Prints how long an automaton takes to be made, and all paths.
fn print_automaton<R: Print + Clock>(
    rt: &R,
    alloc: Global,
    patterns: &[Pattern],
    paths: &str,
    rounds: u32,
) -> Result<()> {
    let start = Instant::now(rt)?;
    let automaton = Automaton::build(alloc, patterns)?;
    let made = start.elapsed(rt)?.as_micros();
    let asked = time_of_rounds(rt, alloc, &automaton, paths, rounds)?;
    println!(rt; "automaton: made in {made} us, asked {rounds} times in {asked} ns")?;
    Ok(())
}

// Prints how long all paths take each pattern by itself.
fn print_patterns<R: Print + Clock>(rt: &R, patterns: &[Pattern], paths: &str) -> Result<()> {
    let start = Instant::now(rt)?;
    let matches = ask_patterns(patterns, paths);
    let asked = start.elapsed(rt)?.as_nanos();
    println!(rt; "each pattern: asked once in {asked} ns, matches {matches}")?;
    Ok(())
}

// Prints how much work all paths are, and over so many rounds how long they take: no time where there is no round.
fn print_measures<R: Print + Clock + AllocGlobal>(
    rt: &R,
    patterns: &[Pattern],
    paths: &str,
    rounds: u32,
) -> Result<()> {
    print_work(rt, rt.alloc(), patterns, paths)?;
    if rounds == 0 {
        return Ok(());
    }
    print_automaton(rt, rt.alloc(), patterns, paths, rounds)?;
    print_patterns(rt, patterns, paths)
}

// The patterns that the lines of a file read as.
fn read_patterns<R: Files + AllocGlobal>(rt: &R, name: &str) -> Result<Vec<Pattern>> {
    let text = fs::read_to_string(rt, name)?;
    Ok(patterns_in(rt.alloc(), text.as_str())?)
}

// Measures the patterns of one file and the paths of another.
fn measure_files<R: Files + Print + Clock + AllocGlobal>(
    rt: &R,
    patterns: &str,
    paths: &str,
    rounds: u32,
) -> Result<()> {
    let patterns = read_patterns(rt, patterns)?;
    let paths = fs::read_to_string(rt, paths)?;
    print_measures(rt, &patterns, paths.as_str(), rounds)
}

// Measures what words ask for: the names of two files, and a number of rounds.
fn measure_words<R: Files + Print + Clock + AllocGlobal>(rt: &R, words: &[String]) -> Result<()> {
    let [_, _, patterns, paths, rounds] = words else {
        bail!("behind --measure stand PATTERNS, PATHS and ROUNDS");
    };
    let rounds = rounds.as_str().parse::<u32>()?;
    measure_files(rt, patterns.as_str(), paths.as_str(), rounds)
}

// Whether the first of a program's arguments asks to measure.
fn is_asked(words: &[String]) -> bool {
    match words {
        [_, word, ..] => word.as_str() == "--measure",
        _ => false,
    }
}

/// `--measure PATTERNS PATHS ROUNDS`, the names of two files with a pattern and a path a line: prints how much work the paths are, and over
/// so many rounds how long they take. Whether the program's arguments ask for that.
pub fn measures<R: Files + Env + Print + Clock + AllocGlobal>(rt: &R) -> Result<bool> {
    let words: Vec<String> = env::args(rt)?.collect(rt.alloc())?;
    if !is_asked(&words) {
        return Ok(false);
    }
    measure_words(rt, &words)?;
    Ok(true)
}
