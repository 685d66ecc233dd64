//! From where requests are read.

ghost use Rattle.std.specs.Prelude.{◌≡◌, ◌++◌, ◌∷◌, [], IfOk, OnOk, Some, map};
ghost use Rattle.std.specs.List.{list_any};
ghost use Rattle.aa_set_commands.specs.Words.{words_of};
ghost use Rattle.aatry_log_lines.specs.Lines.{seen_line};
ghost use Rattle.aatry_questions.specs.Names.{is_backslash, unescaped};
ghost use Rattle.aatry_requests.specs.Sources.{told_by_words, told_in, told_in_log, told_meant};

use aa_set_commands::{LONGEST_LINE, Words};
use aatry_log_lines::{LogLine, LoggedQuestion, told_by};
use aatry_questions::{has_backslash, how_names_read_back, question_meant, unescaped};
use std::alloc::{AllocError, Global};

/// The kind of lines from which requests are read.
#[derive(Clone, Copy)]
pub enum Source {
    /// Lines of a kernel's log, as audit.log or syslog has them. One of more than 65,536 bytes can't be read.
    Log,
    /// Questions, each in the words that mean one (`aatry_questions::question_meant`), like those after `ask` in a command, by the bytes that these
    /// stand for (`aatry_questions::unescaped`).
    Questions,
}

// Whether some word has a backslash.
fn have_backslash(words: &[&[u8]]) -> bool
    ensures { result ≡ list_any (list_any is_backslash) (map (λ word. word.now) words.now) }
{
    let mut rest = words;
    while let [word, behind @ ..] = rest {
        if has_backslash(word) {
            return true;
        }
        rest = behind;
    }
    false
}

// What words hold.
fn told_meant<'a>(words: &[&'a [u8]]) -> LogLine<'a>
    ensures { seen_line result ≡ told_meant (map (λ word. word.now) words.now) }
{
    if words.is_empty() {
        return LogLine::NoRequest;
    }
    match question_meant(words) {
        Ok(question) => LogLine::Asks(LoggedQuestion::of(question)),
        Err(_) => LogLine::Unreadable,
    }
}

// Appends the bytes that a word stands for to `read`.
fn push_unescaped(alloc: Global, word: &[u8], read: &mut Vec<Vec<u8>>) -> Result<(), AllocError>
    ensures { OnOk result (map (λ word. word.items) read.new.items ≡ map (λ word. word.items) read.old.items ++ unescaped word.now ∷ []) }
{
    let bytes = unescaped(alloc, word)?;
    read.push(bytes)?;
    Ok(())
}

// The bytes that words stand for.
fn unescaped_words(alloc: Global, words: &[&[u8]]) -> Result<Vec<Vec<u8>>, AllocError>
    ensures { IfOk result (λ read. map (λ word. word.items) read.items ≡ map unescaped (map (λ word. word.now) words.now)) }
{
    let mut read = Vec::new(alloc);
    let mut rest = words;
    while let [word, behind @ ..] = rest {
        push_unescaped(alloc, word, &mut read)?;
        rest = behind;
    }
    Ok(read)
}

// The words, borrowed.
fn borrowed(alloc: Global, words: &[Vec<u8>]) -> Result<Vec<&[u8]>, AllocError>
    ensures { IfOk result (λ lent. map (λ word. word.now) lent.items ≡ map (λ word. word.items) words.now) }
{
    let mut lent = Vec::new(alloc);
    let mut rest = words;
    while let [word, behind @ ..] = rest {
        lent.push(word.as_slice())?;
        rest = behind;
    }
    Ok(lent)
}

// What words hold, by the bytes that they stand for.
fn told_unescaped<'a>(alloc: Global, words: &[&[u8]]) -> Result<LogLine<'a>, AllocError>
    ensures { IfOk result (λ told. seen_line told ≡ told_meant (map unescaped (map (λ word. word.now) words.now))) }
{
    let read = unescaped_words(alloc, words)?;
    let lent = borrowed(alloc, &read)?;
    told_meant(&lent).into_owned(alloc)
}

// What words hold, by the bytes that they stand for; nothing is copied of words without a backslash.
fn told_by_words<'a>(alloc: Global, words: &[&'a [u8]]) -> Result<LogLine<'a>, AllocError>
    ensures { IfOk result (λ told. seen_line told ≡ told_by_words (Some (map (λ word. word.now) words.now))) }
{
    how_names_read_back();
    if have_backslash(words) {
        return told_unescaped(alloc, words);
    }
    Ok(told_meant(words))
}

// What a line of a file of questions holds.
fn told_by_question(alloc: Global, line: &[u8]) -> Result<LogLine<'_>, AllocError>
    ensures { IfOk result (λ told. seen_line told ≡ told_by_words (words_of line.now)) }
{
    match Words::cut(line) {
        Ok(words) => told_by_words(alloc, words.as_slice()),
        Err(_) => Ok(LogLine::Unreadable),
    }
}

/// What a line of a log holds, which can't be read where it has more than 65,536 bytes.
///
/// # Errors
///
/// Where memory runs out.
pub fn told_in_log(alloc: Global, line: &[u8]) -> Result<LogLine<'_>, AllocError>
    ensures { IfOk result (λ told. seen_line told ≡ told_in_log line.now) }
{
    if line.len() > LONGEST_LINE {
        return Ok(LogLine::Unreadable);
    }
    told_by(alloc, line)
}

/// What a line of a source holds. It takes memory only for names that a line of a log has in hexadecimal, and for words of a question that have a
/// backslash.
///
/// # Errors
///
/// Where memory runs out.
pub fn told_in(alloc: Global, source: Source, line: &[u8]) -> Result<LogLine<'_>, AllocError>
    ensures { IfOk result (λ told. seen_line told ≡ told_in source line.now) }
{
    match source {
        Source::Log => told_in_log(alloc, line),
        Source::Questions => told_by_question(alloc, line),
    }
}
