//! What may come before the profiles of a file: assignments and `abi` lines.

ghost use Rattle.std.specs.Prelude.{◌≡◌, ◌<◌, ◌≤◌, Ok, IfOk, IfErr, false, length};
ghost use Rattle.aa_text_tokens.specs.SeenSplicedTokens.{seen_spliced};
ghost use Rattle.aa_profile_parsing.specs.Readings.{IsFault, IsFaultOrMemory, IsRead};
ghost use Rattle.aa_profile_parsing.specs.SeenTokens.{seen_tokens};
ghost use Rattle.aa_profile_grammar.specs.Preamble.{assignment, behind_version, next_assignment, preamble, value_count, version_or_end};
ghost use Rattle.aa_profile_grammar.specs.code.Readings.{IsNext};
ghost use Rattle.aa_profile_grammar.specs.code.Seen.{is_end, seen_items};
ghost use Rattle.aa_profile_grammar.specs.SeenFiles.{seen_assignment};

use crate::sequence::{Next, Rest};
use aa_profile_parsing::{Fault, is_word_of, read_comma, read_text, unexpected};
use aa_text_tokens::{Spliced, TokenKind};
use std::alloc::Global;

/// An assignment of a variable.
#[derive(Clone, Copy)]
pub struct Assignment<'a> {
    /// The token that names the variable, up to its sign.
    pub sign: Spliced<'a>,
    /// Whether the sign is `+=`.
    pub append: bool,
    /// The tokens of the values: at least one.
    pub values: &'a [Spliced<'a>],
}

// With how many values tokens begin.
fn value_count(tokens: &[Spliced<'_>]) -> usize
    ensures count { result ≡ value_count (seen_tokens tokens.now) }
    ensures within { result ≤ length tokens.now }
{
    let mut count = 0;
    let mut rest = tokens;
    while let [token, behind @ ..] = rest {
        if token.token.kind != TokenKind::Value {
            break;
        }
        count += 1;
        rest = behind;
    }
    count
}

// The assignment after its sign, and what follows it.
fn read_assignment<'a>(
    sign: Spliced<'a>,
    append: bool,
    tokens: &'a [Spliced<'a>],
) -> Result<(Assignment<'a>, &'a [Spliced<'a>]), Fault>
    ensures ok { IfOk result (IsRead seen_assignment (assignment (seen_spliced sign.entry) append) tokens.now) }
    ensures refused { IfErr result (IsFault (assignment (seen_spliced sign.entry) append) tokens.now) }
    ensures within { IfOk result (λ read. length read.1.now ≤ length tokens.now) }
{
    let count = value_count(tokens);
    if count == 0 {
        return Err(unexpected(tokens));
    }
    Ok((
        Assignment {
            sign,
            append,
            values: &tokens[..count],
        },
        &tokens[count..],
    ))
}

// What follows the version of the language (`abi`): a text and a Comma.
pub fn read_version<'a>(tokens: &'a [Spliced<'a>]) -> Result<&'a [Spliced<'a>], Fault>
    ensures ok { IfOk result (λ behind. behind_version (seen_tokens tokens.now) ≡ Ok (seen_tokens behind.now)) }
    ensures refused { IfErr result (IsFault behind_version tokens.now) }
    ensures shorter { IfOk result (λ behind. length behind.now < length tokens.now) }
{
    let (_, behind) = read_text(tokens)?;
    read_comma(behind)
}

// What comes next before the profiles, where it is no assignment, and what follows it.
fn next_version<'a>(rest: Rest<'a>) -> Result<(Next<Assignment<'a>>, Rest<'a>), Fault>
    ensures ok { IfOk result (IsNext seen_assignment version_or_end rest.entry) }
    ensures refused { IfErr result (IsFault version_or_end rest.entry.tokens.now) }
    ensures shorter { IfOk result (λ read. is_end read.0 ≡ false → length read.1.tokens.now < length rest.entry.tokens.now) }
{
    match rest.tokens {
        [token, behind @ ..] if is_word_of(b"abi", *token) => {
            let tokens = read_version(behind)?;
            Ok((Next::Nothing, Rest { tokens }))
        }
        _ => Ok((Next::End, rest)),
    }
}

// What comes next before the profiles, and what follows it.
fn next_assignment<'a>(rest: Rest<'a>) -> Result<(Next<Assignment<'a>>, Rest<'a>), Fault>
    ensures ok { IfOk result (IsNext seen_assignment next_assignment rest.entry) }
    ensures refused { IfErr result (IsFault next_assignment rest.entry.tokens.now) }
    ensures shorter { IfOk result (λ read. is_end read.0 ≡ false → length read.1.tokens.now < length rest.entry.tokens.now) }
{
    let [token, behind @ ..] = rest.tokens else {
        return Ok((Next::End, rest));
    };
    let TokenKind::Assign { append } = token.token.kind else {
        return next_version(rest);
    };
    let (assignment, tokens) = read_assignment(*token, append, behind)?;
    Ok((Next::Item(assignment), Rest { tokens }))
}

/// The assignments before the profiles, and what follows them.
///
/// # Errors
///
/// Each at the first token, from the left, that the grammar doesn't take at its place.
/// - `BadToken`: an assignment without a value, or a version of the language that isn't a text and a Comma.
/// - `RanOut`: the tokens end within an assignment or a version.
/// - `Memory`: memory ran out.
pub fn read_preamble<'a>(
    alloc: Global,
    tokens: &'a [Spliced<'a>],
) -> Result<(Vec<Assignment<'a>>, &'a [Spliced<'a>]), Fault>
    ensures ok { IfOk result (IsRead (seen_items seen_assignment) preamble tokens.now) }
    ensures refused { IfErr result (IsFaultOrMemory preamble tokens.now) }
{
    let mut assignments = Vec::new(alloc);
    let mut rest = Rest { tokens };
    loop {
        let (next, behind) = next_assignment(rest)?;
        match next {
            Next::Item(assignment) => assignments.push(assignment)?,
            Next::Nothing => {}
            Next::End => return Ok((assignments, behind.tokens)),
        }
        rest = behind;
    }
}
