//! The access of a file rule.

ghost use Rattle.std.specs.Prelude.{◌≡◌, ◌<◌, Ok, Err, IfOk, IfErr, length};
ghost use Rattle.aa_profile_parsing.specs.Readings.{IsFault, IsRead};
ghost use Rattle.aa_profile_rules.specs.Access.{access, access_of, is_misplaced, refusal_of_access, whole_access};

use aa_profile_data::{ExecWord, Perms, WrittenAccess};
use aa_profile_parsing::{Fault, GrammarRefusal, refusal_at};
use aa_text_tokens::{Spliced, TokenKind};
use bitflags::Flags;

/// What a file rule allows or denies.
#[derive(Clone, Copy)]
pub struct Access {
    /// Its letters; the bare `x` of a deny rule is among them, and no other rule has it.
    pub letters: Perms,
    /// Its exec word, if it has one; a deny rule has none.
    pub word: Option<ExecWord>,
}

// Whether an access doesn't fit its rule: an exec word in a deny rule, or a bare `x` in another.
fn is_misplaced(deny: bool, written: WrittenAccess) -> bool
    ensures { result ≡ is_misplaced deny written }
{
    if deny {
        written.word.is_some()
    } else {
        written.letters.contains(Perms::EXEC)
    }
}

// Why an access is refused in a rule, by whether the rule denies.
fn refusal_of_access(deny: bool, written: WrittenAccess) -> Option<GrammarRefusal>
    ensures { result ≡ refusal_of_access deny written }
{
    if written.has_two_words() {
        Some(GrammarRefusal::TwoExec)
    } else if is_misplaced(deny, written) {
        Some(GrammarRefusal::ExecQualifier)
    } else if written.letters.contains(Perms::WRITE) && written.letters.contains(Perms::APPEND) {
        Some(GrammarRefusal::WriteAppend)
    } else {
        None
    }
}

// What a word allows or denies in a rule, by whether the rule denies.
fn access_of(deny: bool, text: &[u8]) -> Result<Access, GrammarRefusal>
    ensures ok { IfOk result (λ access. access_of deny text.now ≡ Ok access) }
    ensures refused { IfErr result (λ refusal. access_of deny text.now ≡ Err refusal) }
{
    let Some(written) = WrittenAccess::of_text(text) else {
        return Err(GrammarRefusal::BadAccess);
    };
    match refusal_of_access(deny, written) {
        Some(refusal) => Err(refusal),
        None => Ok(Access {
            letters: written.letters,
            word: written.word,
        }),
    }
}

// The access with which tokens begin, in a rule that denies or in one that doesn't, and what follows it.
pub fn read_access<'a>(
    deny: bool,
    tokens: &'a [Spliced<'a>],
) -> Result<(Access, &'a [Spliced<'a>]), Fault>
    ensures ok { IfOk result (IsRead (λ found. found) (access deny) tokens.now) }
    ensures refused { IfErr result (IsFault (access deny) tokens.now) }
    ensures shorter { IfOk result (λ read. length read.1.now < length tokens.now) }
{
    let [token, behind @ ..] = tokens else {
        return Err(Fault::RanOut);
    };
    if token.token.kind != TokenKind::Word {
        return Err(refusal_at(GrammarRefusal::BadToken, *token));
    }
    match access_of(deny, token.token.text) {
        Ok(access) => Ok((access, behind)),
        Err(refusal) => Err(refusal_at(refusal, *token)),
    }
}

/// The access of the word `file` alone. It takes no memory.
pub fn whole_access(deny: bool) -> Access
    ensures { result ≡ whole_access deny }
{
    let letters = Perms::READ
        .union(Perms::WRITE)
        .union(Perms::LINK)
        .union(Perms::LOCK)
        .union(Perms::MAP);
    if deny {
        Access {
            letters: letters.union(Perms::EXEC),
            word: None,
        }
    } else {
        Access {
            letters,
            word: Some(ExecWord::Inherit),
        }
    }
}
