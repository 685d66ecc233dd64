//! The qualifiers of a rule: the words before it.

ghost use Rattle.std.specs.Prelude.{◌≡◌, ◌≤◌, IfOk, IfErr, length};
ghost use Rattle.aa_text_tokens.specs.SeenSplicedTokens.{seen_spliced};
ghost use Rattle.aa_profile_parsing.specs.Readings.{IsFault, IsRead};
ghost use Rattle.aa_profile_rules.specs.Qualifiers.{qualified_by, qualifiers, unqualified};

use aa_profile_parsing::{Fault, GrammarRefusal, is_word_of, refusal_at};
use aa_text_tokens::Spliced;

/// The qualifiers of a rule, which are words before it (apparmor.d(5)).
#[derive(Clone, Copy)]
pub struct Qualifiers {
    /// `audit`: what it decides is logged.
    pub audit: bool,
    /// `allow`, as rules do that don't deny.
    pub allow: bool,
    /// `deny`: it denies what it covers.
    pub deny: bool,
    /// `owner`: it applies only where the task's user owns the file.
    pub owner: bool,
}

// No qualifier.
fn unqualified() -> Qualifiers
    ensures { result ≡ unqualified }
{
    Qualifiers {
        audit: false,
        allow: false,
        deny: false,
        owner: false,
    }
}

// Some qualifiers and one more, where the token is one.
fn qualified_by(before: Qualifiers, token: Spliced<'_>) -> Option<Qualifiers>
    ensures { result ≡ qualified_by before (seen_spliced token.entry) }
{
    if is_word_of(b"audit", token) {
        Some(Qualifiers {
            audit: true,
            ..before
        })
    } else if is_word_of(b"allow", token) {
        Some(Qualifiers {
            allow: true,
            ..before
        })
    } else if is_word_of(b"deny", token) {
        Some(Qualifiers {
            deny: true,
            ..before
        })
    } else if is_word_of(b"owner", token) {
        Some(Qualifiers {
            owner: true,
            ..before
        })
    } else {
        None
    }
}

// The qualifiers with which tokens begin, and what follows them.
pub fn read_qualifiers<'a>(
    tokens: &'a [Spliced<'a>],
) -> Result<(Qualifiers, &'a [Spliced<'a>]), Fault>
    ensures ok { IfOk result (IsRead (λ found. found) (qualifiers unqualified) tokens.now) }
    ensures refused { IfErr result (IsFault (qualifiers unqualified) tokens.now) }
    ensures within { IfOk result (λ read. length read.1.now ≤ length tokens.now) }
{
    let mut found = unqualified();
    let mut rest = tokens;
    while let [token, behind @ ..] = rest {
        let Some(more) = qualified_by(found, *token) else {
            break;
        };
        if more.allow && more.deny {
            return Err(refusal_at(GrammarRefusal::BadToken, *token));
        }
        found = more;
        rest = behind;
    }
    Ok((found, rest))
}
