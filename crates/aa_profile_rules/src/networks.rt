//! The sockets of a rule.

ghost use Rattle.std.specs.Prelude.{◌≡◌, ◌≤◌, IfOk, IfErr, length};
ghost use Rattle.aa_profile_parsing.specs.Readings.{IsFault, IsRead};
ghost use Rattle.aa_profile_rules.specs.Networks.{all_sockets, first_named, named_in, second_named, sockets, sockets_behind, stands_behind};

use aa_profile_data::{domain_number, has_protocols, is_protocol, kind_number};
use aa_profile_parsing::{Fault, GrammarRefusal, refusal_at};
use aa_text_tokens::{Spliced, TokenKind};

/// The sockets that a rule covers, by the numbers of `aa_profile_data`.
#[derive(Clone, Copy)]
pub struct Sockets {
    /// Their domain; `None` where the rule covers all.
    pub domain: Option<u8>,
    /// Their type, or their protocol; `None` where the rule covers all.
    pub kind: Option<u8>,
}

/// All sockets. It takes no memory.
pub fn all_sockets() -> Sockets
    ensures { result ≡ all_sockets }
{
    Sockets {
        domain: None,
        kind: None,
    }
}

// The sockets that a rule's first word names: those of a domain, or else of a type or a protocol.
fn first_named(text: &[u8]) -> Option<Sockets>
    ensures { result ≡ first_named text.now }
{
    if let Some(domain) = domain_number(text) {
        return Some(Sockets {
            domain: Some(domain),
            kind: None,
        });
    }
    let kind = kind_number(text)?;
    Some(Sockets {
        domain: None,
        kind: Some(kind),
    })
}

// Whether a kind may follow a domain: a type may follow each, a protocol those that have protocols.
fn stands_behind(domain: u8, kind: u8) -> bool
    ensures { result ≡ stands_behind domain kind }
{
    !is_protocol(kind) || has_protocols(domain)
}

// The sockets that a domain and a second word name.
fn named_in(domain: u8, text: &[u8]) -> Option<Sockets>
    ensures { result ≡ named_in domain text.now }
{
    let kind = kind_number(text)?;
    if !stands_behind(domain, kind) {
        return None;
    }
    Some(Sockets {
        domain: Some(domain),
        kind: Some(kind),
    })
}

// The sockets that a first and a second word name: none may follow a type or a protocol.
fn second_named(first: Sockets, text: &[u8]) -> Option<Sockets>
    ensures { result ≡ second_named first text.now }
{
    named_in(first.domain?, text)
}

// The sockets of a rule after its first word, which one more may follow, and what follows them.
fn read_second<'a>(
    first: Sockets,
    tokens: &'a [Spliced<'a>],
) -> Result<(Sockets, &'a [Spliced<'a>]), Fault>
    ensures ok { IfOk result (IsRead (λ found. found) (sockets_behind first) tokens.now) }
    ensures refused { IfErr result (IsFault (sockets_behind first) tokens.now) }
    ensures within { IfOk result (λ read. length read.1.now ≤ length tokens.now) }
{
    match tokens {
        [token, behind @ ..] if token.token.kind == TokenKind::Word => {
            match second_named(first, token.token.text) {
                Some(both) => Ok((both, behind)),
                None => Err(refusal_at(GrammarRefusal::BadNetwork, *token)),
            }
        }
        _ => Ok((first, tokens)),
    }
}

/// The sockets that up to two words name with which tokens begin, all where they begin with none, and what follows these words. It takes no memory.
///
/// # Errors
///
/// `BadNetwork` at a first word that is no domain, no type and no protocol, and at a second one that may not follow it: a domain may be followed by
/// a type, or by a protocol where the domain has protocols; a type and a protocol by nothing.
pub fn read_sockets<'a>(tokens: &'a [Spliced<'a>]) -> Result<(Sockets, &'a [Spliced<'a>]), Fault>
    ensures ok { IfOk result (IsRead (λ found. found) sockets tokens.now) }
    ensures refused { IfErr result (IsFault sockets tokens.now) }
    ensures within { IfOk result (λ read. length read.1.now ≤ length tokens.now) }
{
    match tokens {
        [token, behind @ ..] if token.token.kind == TokenKind::Word => {
            match first_named(token.token.text) {
                Some(first) => read_second(first, behind),
                None => Err(refusal_at(GrammarRefusal::BadNetwork, *token)),
            }
        }
        _ => Ok((all_sockets(), tokens)),
    }
}
