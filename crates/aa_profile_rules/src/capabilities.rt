//! The capabilities of a rule.

ghost use Rattle.std.specs.Prelude.{◌≡◌, ◌<◌, ◌≤◌, IfOk, IfErr, length};
ghost use Rattle.aa_profile_parsing.specs.Readings.{IsFault, IsRead};
ghost use Rattle.aa_profile_rules.specs.Capabilities.{capabilities, named_capabilities, with_capability};

use aa_profile_data::{capability_number, which_numbers_names_have};
use aa_profile_parsing::{Fault, GrammarRefusal, refusal_at};
use aa_text_tokens::{Spliced, TokenKind};

/// The set of all capabilities: the lowest 41 bits.
pub const ALL_CAPABILITIES: u64 = (1 << 41) - 1;

// A set with the capability of a number.
fn with_capability(set: u64, number: u8) -> u64
    requires { number < 41 }
    ensures { result ≡ with_capability set number }
{
    set | 1 << number
}

// The set of the capabilities that words name, and what follows them.
fn read_names<'a>(tokens: &'a [Spliced<'a>]) -> Result<(u64, &'a [Spliced<'a>]), Fault>
    ensures ok { IfOk result (IsRead (λ set. set) (named_capabilities 0) tokens.now) }
    ensures refused { IfErr result (IsFault (named_capabilities 0) tokens.now) }
    ensures within { IfOk result (λ read. length read.1.now ≤ length tokens.now) }
{
    which_numbers_names_have();
    let mut set = 0;
    let mut rest = tokens;
    while let [token, behind @ ..] = rest {
        if token.token.kind != TokenKind::Word {
            break;
        }
        let Some(number) = capability_number(token.token.text) else {
            return Err(refusal_at(GrammarRefusal::BadCapability, *token));
        };
        set = with_capability(set, number);
        rest = behind;
    }
    Ok((set, rest))
}

/// The set of the capabilities with which tokens begin, all where they begin with none, and what follows them. Bit n is set for the capability of
/// number n. It takes no memory.
///
/// # Errors
///
/// `BadCapability` at the first word that is no capability's name.
pub fn read_capabilities<'a>(tokens: &'a [Spliced<'a>]) -> Result<(u64, &'a [Spliced<'a>]), Fault>
    ensures ok { IfOk result (IsRead (λ set. set) capabilities tokens.now) }
    ensures refused { IfErr result (IsFault capabilities tokens.now) }
    ensures within { IfOk result (λ read. length read.1.now ≤ length tokens.now) }
{
    match tokens {
        [token, ..] if token.token.kind == TokenKind::Word => read_names(tokens),
        _ => Ok((ALL_CAPABILITIES, tokens)),
    }
}
