//! The targets of file rules.

ghost use Rattle.std.specs.Prelude.{◌≡◌, ◌≤◌, IfOk, IfErr, length};
ghost use Rattle.std.specs.Option.{option_map};
ghost use Rattle.aa_text_tokens.specs.SeenSplicedTokens.{seen_spliced};
ghost use Rattle.aa_profile_parsing.specs.Readings.{IsFault, IsRead};
ghost use Rattle.aa_profile_rules.specs.Targets.{is_name_of, is_nameable, is_target, named_target, names_what_is, takes_target, target};

use crate::access::Access;
use aa_profile_data::{Destination, Perms, is_full_name, is_name_or_stack_of, is_top_name};
use aa_profile_parsing::{Fault, GrammarRefusal, Language, is_word_of, read_text, refusal_at};
use aa_text_tokens::Spliced;
use bitflags::Flags;

// Whether an exec word with this destination may have a target.
fn is_nameable(destination: Destination) -> bool
    ensures { result ≡ is_nameable destination }
{
    match destination {
        Destination::Profile | Destination::Child => true,
        Destination::Inherit | Destination::Unconfined => false,
    }
}

// Whether an access may have a target.
fn takes_target(access: Access) -> bool
    ensures { result ≡ takes_target access }
{
    match access.word {
        Some(word) => is_nameable(word.destination()),
        None => access.letters.contains(Perms::LINK) && !access.letters.contains(Perms::EXEC),
    }
}

// Whether a text is a name that a target with this destination may be.
fn is_name_of(destination: Destination, text: &[u8]) -> bool
    ensures { result ≡ is_name_of destination text.now }
{
    match destination {
        Destination::Profile => is_full_name(text),
        Destination::Child => is_top_name(text),
        Destination::Inherit | Destination::Unconfined => false,
    }
}

// Whether a text may be a target with this destination, by a language.
fn names_what_is(language: Language, destination: Destination, text: &[u8]) -> bool
    ensures { result ≡ names_what_is language destination text.now }
{
    match language {
        Language::Three => is_name_of(destination, text),
        Language::Four => is_name_or_stack_of(destination, text),
    }
}

// Whether a text may be the target of an access that may have one.
fn is_target(language: Language, access: Access, text: &[u8]) -> bool
    ensures { result ≡ is_target language access text.now }
{
    match access.word {
        Some(word) => names_what_is(language, word.destination(), text),
        None => true,
    }
}

// The target of an access after `->`, and what follows it.
fn read_named<'a>(
    language: Language,
    access: Access,
    tokens: &'a [Spliced<'a>],
) -> Result<(Option<Spliced<'a>>, &'a [Spliced<'a>]), Fault>
    ensures ok { IfOk result (IsRead (option_map seen_spliced) (named_target language access) tokens.now) }
    ensures refused { IfErr result (IsFault (named_target language access) tokens.now) }
    ensures within { IfOk result (λ read. length read.1.now ≤ length tokens.now) }
{
    let (target, behind) = read_text(tokens)?;
    if !is_target(language, access, target.token.text) {
        return Err(refusal_at(GrammarRefusal::BadName, target));
    }
    Ok((Some(target), behind))
}

// The target with which tokens begin, if they begin with `->`, and what follows it.
pub fn read_target<'a>(
    language: Language,
    access: Access,
    tokens: &'a [Spliced<'a>],
) -> Result<(Option<Spliced<'a>>, &'a [Spliced<'a>]), Fault>
    ensures ok { IfOk result (IsRead (option_map seen_spliced) (target language access) tokens.now) }
    ensures refused { IfErr result (IsFault (target language access) tokens.now) }
    ensures within { IfOk result (λ read. length read.1.now ≤ length tokens.now) }
{
    match tokens {
        [token, behind @ ..] if is_word_of(b"->", *token) => {
            if !takes_target(access) {
                return Err(refusal_at(GrammarRefusal::TargetWithoutExec, *token));
            }
            read_named(language, access, behind)
        }
        _ => Ok((None, tokens)),
    }
}
