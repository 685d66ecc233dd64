//! Rules as they are written.

ghost use Rattle.std.specs.Prelude.{◌≡◌, ◌<◌, IfOk, IfErr, length};
ghost use Rattle.aa_text_tokens.specs.SeenSplicedTokens.{seen_spliced};
ghost use Rattle.aa_profile_parsing.specs.Readings.{IsFault, IsRead};
ghost use Rattle.aa_profile_rules.specs.Rules.{access_first, all_files, file_rule, pattern_first, rule_behind_file, targeted_rule, whole_rule};
ghost use Rattle.aa_profile_rules.specs.Rules.{all_rule, begins_unowned, capability_rule, common_rule, ended, is_left_out, kept_rule, left_out_words};
ghost use Rattle.aa_profile_rules.specs.Rules.{network_rule, plain_rule, rule, rule_behind, unowned_rule, wider_rule};
ghost use Rattle.aa_profile_rules.specs.KeptRules.{is_among};
ghost use Rattle.aa_profile_rules.specs.SeenRules.{seen_rule};

use crate::access::{Access, read_access, whole_access};
use crate::capabilities::read_capabilities;
use crate::kept_rules::{begins_kept, read_kept};
use crate::networks::{Sockets, read_sockets};
use crate::qualifiers::{Qualifiers, read_qualifiers};
use crate::targets::read_target;
use aa_bytes::begins_with;
use aa_profile_parsing::{
    Fault, GrammarRefusal, Language, is_pattern, is_word_of, read_comma, read_pattern, refusal_at,
};
use aa_text_tokens::{Spliced, Token, TokenKind};

/// A rule as it is written.
#[derive(Clone, Copy)]
pub enum Rule<'a> {
    /// A rule on the files of a pattern.
    OnFile {
        /// The words before it.
        qualifiers: Qualifiers,
        /// The token of its pattern; for the word `file` alone this word, with the pattern of all files as its text.
        pattern: Spliced<'a>,
        /// What it allows or denies.
        access: Access,
        /// The token of the target that it names: of its exec word, or of hard links where it has none.
        target: Option<Spliced<'a>>,
    },
    /// A rule on capabilities.
    OnCapabilities {
        /// The words before it.
        qualifiers: Qualifiers,
        /// The token of its word.
        word: Spliced<'a>,
        /// The set of its capabilities: bit n is set for the capability of number n.
        capabilities: u64,
    },
    /// A rule on sockets.
    OnNetwork {
        /// The words before it.
        qualifiers: Qualifiers,
        /// The token of its word.
        word: Spliced<'a>,
        /// The sockets that it covers.
        sockets: Sockets,
    },
    /// A rule of a kind that isn't modelled, which decides nothing here.
    Kept {
        /// The words before it.
        qualifiers: Qualifiers,
        /// Its tokens, from its word up to the Comma that ends it.
        tokens: &'a [Spliced<'a>],
    },
    /// The rule `all`, which allows everything.
    All {
        /// The words before it.
        qualifiers: Qualifiers,
        /// The token of its word.
        word: Spliced<'a>,
    },
}

// A rule, where a Comma ends it, and what follows that.
fn read_end<'a>(
    rule: Rule<'a>,
    tokens: &'a [Spliced<'a>],
) -> Result<(Rule<'a>, &'a [Spliced<'a>]), Fault>
    ensures ok { IfOk result (IsRead seen_rule (ended (seen_rule rule.entry)) tokens.now) }
    ensures refused { IfErr result (IsFault (ended (seen_rule rule.entry)) tokens.now) }
    ensures shorter { IfOk result (λ read. length read.1.now < length tokens.now) }
{
    let behind = read_comma(tokens)?;
    Ok((rule, behind))
}

// A file rule after its pattern and its access, and what follows the rule.
fn read_targeted<'a>(
    language: Language,
    qualifiers: Qualifiers,
    pattern: Spliced<'a>,
    access: Access,
    tokens: &'a [Spliced<'a>],
) -> Result<(Rule<'a>, &'a [Spliced<'a>]), Fault>
    ensures ok { IfOk result (IsRead seen_rule (targeted_rule language qualifiers (seen_spliced pattern.entry) access) tokens.now) }
    ensures refused { IfErr result (IsFault (targeted_rule language qualifiers (seen_spliced pattern.entry) access) tokens.now) }
    ensures shorter { IfOk result (λ read. length read.1.now < length tokens.now) }
{
    let (target, rest) = read_target(language, access, tokens)?;
    read_end(
        Rule::OnFile {
            qualifiers,
            pattern,
            access,
            target,
        },
        rest,
    )
}

// A file rule after its pattern, and what follows the rule.
fn read_pattern_first<'a>(
    language: Language,
    qualifiers: Qualifiers,
    pattern: Spliced<'a>,
    tokens: &'a [Spliced<'a>],
) -> Result<(Rule<'a>, &'a [Spliced<'a>]), Fault>
    ensures ok { IfOk result (IsRead seen_rule (pattern_first language qualifiers (seen_spliced pattern.entry)) tokens.now) }
    ensures refused { IfErr result (IsFault (pattern_first language qualifiers (seen_spliced pattern.entry)) tokens.now) }
    ensures shorter { IfOk result (λ read. length read.1.now < length tokens.now) }
{
    let (access, rest) = read_access(qualifiers.deny, tokens)?;
    read_targeted(language, qualifiers, pattern, access, rest)
}

// A file rule whose access comes before its pattern, and what follows the rule.
fn read_access_first<'a>(
    language: Language,
    qualifiers: Qualifiers,
    tokens: &'a [Spliced<'a>],
) -> Result<(Rule<'a>, &'a [Spliced<'a>]), Fault>
    ensures ok { IfOk result (IsRead seen_rule (access_first language qualifiers) tokens.now) }
    ensures refused { IfErr result (IsFault (access_first language qualifiers) tokens.now) }
    ensures shorter { IfOk result (λ read. length read.1.now < length tokens.now) }
{
    let (access, behind) = read_access(qualifiers.deny, tokens)?;
    let (pattern, rest) = read_pattern(behind)?;
    read_targeted(language, qualifiers, pattern, access, rest)
}

// The file rule with which tokens begin, after its qualifiers: a pattern and its access, in either order, and a target.
fn read_file_rule<'a>(
    language: Language,
    qualifiers: Qualifiers,
    tokens: &'a [Spliced<'a>],
) -> Result<(Rule<'a>, &'a [Spliced<'a>]), Fault>
    ensures ok { IfOk result (IsRead seen_rule (file_rule language qualifiers) tokens.now) }
    ensures refused { IfErr result (IsFault (file_rule language qualifiers) tokens.now) }
    ensures shorter { IfOk result (λ read. length read.1.now < length tokens.now) }
{
    match tokens {
        [] => Err(Fault::RanOut),
        [token, behind @ ..] if is_pattern(*token) => {
            read_pattern_first(language, qualifiers, *token, behind)
        }
        _ => read_access_first(language, qualifiers, tokens),
    }
}

/// The token of a word that stands for all files, as their pattern. It takes no memory.
pub fn all_files(word: Spliced<'_>) -> Spliced<'_>
    ensures { seen_spliced result ≡ all_files (seen_spliced word.entry) }
{
    Spliced {
        token: Token {
            text: b"/{**,}",
            ..word.token
        },
        ..word
    }
}

// The rule of the word `file` alone.
fn whole_rule<'a>(qualifiers: Qualifiers, word: Spliced<'a>) -> Rule<'a>
    ensures { seen_rule result ≡ whole_rule qualifiers (seen_spliced word.entry) }
{
    Rule::OnFile {
        qualifiers,
        pattern: all_files(word),
        access: whole_access(qualifiers.deny),
        target: None,
    }
}

// The rule after the word `file`, and what follows the rule.
fn read_behind_file<'a>(
    language: Language,
    qualifiers: Qualifiers,
    word: Spliced<'a>,
    tokens: &'a [Spliced<'a>],
) -> Result<(Rule<'a>, &'a [Spliced<'a>]), Fault>
    ensures ok { IfOk result (IsRead seen_rule (rule_behind_file language qualifiers (seen_spliced word.entry)) tokens.now) }
    ensures refused { IfErr result (IsFault (rule_behind_file language qualifiers (seen_spliced word.entry)) tokens.now) }
    ensures shorter { IfOk result (λ read. length read.1.now < length tokens.now) }
{
    match tokens {
        [] => Err(Fault::RanOut),
        [token, behind @ ..] if token.token.kind == TokenKind::Comma => {
            Ok((whole_rule(qualifiers, word), behind))
        }
        _ => read_file_rule(language, qualifiers, tokens),
    }
}

// The kept rule with which tokens begin, after its qualifiers, and what follows it.
fn read_kept_rule<'a>(
    qualifiers: Qualifiers,
    tokens: &'a [Spliced<'a>],
) -> Result<(Rule<'a>, &'a [Spliced<'a>]), Fault>
    ensures ok { IfOk result (IsRead seen_rule (kept_rule qualifiers) tokens.now) }
    ensures refused { IfErr result (IsFault (kept_rule qualifiers) tokens.now) }
    ensures shorter { IfOk result (λ read. length read.1.now < length tokens.now) }
{
    let (tokens, rest) = read_kept(tokens)?;
    Ok((Rule::Kept { qualifiers, tokens }, rest))
}

// The rule on capabilities after this word, and what follows the rule.
fn read_capability_rule<'a>(
    qualifiers: Qualifiers,
    word: Spliced<'a>,
    tokens: &'a [Spliced<'a>],
) -> Result<(Rule<'a>, &'a [Spliced<'a>]), Fault>
    ensures ok { IfOk result (IsRead seen_rule (capability_rule qualifiers (seen_spliced word.entry)) tokens.now) }
    ensures refused { IfErr result (IsFault (capability_rule qualifiers (seen_spliced word.entry)) tokens.now) }
    ensures shorter { IfOk result (λ read. length read.1.now < length tokens.now) }
{
    let (capabilities, behind) = read_capabilities(tokens)?;
    read_end(
        Rule::OnCapabilities {
            qualifiers,
            word,
            capabilities,
        },
        behind,
    )
}

// The rule on sockets after this word, and what follows the rule.
fn read_network_rule<'a>(
    qualifiers: Qualifiers,
    word: Spliced<'a>,
    tokens: &'a [Spliced<'a>],
) -> Result<(Rule<'a>, &'a [Spliced<'a>]), Fault>
    ensures ok { IfOk result (IsRead seen_rule (network_rule qualifiers (seen_spliced word.entry)) tokens.now) }
    ensures refused { IfErr result (IsFault (network_rule qualifiers (seen_spliced word.entry)) tokens.now) }
    ensures shorter { IfOk result (λ read. length read.1.now < length tokens.now) }
{
    let (sockets, behind) = read_sockets(tokens)?;
    read_end(
        Rule::OnNetwork {
            qualifiers,
            word,
            sockets,
        },
        behind,
    )
}

// Whether a token is the word of a rule that can't have `owner`.
fn begins_unowned(token: Spliced<'_>) -> bool
    ensures { result ≡ begins_unowned (seen_spliced token.entry) }
{
    is_word_of(b"capability", token) || is_word_of(b"network", token)
}

// The rule that can't have `owner`, after its word, and what follows the rule.
fn read_unowned_rule<'a>(
    qualifiers: Qualifiers,
    word: Spliced<'a>,
    tokens: &'a [Spliced<'a>],
) -> Result<(Rule<'a>, &'a [Spliced<'a>]), Fault>
    ensures ok { IfOk result (IsRead seen_rule (unowned_rule qualifiers (seen_spliced word.entry)) tokens.now) }
    ensures refused { IfErr result (IsFault (unowned_rule qualifiers (seen_spliced word.entry)) tokens.now) }
    ensures shorter { IfOk result (λ read. length read.1.now < length tokens.now) }
{
    if qualifiers.owner {
        return Err(refusal_at(GrammarRefusal::BadToken, word));
    }
    if is_word_of(b"capability", word) {
        read_capability_rule(qualifiers, word, tokens)
    } else {
        read_network_rule(qualifiers, word, tokens)
    }
}

// The rule with which tokens begin, after its qualifiers, where it isn't kept: on capabilities or sockets, where it begins with their word, and else
// on files.
fn read_plain_rule<'a>(
    language: Language,
    qualifiers: Qualifiers,
    tokens: &'a [Spliced<'a>],
) -> Result<(Rule<'a>, &'a [Spliced<'a>]), Fault>
    ensures ok { IfOk result (IsRead seen_rule (plain_rule language qualifiers) tokens.now) }
    ensures refused { IfErr result (IsFault (plain_rule language qualifiers) tokens.now) }
    ensures shorter { IfOk result (λ read. length read.1.now < length tokens.now) }
{
    match tokens {
        [] => Err(Fault::RanOut),
        [token, behind @ ..] if begins_unowned(*token) => {
            read_unowned_rule(qualifiers, *token, behind)
        }
        _ => read_file_rule(language, qualifiers, tokens),
    }
}

// The rule with which tokens begin, after its qualifiers, where both languages have it.
fn read_common<'a>(
    language: Language,
    qualifiers: Qualifiers,
    tokens: &'a [Spliced<'a>],
) -> Result<(Rule<'a>, &'a [Spliced<'a>]), Fault>
    ensures ok { IfOk result (IsRead seen_rule (common_rule language qualifiers) tokens.now) }
    ensures refused { IfErr result (IsFault (common_rule language qualifiers) tokens.now) }
    ensures shorter { IfOk result (λ read. length read.1.now < length tokens.now) }
{
    let [token, behind @ ..] = tokens else {
        return Err(Fault::RanOut);
    };
    if is_word_of(b"file", *token) {
        read_behind_file(language, qualifiers, *token, behind)
    } else if begins_kept(*token) {
        read_kept_rule(qualifiers, tokens)
    } else {
        read_plain_rule(language, qualifiers, tokens)
    }
}

// Whether a word is one with which rules of AppArmor begin that aren't read here.
fn is_left_out_word(text: &[u8]) -> bool
    ensures { result ≡ is_among left_out_words text.now }
{
    text == b"safe".as_slice()
        || text == b"unsafe".as_slice()
        || text == b"prompt".as_slice()
        || text == b"other".as_slice()
        || text == b"if".as_slice()
}

// Whether a token is one with which rules of AppArmor begin that aren't read here.
fn is_left_out(token: Spliced<'_>) -> bool
    ensures { result ≡ is_left_out (seen_spliced token.entry) }
{
    match token.token.kind {
        TokenKind::OpenBrace => true,
        TokenKind::Word => begins_with(b"priority", token.token.text)
            || is_left_out_word(token.token.text),
        _ => false,
    }
}

// The rule `all` after its word, and what follows it.
fn read_all_rule<'a>(
    qualifiers: Qualifiers,
    word: Spliced<'a>,
    tokens: &'a [Spliced<'a>],
) -> Result<(Rule<'a>, &'a [Spliced<'a>]), Fault>
    ensures ok { IfOk result (IsRead seen_rule (all_rule qualifiers (seen_spliced word.entry)) tokens.now) }
    ensures refused { IfErr result (IsFault (all_rule qualifiers (seen_spliced word.entry)) tokens.now) }
    ensures shorter { IfOk result (λ read. length read.1.now < length tokens.now) }
{
    match (qualifiers.owner, qualifiers.deny) {
        (true, _) => Err(refusal_at(GrammarRefusal::BadToken, word)),
        (false, true) => Err(refusal_at(GrammarRefusal::LeftOut, word)),
        (false, false) => read_end(Rule::All { qualifiers, word }, tokens),
    }
}

// The rule of language 4 with which tokens begin, after its qualifiers.
fn read_wider<'a>(
    qualifiers: Qualifiers,
    tokens: &'a [Spliced<'a>],
) -> Result<(Rule<'a>, &'a [Spliced<'a>]), Fault>
    ensures ok { IfOk result (IsRead seen_rule (wider_rule qualifiers) tokens.now) }
    ensures refused { IfErr result (IsFault (wider_rule qualifiers) tokens.now) }
    ensures shorter { IfOk result (λ read. length read.1.now < length tokens.now) }
{
    let [token, behind @ ..] = tokens else {
        return Err(Fault::RanOut);
    };
    if is_left_out(*token) {
        return Err(refusal_at(GrammarRefusal::LeftOut, *token));
    }
    if is_word_of(b"all", *token) {
        return read_all_rule(qualifiers, *token, behind);
    }
    read_common(Language::Four, qualifiers, tokens)
}

// The rule with which tokens begin, after its qualifiers.
fn read_behind<'a>(
    language: Language,
    qualifiers: Qualifiers,
    tokens: &'a [Spliced<'a>],
) -> Result<(Rule<'a>, &'a [Spliced<'a>]), Fault>
    ensures ok { IfOk result (IsRead seen_rule (rule_behind language qualifiers) tokens.now) }
    ensures refused { IfErr result (IsFault (rule_behind language qualifiers) tokens.now) }
    ensures shorter { IfOk result (λ read. length read.1.now < length tokens.now) }
{
    match language {
        Language::Three => read_common(Language::Three, qualifiers, tokens),
        Language::Four => read_wider(qualifiers, tokens),
    }
}

/// Reads the rule with which tokens begin: returns it, and the tokens after the Comma that ends it. It takes no memory.
///
/// # Errors
///
/// Each at the first token, from the left, that the grammar doesn't take at its place (docs/policy.md, "Rules").
/// - `BadToken`: `allow` with `deny`, `owner` before `capability`, `network` or `all` (at this word), a token that no rule has there, or a missing
///   Comma.
/// - `LeftOut`, in language 4: `deny` before `all` (at this word), and where a rule begins, after its qualifiers, a word that begins with
///   `priority`, the words `safe`, `unsafe`, `prompt`, `other` and `if`, and an opening brace.
/// - `BadAccess`: an access with what is neither a letter of `r w a l k m` nor an exec word. Else `TwoExec`: one with two different exec words,
///   where a bare `x` counts as one; else `ExecQualifier`: one with a bare `x` in a rule without `deny`, or with another exec word in one with it;
///   else `WriteAppend`: one with both `w` and `a`.
/// - `TargetWithoutExec`, at `->`: a target in a rule whose exec word leads neither to a profile nor to a child or a hat, or that has neither an
///   exec word nor the letter `l` without `x`.
/// - `BadName`, at the target: one of an exec word that leads to a profile and that is no full name, or of one that leads to a child or a hat and
///   that is no name, or is `unconfined`. Language 4 cuts a target at each `//&`, and takes stacks: `&` and full names, and where the word leads to
///   a profile, such names alone.
/// - `BadCapability`: a word after `capability` that is no capability's name.
/// - `BadNetwork`: a first word after `network` that is no domain, type or protocol, or a second one that may not follow it: a domain may be
///   followed by a type, or by a protocol where the domain has protocols; a type and a protocol by nothing.
/// - `RanOut`: the tokens end before the rule does.
pub fn read_rule<'a>(
    language: Language,
    tokens: &'a [Spliced<'a>],
) -> Result<(Rule<'a>, &'a [Spliced<'a>]), Fault>
    ensures ok { IfOk result (IsRead seen_rule (rule language) tokens.now) }
    ensures refused { IfErr result (IsFault (rule language) tokens.now) }
    ensures shorter { IfOk result (λ read. length read.1.now < length tokens.now) }
{
    let (qualifiers, behind) = read_qualifiers(tokens)?;
    read_behind(language, qualifiers, behind)
}
