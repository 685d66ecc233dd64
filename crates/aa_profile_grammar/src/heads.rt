//! Heads of profiles, children and hats.

ghost use Rattle.std.specs.Prelude.{◌≡◌, ◌<◌, ◌≤◌, IfOk, IfErr, length};
ghost use Rattle.std.specs.Option.{option_map};
ghost use Rattle.aa_text_tokens.specs.SeenSplicedTokens.{seen_spliced};
ghost use Rattle.aa_profile_parsing.specs.Readings.{IsFault, IsRead};
ghost use Rattle.aa_profile_parsing.specs.SeenTokens.{seen_tokens};
ghost use Rattle.aa_profile_grammar.specs.Heads.{attachment, begins_child, child_name, head, is_short_hat, name_behind, top_name};
ghost use Rattle.aa_profile_grammar.specs.code.Seen.{seen_named};
ghost use Rattle.aa_profile_grammar.specs.SeenFiles.{seen_head};

use aa_bytes::{begins_with_byte, behind};
use aa_profile_parsing::{
    Fault, Flags, GrammarRefusal, Language, flag_tokens, is_pattern, is_word_of, read_flags,
    read_text, refusal_at,
};
use aa_text_tokens::{Spliced, TokenKind};

/// How a head begins.
#[derive(Clone, Copy)]
pub enum Form {
    /// With the word `profile`.
    Profile,
    /// With a path, which is its name and its attachment.
    Path,
    /// With the word `hat`, or with `^` and the name in one word.
    Hat,
}

/// How a head begins, and its name.
#[derive(Clone, Copy)]
pub struct Named<'a> {
    /// How it begins.
    pub form: Form,
    /// The name.
    pub name: &'a [u8],
    /// The token of the name.
    pub token: Spliced<'a>,
}

/// A head of a profile, a child or a hat.
#[derive(Clone, Copy)]
pub struct Head<'a> {
    /// The name, as it is written.
    pub name: &'a [u8],
    /// The token of the name.
    pub token: Spliced<'a>,
    /// The token of the pattern of the programs that it attaches to, if there is one.
    pub attachment: Option<Spliced<'a>>,
    /// The flags that decide something.
    pub flags: Flags,
    /// The tokens of FLAGS, up to the brace.
    pub flag_tokens: &'a [Spliced<'a>],
    /// The brace that opens its block.
    pub brace: Spliced<'a>,
}

// A name after the word `profile` or `hat`, and what follows it.
fn read_name<'a>(
    form: Form,
    tokens: &'a [Spliced<'a>],
) -> Result<(Named<'a>, &'a [Spliced<'a>]), Fault>
    ensures ok { IfOk result (IsRead seen_named (name_behind form) tokens.now) }
    ensures refused { IfErr result (IsFault (name_behind form) tokens.now) }
    ensures within { IfOk result (λ read. length read.1.now ≤ length tokens.now) }
{
    let (token, behind) = read_text(tokens)?;
    let name = token.token.text;
    Ok((Named { form, name, token }, behind))
}

// How a profile that isn't within another begins, from its first token and those after it, and what follows that.
pub fn read_top_name<'a>(
    token: Spliced<'a>,
    tokens: &'a [Spliced<'a>],
) -> Result<(Named<'a>, &'a [Spliced<'a>]), Fault>
    ensures ok { IfOk result (IsRead seen_named (top_name (seen_spliced token.entry)) tokens.now) }
    ensures refused { IfErr result (IsFault (top_name (seen_spliced token.entry)) tokens.now) }
    ensures within { IfOk result (λ read. length read.1.now ≤ length tokens.now) }
{
    if is_word_of(b"profile", token) {
        return read_name(Form::Profile, tokens);
    }
    if is_pattern(token) {
        let name = token.token.text;
        return Ok((
            Named {
                form: Form::Path,
                name,
                token,
            },
            tokens,
        ));
    }
    match token.token.kind {
        TokenKind::Assign { .. } => Err(refusal_at(GrammarRefusal::LateAssignment, token)),
        _ => Err(refusal_at(GrammarRefusal::BadToken, token)),
    }
}

// Whether a token is `^` and a name in one word.
fn is_short_hat(token: Spliced<'_>) -> bool
    ensures { result ≡ is_short_hat (seen_spliced token.entry) }
{
    token.token.kind == TokenKind::Word && begins_with_byte(b'^', token.token.text)
}

// Whether a child or a hat begins with a token.
pub fn begins_child(token: Spliced<'_>) -> bool
    ensures { result ≡ begins_child (seen_spliced token.entry) }
{
    is_word_of(b"profile", token) || is_word_of(b"hat", token) || is_short_hat(token)
}

// How a child or a hat begins, from its first token and those after it, and what follows that.
pub fn read_child_name<'a>(
    token: Spliced<'a>,
    tokens: &'a [Spliced<'a>],
) -> Result<(Named<'a>, &'a [Spliced<'a>]), Fault>
    ensures ok { IfOk result (IsRead seen_named (child_name (seen_spliced token.entry)) tokens.now) }
    ensures refused { IfErr result (IsFault (child_name (seen_spliced token.entry)) tokens.now) }
    ensures within { IfOk result (λ read. length read.1.now ≤ length tokens.now) }
{
    if is_word_of(b"profile", token) {
        return read_name(Form::Profile, tokens);
    }
    if is_word_of(b"hat", token) {
        return read_name(Form::Hat, tokens);
    }
    let name = behind(1, token.token.text);
    Ok((
        Named {
            form: Form::Hat,
            name,
            token,
        },
        tokens,
    ))
}

// The token of the attachment after a name, and what follows it.
fn read_attachment<'a>(
    named: Named<'a>,
    tokens: &'a [Spliced<'a>],
) -> (Option<Spliced<'a>>, &'a [Spliced<'a>])
    ensures token { option_map seen_spliced result.0 ≡ (attachment (seen_named named.entry) (seen_tokens tokens.now)).0 }
    ensures rest { seen_tokens result.1.now ≡ (attachment (seen_named named.entry) (seen_tokens tokens.now)).1 }
    ensures within { length result.1.now ≤ length tokens.now }
{
    match named.form {
        Form::Path => (Some(named.token), tokens),
        Form::Hat => (None, tokens),
        Form::Profile => {
            if let [token, behind @ ..] = tokens
                && is_pattern(*token)
            {
                return (Some(*token), behind);
            }
            if begins_with_byte(b'/', named.name) {
                (Some(named.token), tokens)
            } else {
                (None, tokens)
            }
        }
    }
}

// The head after its name, and what follows its brace.
pub fn read_head<'a>(
    language: Language,
    named: Named<'a>,
    tokens: &'a [Spliced<'a>],
) -> Result<(Head<'a>, &'a [Spliced<'a>]), Fault>
    ensures ok { IfOk result (IsRead seen_head (head language (seen_named named.entry)) tokens.now) }
    ensures refused { IfErr result (IsFault (head language (seen_named named.entry)) tokens.now) }
    ensures shorter { IfOk result (λ read. length read.1.now < length tokens.now) }
{
    let (attachment, behind) = read_attachment(named, tokens);
    let (flags, brace, rest) = read_flags(language, behind)?;
    Ok((
        Head {
            name: named.name,
            token: named.token,
            attachment,
            flags,
            flag_tokens: flag_tokens(behind),
            brace,
        },
        rest,
    ))
}
