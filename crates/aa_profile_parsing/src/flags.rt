//! FLAGS of profiles, children and hats.

ghost use Rattle.std.specs.Prelude.{◌≡◌, ◌<◌, ◌≤◌, ◌∷◌, not, Ok, IfOk, IfErr, IfSome, length};
ghost use Rattle.std.specs.Option.{option_map};
ghost use Rattle.std.specs.List.{prefix_len, slice_split};
ghost use Rattle.aa_text_tokens.specs.SeenSplicedTokens.{seen_spliced};
ghost use Rattle.aa_profile_parsing.specs.Readings.{IsFault};
ghost use Rattle.aa_profile_parsing.specs.SeenTokens.{seen_tokens};
ghost use Rattle.aa_profile_parsing.specs.FlagText.{words_of_rest};
ghost use Rattle.aa_profile_parsing.specs.Flags.{behind_keyword, behind_sign, finished, flags, is_idle, is_idle_in_all, listed, mode_flag, opened};
ghost use Rattle.aa_profile_parsing.specs.Flags.{refusal_of_word, same_mode, separates, unflagged, wider_mode_flag, with_flag, with_flags, with_item};
ghost use Rattle.aa_profile_parsing.specs.Flags.{with_mode, with_token, with_word};

use crate::fault::{Fault, GrammarRefusal, refusal_at};
use crate::language::Language;
use aa_bytes::{begins_with, behind, length_while};
use aa_text_tokens::{Spliced, TokenKind};

/// A flag that says what happens to what the rules don't allow.
#[derive(Clone, Copy, Debug, PartialEq, Eq)]
pub enum ModeFlag {
    /// What the rules don't allow is refused, as it is without such a flag.
    Enforce,
    /// What the rules don't allow is let through, and logged.
    Complain,
    /// Everything is allowed: no rule is looked at.
    Unconfined,
    /// As `Unconfined`.
    DefaultAllow,
}

/// The flags of a profile, a child or a hat that decide something.
#[derive(Clone, Copy)]
pub struct Flags {
    /// What happens to what the rules don't allow; `None` where no flag says so.
    pub mode: Option<ModeFlag>,
    /// What the rules decide is logged.
    pub audit: bool,
}

/// How much of FLAGS was read.
#[derive(Clone, Copy)]
pub enum FlagsSoFar {
    /// Nothing.
    Absent,
    /// The word `flags`.
    Keyword,
    /// The word `flags` and its sign.
    Sign,
    /// A list that isn't closed.
    Listing(Flags),
    /// A closed list.
    Closed(Flags),
}

// No flag.
fn unflagged() -> Flags
    ensures { result ≡ unflagged }
{
    Flags {
        mode: None,
        audit: false,
    }
}

// Whether a word is a flag that decides nothing in both languages.
fn is_idle_in_all(word: &[u8]) -> bool
    ensures { result ≡ is_idle_in_all word.now }
{
    word == b"attach_disconnected".as_slice()
        || word == b"no_attach_disconnected".as_slice()
        || word == b"chroot_relative".as_slice()
        || word == b"namespace_relative".as_slice()
        || word == b"chroot_attach".as_slice()
        || word == b"chroot_no_attach".as_slice()
        || word == b"mediate_deleted".as_slice()
        || word == b"delegate_deleted".as_slice()
        || word == b"debug".as_slice()
        || word == b"interruptible".as_slice()
        || begins_with(b"attach_disconnected.path=", word)
}

// Whether a word is a flag that decides nothing.
pub fn is_idle(language: Language, word: &[u8]) -> bool
    ensures { result ≡ is_idle language word.now }
{
    match language {
        Language::Three => is_idle_in_all(word),
        Language::Four => {
            is_idle_in_all(word)
                || begins_with(b"error=", word)
                || begins_with(b"kill.signal=", word)
        }
    }
}

// The mode flag that a word is in language 4 alone.
fn wider_mode_flag(language: Language, word: &[u8]) -> Option<ModeFlag>
    ensures { result ≡ wider_mode_flag language word.now }
{
    match language {
        Language::Three => None,
        Language::Four => {
            if word == b"unconfined".as_slice() {
                Some(ModeFlag::Unconfined)
            } else if word == b"default_allow".as_slice() {
                Some(ModeFlag::DefaultAllow)
            } else {
                None
            }
        }
    }
}

// The mode flag that a word is, or `None`.
fn mode_flag(language: Language, word: &[u8]) -> Option<ModeFlag>
    ensures { result ≡ mode_flag language word.now }
{
    if word == b"enforce".as_slice() {
        Some(ModeFlag::Enforce)
    } else if word == b"complain".as_slice() {
        Some(ModeFlag::Complain)
    } else {
        wider_mode_flag(language, word)
    }
}

// Whether two mode flags are the same.
fn is_same_mode(one: ModeFlag, other: ModeFlag) -> bool
    ensures { result ≡ same_mode one other }
{
    match (one, other) {
        (ModeFlag::Enforce, ModeFlag::Enforce) => true,
        (ModeFlag::Complain, ModeFlag::Complain) => true,
        (ModeFlag::Unconfined, ModeFlag::Unconfined) => true,
        (ModeFlag::DefaultAllow, ModeFlag::DefaultAllow) => true,
        _ => false,
    }
}

// Flags and a mode flag: two different ones are refused.
fn with_mode(flags: Flags, mode: ModeFlag) -> Result<Flags, GrammarRefusal>
    ensures { result ≡ with_mode flags mode }
{
    match flags.mode {
        None => Ok(Flags {
            mode: Some(mode),
            ..flags
        }),
        Some(before) => {
            if is_same_mode(before, mode) {
                Ok(flags)
            } else {
                Err(GrammarRefusal::BadFlag)
            }
        }
    }
}

// The refusal of a word that is no flag.
fn refusal_of_word(language: Language, word: &[u8]) -> GrammarRefusal
    ensures { result ≡ refusal_of_word language word.now }
{
    match language {
        Language::Three => GrammarRefusal::BadFlag,
        Language::Four => {
            if word == b"kill".as_slice() || word == b"prompt".as_slice() {
                GrammarRefusal::LeftOut
            } else {
                GrammarRefusal::BadFlag
            }
        }
    }
}

// Flags and the flag of a word, or the word's refusal.
fn with_flag(language: Language, flags: Flags, word: &[u8]) -> Result<Flags, GrammarRefusal>
    ensures { result ≡ with_flag language flags word.now }
{
    if let Some(mode) = mode_flag(language, word) {
        with_mode(flags, mode)
    } else if word == b"audit".as_slice() {
        Ok(Flags {
            audit: true,
            ..flags
        })
    } else if is_idle(language, word) {
        Ok(flags)
    } else {
        Err(refusal_of_word(language, word))
    }
}

// Whether a byte separates flags.
fn separates(byte: u8) -> bool
    ensures { result ≡ separates byte }
{
    match byte {
        b' ' | b'\t'..=b'\r' | b',' => true,
        _ => false,
    }
}

// Flags and the flag of a word, if there is one: between two separators may be none.
fn with_item(language: Language, flags: Flags, word: &[u8]) -> Result<Flags, GrammarRefusal>
    ensures { result ≡ with_item language flags word.now }
{
    if word.is_empty() {
        Ok(flags)
    } else {
        with_flag(language, flags, word)
    }
}

// How many bytes the first word of a list has.
fn word_size(text: &[u8]) -> usize
    ensures size { result ≡ prefix_len (λ b. not (separates b)) text.now }
    ensures within { result ≤ length text.now }
{
    length_while(text, |byte| !separates(byte))
}

// The first word of a list, and what follows its separator, if there is one.
pub fn first_word(text: &[u8]) -> (&[u8], Option<&[u8]>)
    ensures words { slice_split separates text.now ≡ result.0.now ∷ words_of_rest (option_map (λ rest. rest.now) result.1) }
    ensures shorter { IfSome result.1 (λ rest. length rest.now < length text.now) }
{
    let size = word_size(text);
    let word = &text[..size];
    match behind(size, text) {
        [_, more @ ..] => (word, Some(more)),
        _ => (word, None),
    }
}

// Flags and those of a list, or the refusal of the first word that is none.
fn with_flags(language: Language, flags: Flags, text: &[u8]) -> Result<Flags, GrammarRefusal>
    ensures { result ≡ with_flags language flags (slice_split separates text.now) }
{
    let mut found = flags;
    let mut rest = text;
    loop {
        let (word, more) = first_word(rest);
        found = match with_item(language, found, word) {
            Ok(after) => after,
            Err(refusal) => return Err(refusal),
        };
        let Some(more) = more else {
            return Ok(found);
        };
        rest = more;
    }
}

// Continues the list, up to the first `)`, which must end the text.
fn listed(language: Language, flags: Flags, text: &[u8]) -> Result<FlagsSoFar, GrammarRefusal>
    ensures { result ≡ listed language flags text.now }
{
    let size = length_while(text, |byte| byte != b')');
    let more = match with_flags(language, flags, &text[..size]) {
        Ok(more) => more,
        Err(refusal) => return Err(refusal),
    };
    match &text[size..] {
        [] => Ok(FlagsSoFar::Listing(more)),
        [_] => Ok(FlagsSoFar::Closed(more)),
        _ => Err(GrammarRefusal::BadToken),
    }
}

// Begins the list.
fn opened(language: Language, text: &[u8]) -> Result<FlagsSoFar, GrammarRefusal>
    ensures { result ≡ opened language text.now }
{
    match text {
        [b'(', behind @ ..] => listed(language, unflagged(), behind),
        _ => Err(GrammarRefusal::BadToken),
    }
}

// Continues after the sign.
fn behind_sign(language: Language, text: &[u8]) -> Result<FlagsSoFar, GrammarRefusal>
    ensures { result ≡ behind_sign language text.now }
{
    if text.is_empty() {
        return Ok(FlagsSoFar::Sign);
    }
    opened(language, text)
}

// Continues after the word `flags`.
fn behind_keyword(language: Language, text: &[u8]) -> Result<FlagsSoFar, GrammarRefusal>
    ensures { result ≡ behind_keyword language text.now }
{
    match text {
        [] => Ok(FlagsSoFar::Keyword),
        [b'=', behind @ ..] => behind_sign(language, behind),
        _ => Err(GrammarRefusal::BadToken),
    }
}

// Continues with one more word after what was read.
fn with_word(
    language: Language,
    before: FlagsSoFar,
    text: &[u8],
) -> Result<FlagsSoFar, GrammarRefusal>
    ensures { result ≡ with_word language before text.now }
{
    match before {
        FlagsSoFar::Absent => {
            if begins_with(b"flags", text) {
                behind_keyword(language, &text[5..])
            } else {
                opened(language, text)
            }
        }
        FlagsSoFar::Keyword => behind_keyword(language, text),
        FlagsSoFar::Sign => behind_sign(language, text),
        FlagsSoFar::Listing(flags) => listed(language, flags, text),
        FlagsSoFar::Closed(_) => Err(GrammarRefusal::BadToken),
    }
}

// Continues with one more token, which isn't the brace, after what was read.
fn with_token(
    language: Language,
    before: FlagsSoFar,
    token: Spliced<'_>,
) -> Result<FlagsSoFar, GrammarRefusal>
    ensures { result ≡ with_token language before (seen_spliced token.entry) }
{
    match token.token.kind {
        TokenKind::Word => with_word(language, before, token.token.text),
        TokenKind::Comma => match before {
            FlagsSoFar::Listing(flags) => Ok(FlagsSoFar::Listing(flags)),
            _ => Err(GrammarRefusal::BadToken),
        },
        _ => Err(GrammarRefusal::BadToken),
    }
}

// The flags where the brace comes.
fn finished(read: FlagsSoFar) -> Option<Flags>
    ensures { result ≡ finished read }
{
    match read {
        FlagsSoFar::Absent => Some(unflagged()),
        FlagsSoFar::Closed(flags) => Some(flags),
        _ => None,
    }
}

/// Reads FLAGS after a head: returns the flags that decide something, the brace that ends them, and what follows it. It takes no memory.
///
/// # Errors
///
/// Each at the first token with which nothing that could follow would be accepted (the law `where_flags_are_refused`; docs/policy.md, "Flags").
/// - `BadFlag`: a word of the list is no flag, or a mode flag follows a different one.
/// - `LeftOut`: in language 4, a word of the list is `kill` or `prompt`. Of several such words in one token the first decides between these two.
/// - `BadToken`: any other fault.
/// - `RanOut`: the tokens end before the brace, and could continue.
pub fn read_flags<'a>(
    language: Language,
    tokens: &'a [Spliced<'a>],
) -> Result<(Flags, Spliced<'a>, &'a [Spliced<'a>]), Fault>
    ensures ok { IfOk result (λ read. flags language (seen_tokens tokens.now) ≡ Ok ((read.0, seen_spliced read.1), seen_tokens read.2.now)) }
    ensures refused { IfErr result (IsFault (flags language) tokens.now) }
    ensures shorter { IfOk result (λ read. length read.2.now < length tokens.now) }
{
    let mut found = FlagsSoFar::Absent;
    let mut rest = tokens;
    while let [token, behind @ ..] = rest {
        if token.token.kind == TokenKind::OpenBrace {
            return match finished(found) {
                Some(flags) => Ok((flags, *token, behind)),
                None => Err(refusal_at(GrammarRefusal::BadToken, *token)),
            };
        }
        found = match with_token(language, found, *token) {
            Ok(more) => more,
            Err(refusal) => return Err(refusal_at(refusal, *token)),
        };
        rest = behind;
    }
    Err(Fault::RanOut)
}
