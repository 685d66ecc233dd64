//! Rules that decide nothing here, and are kept and shown as they are written.

ghost use Rattle.std.specs.Prelude.{◌≡◌, ◌≤◌, ◌<◌, Ok, IfOk, IfErr, length};
ghost use Rattle.aa_text_tokens.specs.SeenSplicedTokens.{seen_spliced};
ghost use Rattle.aa_profile_parsing.specs.Readings.{IsFault, IsRead};
ghost use Rattle.aa_profile_parsing.specs.SeenTokens.{seen_tokens};
ghost use Rattle.aa_profile_rules.specs.KeptRules.{begins_kept, count_of, kept, size_behind};
ghost use Rattle.aa_profile_rules.specs.KeptRules.{is_among, is_kept_word, mount_words, other_words, process_words};

use aa_profile_parsing::{Fault, GrammarRefusal, refusal_at};
use aa_text_tokens::{Spliced, TokenKind};

/// Whether a token is a word with which kept rules begin.
pub fn begins_kept(token: Spliced<'_>) -> bool
    ensures { result ≡ begins_kept (seen_spliced token.entry) }
{
    token.token.kind == TokenKind::Word && is_kept_word(token.token.text)
}

fn is_mount_word(text: &[u8]) -> bool
    ensures { result ≡ is_among mount_words text.now }
{
    text == b"mount".as_slice()
        || text == b"remount".as_slice()
        || text == b"umount".as_slice()
        || text == b"unmount".as_slice()
        || text == b"pivot_root".as_slice()
}

fn is_process_word(text: &[u8]) -> bool
    ensures { result ≡ is_among process_words text.now }
{
    text == b"signal".as_slice()
        || text == b"ptrace".as_slice()
        || text == b"unix".as_slice()
        || text == b"dbus".as_slice()
        || text == b"mqueue".as_slice()
}

fn is_other_word(text: &[u8]) -> bool
    ensures { result ≡ is_among other_words text.now }
{
    text == b"change_profile".as_slice()
        || text == b"set".as_slice()
        || text == b"io_uring".as_slice()
        || text == b"userns".as_slice()
        || text == b"link".as_slice()
}

fn is_kept_word(text: &[u8]) -> bool
    ensures { result ≡ is_kept_word text.now }
{
    is_mount_word(text) || is_process_word(text) || is_other_word(text)
}

// How often a text holds a byte.
fn count_of(byte: u8, text: &[u8]) -> usize
    ensures count { result ≡ count_of byte text.now }
    ensures within { result ≤ length text.now }
{
    let mut count = 0;
    for other in text {
        if *other == byte {
            count += 1;
        }
    }
    count
}

// How many tokens come before the Comma that ends a kept rule.
fn size_of(tokens: &[Spliced<'_>]) -> Result<usize, Fault>
    ensures ok { IfOk result (λ size. size_behind 0 0 (seen_tokens tokens.now) ≡ Ok size) }
    ensures within { IfOk result (λ size. size < length tokens.now) }
    ensures refused { IfErr result (IsFault (size_behind 0 0) tokens.now) }
{
    let mut opened: u128 = 0;
    let mut closed: u128 = 0;
    for (at, token) in tokens.iter().enumerate() {
        match token.token.kind {
            TokenKind::Comma => {
                if opened == closed {
                    return Ok(at);
                }
            }
            TokenKind::Quoted => {}
            TokenKind::Word => {
                opened += count_of(b'(', token.token.text) as u128;
                closed += count_of(b')', token.token.text) as u128;
            }
            _ => return Err(refusal_at(GrammarRefusal::BadToken, *token)),
        }
    }
    Err(Fault::RanOut)
}

// The tokens of a kept rule, up to the Comma that ends it, and what follows that.
pub fn read_kept<'a>(
    tokens: &'a [Spliced<'a>],
) -> Result<(&'a [Spliced<'a>], &'a [Spliced<'a>]), Fault>
    ensures ok { IfOk result (IsRead (λ front. seen_tokens front.now) kept tokens.now) }
    ensures refused { IfErr result (IsFault kept tokens.now) }
    ensures shorter { IfOk result (λ read. length read.1.now < length tokens.now) }
{
    let size = size_of(tokens)?;
    Ok((&tokens[..size], &tokens[size + 1..]))
}
