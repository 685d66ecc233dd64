//! The claims of assertions.

ghost use Rattle.std.specs.Prelude.{◌≡◌, map, option_map};
ghost use Rattle.aatry_test.specs.Claims.{claim_of, claimed_in};
ghost use Rattle.aatry_claims.specs.SeenClaimed.{seen_claimed};

use aa_explain_paths::Claim;
use aatry_claims::{Claimed, path_words};

// The claim of a word.
fn claim_of(word: &[u8]) -> Option<Claim>
    ensures { result ≡ claim_of word.now }
{
    if word == b"never".as_slice() {
        Some(Claim::Never)
    } else if word == b"always".as_slice() {
        Some(Claim::Always)
    } else {
        None
    }
}

/// The claim of words: `never` or `always`, followed by the words of a question about all paths (`path_words`). `None` where they claim nothing. It
/// takes no memory.
pub fn claimed_in<'a>(words: &'a [&'a [u8]]) -> Option<Claimed<'a>>
    ensures { option_map seen_claimed result ≡ claimed_in (map (λ word. word.now) words.now) }
{
    let [word, behind @ ..] = words else {
        return None;
    };
    let claim = claim_of(word)?;
    let words = path_words(behind)?;
    Some(Claimed { claim, words })
}
