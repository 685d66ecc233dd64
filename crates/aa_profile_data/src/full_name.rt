//! Full names: of a profile, or of one of its children or hats with `//` between the two names.

ghost use Rattle.std.specs.Prelude.{◌≡◌};
ghost use Rattle.std.specs.Option.{option_copied};
ghost use Rattle.aa_profile_data.specs.FullNames.{full_name, is_full_name};

use crate::names::{is_name, is_top_name};
use aa_bytes::{begins_with, behind};

/// The name of the profile in a full name, and that of the child or hat, if it names one. The text is cut at its first `//`. It takes no memory.
pub fn cut_full_name(name: &[u8]) -> (&[u8], Option<&[u8]>)
    ensures profile { result.0.now ≡ (full_name name.now).profile }
    ensures child { option_copied result.1 ≡ (full_name name.now).child }
{
    for at in 0..name.len() {
        let rest = behind(at, name);
        if begins_with(b"//", rest) {
            return (&name[..at], Some(behind(2, rest)));
        }
    }
    (name, None)
}

/// Whether a text is a full name: the name of a profile that isn't within another, or such a name, `//` and the name of a child or a hat
/// (docs/policy.md, "Names"). `O(n)` in its length. It takes no memory.
pub fn is_full_name(text: &[u8]) -> bool
    ensures { result ≡ is_full_name text.now }
{
    let (profile, child) = cut_full_name(text);
    match child {
        None => is_top_name(profile),
        Some(name) => is_top_name(profile) && is_name(name),
    }
}
