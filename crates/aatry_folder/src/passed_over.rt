//! Names that are passed over.
ghost use Rattle.std.specs.Prelude.{◌≡◌, nat_eq};
ghost use Rattle.std.specs.List.{ends_with, list_any};
ghost use Rattle.aatry_folder.specs.PassedOver.{is_kept_aside, is_leftover, is_passed_over};

use aa_bytes::{begins_with, begins_with_byte};
use aa_text_files::Files;

// What packagers, patch and editors append to the names of files that they leave.
const LEFTOVER_ENDINGS: [&str; 12] = [
    "~",
    ".dpkg-new",
    ".dpkg-old",
    ".dpkg-dist",
    ".dpkg-bak",
    ".dpkg-remove",
    ".pacsave",
    ".pacnew",
    ".rpmnew",
    ".rpmsave",
    ".orig",
    ".rej",
];

// Whether a name ends with one of some endings.
fn has_ending(name: &[u8], endings: &[&str]) -> bool
    ensures { result ≡ list_any (λ ending. ends_with nat_eq name.now ending.now) endings.now }
{
    endings
        .iter()
        .any(|ending| name.ends_with(ending.as_bytes()))
}

// Whether a name is that of a file which a packager, patch or an editor left.
fn is_leftover(name: &[u8]) -> bool
    ensures { result ≡ is_leftover name.now }
{
    has_ending(name, &LEFTOVER_ENDINGS)
}

/// Whether apparmor_parser passes over a member of a folder of this name, which has no `/` at its end: the name is empty or `README`, begins
/// with `.`, or ends as the names of files do that packagers, patch and editors leave, such as `.dpkg-old` and `~`.
///
/// The endings are those of libapparmor, which it looks for where it goes through a folder. A name that holds its ending twice, as `x~~` and
/// `x.~1~` do, is passed over here too, though libapparmor 3.0.8 takes it.
#[tactic(auto, unfolding(crate::specs::PassedOver::is_passed_over))]
pub fn is_passed_over(name: &[u8]) -> bool
    ensures { result ≡ is_passed_over name.now }
{
    name.is_empty()
        || begins_with_byte(b'.', name)
        || name == b"README".as_slice()
        || is_leftover(name)
}

/// Whether a member of a folder of policy is a folder in which apparmor_parser and what starts it keep what isn't policy: `disable/`,
/// `force-complain/`, and one whose name begins with `cache`. A folder's name has `/` at its end.
#[tactic(auto, unfolding(crate::specs::PassedOver::is_kept_aside))]
pub fn is_kept_aside(member: &[u8]) -> bool
    ensures { result ≡ is_kept_aside member.now }
{
    member == b"disable/".as_slice()
        || member == b"force-complain/".as_slice()
        || (Files::is_folder(member) && begins_with(b"cache", member))
}
