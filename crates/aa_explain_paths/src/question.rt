//! Questions about all paths, and their answers.

ghost use Rattle.std.specs.Prelude.{◌≡◌};
ghost use Rattle.aa_profile_data.specs.Request.{ForFile};
ghost use Rattle.aa_profile_data.specs.SeenRequests.{request_of};

use aa_glob_pattern::Pattern;
use aa_profile_data::{Perms, Request};

/// What is claimed of paths.
#[derive(Clone, Copy, Debug, PartialEq, Eq)]
pub enum Claim {
    /// None of the letters is allowed, for any path.
    Never,
    /// All of the letters are allowed, for each path.
    Always,
}

/// Whose files are meant.
#[derive(Clone, Copy, Debug, PartialEq, Eq)]
pub enum Whose {
    /// Files that the task's user owns.
    Owner,
    /// Files of other users.
    Other,
    /// Files of any owner.
    Any,
}

/// A question about all paths that patterns match.
#[derive(Clone, Copy)]
pub struct PathQuestion<'a> {
    /// What is claimed of them.
    pub claim: Claim,
    /// The letters that are asked for.
    pub letters: Perms,
    /// Whose files are meant.
    pub whose: Whose,
    /// The patterns, of which one at least matches each path that is meant.
    pub patterns: &'a [Pattern],
}

/// A path for which a claim fails.
#[derive(Drop)]
pub struct Breaking {
    /// The path.
    pub path: Vec<u8>,
    /// Whether the task's user owns its file: not where a file of another user breaks the claim as well.
    pub owned: bool,
    /// The letters by which it does: for `Never` those that are allowed, and for `Always` those that aren't.
    pub letters: Perms,
}

impl Breaking {
    /// The request whose answer breaks the claim.
    pub fn request(&self) -> Request<'_>
        ensures { request_of result ≡ ForFile self.now.letters.0 self.now.owned self.now.path.items }
    {
        Request::File {
            needs: self.letters,
            owned: self.owned,
            path: &self.path,
        }
    }
}

/// The answer to a question about all paths.
#[derive(Drop)]
pub enum PathAnswer {
    /// The claim holds for each path. So many paths stand for all about which the kernel may ask: no two of them are matched by the same patterns.
    Holds(usize),
    /// The claim fails for this path, and for no shorter one.
    Fails(Breaking),
    /// There are more different beginnings of paths than the limit.
    TooMany,
}
