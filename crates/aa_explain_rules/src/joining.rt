//! Requests, joined.

ghost use Rattle.std.specs.Prelude.{◌≡◌};
ghost use Rattle.aa_profile_data.specs.SeenRequests.{request_of};
ghost use Rattle.aa_explain_rules.specs.Joined.{joined};

use aa_profile_data::Request;
use bitflags::Flags;

/// Two requests, joined into one. Where both are for files, which should have one path, it is a request for the letters of both, owned where both
/// are; any two others are taken to be the same, and the result is the first. It takes no memory.
pub fn joined<'a>(one: &Request<'a>, other: &Request<'_>) -> Request<'a>
    ensures { request_of result ≡ joined (request_of one.entry.now) (request_of other.entry.now) }
{
    match (one, other) {
        (
            Request::File { needs, owned, path },
            Request::File {
                needs: more,
                owned: other_owned,
                ..
            },
        ) => Request::File {
            needs: needs.union(*more),
            owned: *owned && *other_owned,
            path,
        },
        _ => *one,
    }
}
