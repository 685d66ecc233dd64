//! Which rules deny a request.

use aa_decide::Request;
use aa_explain::{AskedRules, told_rules};
use aa_profile::{Perms, Rule};
use std::alloc::{AllocError, Global};

/// The places of those of some rules that deny that a file is written.
pub fn denying_places(
    alloc: Global,
    rules: &[Rule],
    path: &[u8],
) -> Result<Vec<usize>, AllocError> {
    let request = Request::File {
        needs: Perms::WRITE,
        owned: true,
        path,
    };
    let audit = false;
    let mut places = Vec::new(alloc);
    for told in told_rules(alloc, AskedRules::Listed { audit, rules }, &request)? {
        if told.denies {
            places.push(told.place)?;
        }
    }
    Ok(places)
}
