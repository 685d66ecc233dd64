//! Which rules are near a request.

use aa_decide::Request;
use aa_explain::{AskedRules, near_rules};
use aa_profile::{Perms, Rule};
use std::alloc::{AllocError, Global};

/// The places of those of some rules that allow something at a path, but not that its file is locked.
pub fn near_places(alloc: Global, rules: &[Rule], path: &[u8]) -> Result<Vec<usize>, AllocError> {
    let request = Request::File {
        needs: Perms::LOCK,
        owned: false,
        path,
    };
    let audit = false;
    near_rules(alloc, AskedRules::Listed { audit, rules }, &request)
}
