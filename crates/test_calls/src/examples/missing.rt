//! Which rule is missing.

use aa_decide::Request;
use aa_explain::{AskedRules, missing_rule};
use aa_profile::{Perms, Rule};
use std::alloc::{AllocError, Global};

/// The pattern and the letters of the rule that some rules lack to let a file be written, if they lack one.
pub fn missing_text(
    alloc: Global,
    rules: &[Rule],
    path: &[u8],
) -> Result<Option<Vec<u8>>, AllocError> {
    let request = Request::File {
        needs: Perms::WRITE,
        owned: false,
        path,
    };
    let audit = false;
    match missing_rule(alloc, AskedRules::Listed { audit, rules }, &request)? {
        Some(Rule::File(rule)) => {
            let mut text = Vec::from_slice(alloc, rule.pattern.text())?;
            text.push(b' ')?;
            rule.access.push_letters(&mut text)?;
            Ok(Some(text))
        }
        _ => Ok(None),
    }
}
