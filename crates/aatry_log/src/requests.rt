//! The report on requests.

ghost use Rattle.std.specs.Prelude.{◌≡◌, ◌≤◌, ◌++◌, IfOk, OnOk};
ghost use Rattle.aatry_folder.specs.Reports.{failed_by};
ghost use Rattle.aatry_log.specs.Requests.{AreRequestsTold, request_text};
ghost use Rattle.aatry_policy.specs.Folders.{loaded_in, origins_in, policy_in, seen_folder};
ghost use Rattle.aatry_requests.specs.SeenTallies.{seen_tally};
ghost use Rattle.aatry_uncertain.specs.LeftOutHeads.{heads_left_out};
ghost use Rattle.aatry_uncertain.specs.SeenHeads.{all_left_out};
ghost use Rattle.aatry_why.specs.Why.{has_answer};

use crate::heads::push_head;
use crate::prefixing::push_prefixed;
use aatry_folder::failed_by;
use aatry_policy::LoadedFolder;
use aatry_report::Teller;
use aatry_requests::{Tallies, Tally, most_asked_first};
use aatry_uncertain::LeftOutHeads;
use aatry_why::push_asked;
use std::alloc::AllocError;

// Appends a request to a text, with the answer of the policy of a loaded folder, and returns 1 where its asker doesn't exist, else 0.
fn push_request(
    teller: Teller,
    loaded: &mut LoadedFolder<'_>,
    left_out: &LeftOutHeads<'_>,
    tally: &Tally<'_>,
    out: &mut Vec<u8>,
) -> Result<usize, AllocError>
    requires set { loaded.old.policy.manager ≡ loaded_in (seen_folder loaded.old.folder.now) }
    requires origins { loaded.old.policy.origins.items ≡ origins_in (seen_folder loaded.old.folder.now) }
    requires base { left_out.now.base.now ≡ (seen_folder loaded.old.folder.now).base }
    requires heads { all_left_out left_out.now.heads.items ≡ heads_left_out (seen_folder loaded.old.folder.now) }
    ensures told { OnOk result (out.new.items ≡ out.old.items ++ request_text teller.form (seen_folder loaded.old.folder.now) (seen_tally tally.now)) }
    ensures nobody { IfOk result (λ nobody.
        nobody ≡ failed_by (has_answer (policy_in (seen_folder loaded.old.folder.now)) (seen_tally tally.now).question)) }
    ensures one { IfOk result (λ nobody. nobody ≤ 1) }
    ensures folder { loaded.new.folder.now ≡ loaded.old.folder.now }
    ensures manager { loaded.new.policy.manager ≡ loaded.old.policy.manager }
    ensures places { loaded.new.policy.origins.items ≡ loaded.old.policy.origins.items }
{
    push_head(teller, tally, out)?;
    let mut told = Vec::new(teller.alloc);
    let found = push_asked(
        teller,
        loaded,
        left_out,
        &tally.question.question(),
        &mut told,
    )?;
    push_prefixed(teller.form, b"  ", &told, out)?;
    Ok(failed_by(found))
}

/// Appends requests to a text, the most frequent first, each with the present answer of the policy of a loaded folder, the rules that decide it, and
/// the profiles that are left out on which it could depend, as `why` prints them; and returns how many of them have an asker that isn't loaded.
///
/// # Errors
///
/// Where memory runs out. A beginning may have been appended then.
pub fn push_requests(
    teller: Teller,
    loaded: &mut LoadedFolder<'_>,
    left_out: &LeftOutHeads<'_>,
    tallies: &Tallies<'_>,
    out: &mut Vec<u8>,
) -> Result<usize, AllocError>
    requires set { loaded.old.policy.manager ≡ loaded_in (seen_folder loaded.old.folder.now) }
    requires origins { loaded.old.policy.origins.items ≡ origins_in (seen_folder loaded.old.folder.now) }
    requires base { left_out.now.base.now ≡ (seen_folder loaded.old.folder.now).base }
    requires heads { all_left_out left_out.now.heads.items ≡ heads_left_out (seen_folder loaded.old.folder.now) }
    ensures { IfOk result (λ nobody. AreRequestsTold teller.form (seen_folder loaded.old.folder.now) tallies.now out.old.items out.new.items nobody) }
{
    let told = most_asked_first(teller.alloc, tallies)?;
    let mut nobody: usize = 0;
    for tally in told {
        nobody += push_request(teller, loaded, left_out, tally, out)?;
    }
    Ok(nobody)
}
