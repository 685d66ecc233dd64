//! The rules that allow the requests of logs, as they are printed.

ghost use Rattle.std.specs.Prelude.{◌≡◌, ◌++◌, [], IfOk, List, None, OnOk, map};
ghost use Rattle.std.specs.Option.{option_copied, option_map};
ghost use Rattle.aa_profile_data.specs.SeenRequests.{request_of};
ghost use Rattle.aatry_abstractions.specs.Letting.{IsNarrowestFirst, Letting, lettings};
ghost use Rattle.aatry_abstractions.specs.SeenLetting.{seen_letting};
ghost use Rattle.aatry_log_rules.specs.SeenTelling.{seen_telling};
ghost use Rattle.aatry_log_rules.specs.SeenWanted.{seen_wanted};
ghost use Rattle.aatry_log_rules.specs.Told.{AreOffered, AreRulesTold, denied_text, finding_text, found_for, found_text, opening_behind, told_behind, told_of};
ghost use Rattle.aatry_log_rules.specs.Told.{telling_of, wanted_text, wanted_texts, wider_of};
ghost use Rattle.aatry_log_rules.specs.Wider.{told_with};
ghost use Rattle.aatry_policy.specs.Folders.{loaded_in, origins_in, seen_folder};
ghost use Rattle.aatry_requests.specs.SeenTallies.{seen_all};

use crate::finding::{Finding, NoRule, finding_of};
use crate::found::push_rule;
use crate::gathering::{RuleWants, gather_wants};
use crate::headings::{file_for, is_of, push_heading};
use crate::offers::push_offers;
use crate::telling_by::RuleTelling;
use crate::unlet::{push_unlet, question_of};
use crate::wanted::Wanted;
use crate::wider::{WiderTold, wider_for};
use aa_profile_data::Request;
use aatry_abstractions::{LettingAbstraction, letting_abstractions};
use aatry_folder::PolicyFolder;
use aatry_policy::LoadedFolder;
use aatry_report::Teller;
use aatry_requests::{Tallies, Tally};
use std::alloc::{AllocError, Global};

// Appends the finding for a wanted request to a text, by the path of the file, as a record with the wider rule, if there is one.
fn push_finding(
    teller: Teller,
    path: &[u8],
    wanted: &Wanted<'_>,
    finding: &Finding,
    wider: Option<&[u8]>,
    out: &mut Vec<u8>,
) -> Result<(), AllocError>
    ensures { OnOk result (out.new.items
        ≡ out.old.items ++ finding_text teller.form path.now (seen_wanted wanted.now) finding.now (option_copied wider.entry)) }
{
    match finding {
        Finding::Missing(rule) => push_rule(teller, path, wanted, rule, wider, out),
        Finding::None(reason) => push_unlet(
            teller,
            *reason,
            &question_of(wanted),
            wanted.times,
            out,
        ),
    }
}

// The bytes of a text, if there is one.
fn as_slice(text: &Option<Vec<u8>>) -> Option<&[u8]>
    ensures { option_copied result ≡ option_map (λ text. text.items) text.now }
{
    match text {
        None => None,
        Some(text) => Some(text.as_slice()),
    }
}

// Appends the finding for a wanted request to a text, by the path of the file, followed by the wider rule, if wider rules are asked for, there is
// one, and it isn't printed yet.
fn push_found(
    telling: &RuleTelling<'_, '_>,
    path: &[u8],
    wanted: &Wanted<'_>,
    told: &mut WiderTold,
    out: &mut Vec<u8>,
) -> Result<(), AllocError>
    ensures text { OnOk result (out.new.items ≡ out.old.items ++ found_text telling.now.teller.form path.now (seen_wanted wanted.now)
        (found_for (seen_telling telling.now) (seen_wanted wanted.now)) (wider_of (seen_telling telling.now) (seen_wanted wanted.now)) told.old) }
    ensures told { OnOk result (told.new ≡ told_with (wider_of (seen_telling telling.now) (seen_wanted wanted.now)) told.old) }
{
    let teller = telling.teller;
    let finding = finding_of(teller.alloc, telling.slots, wanted)?;
    let wider = wider_for(teller.alloc, telling.globs, &wanted.request, &finding)?;
    push_finding(teller, path, wanted, &finding, as_slice(&wider), out)?;
    told.push(teller.form, wider, out)
}

// Appends the heading of an asker's rules to a text, and the abstractions that allow some of its requests, where the last rule was another asker's.
fn push_opening_behind(
    telling: &RuleTelling<'_, '_>,
    last: Option<&[u8]>,
    path: &[u8],
    who: &[u8],
    out: &mut Vec<u8>,
) -> Result<(), AllocError>
    ensures { OnOk result (out.new.items ≡ out.old.items ++ opening_behind (seen_telling telling.now) (option_copied last.entry) path.now who.now) }
{
    if is_of(last, who) {
        return Ok(());
    }
    push_heading(telling.teller.form, path, who, out)?;
    push_offers(telling, path, who, out)
}

// Appends a wanted request to a text, after the heading of its asker, where the last rule was another asker's; `told` has the wider rules that are
// printed for the last asker.
fn push_wanted(
    telling: &RuleTelling<'_, '_>,
    last: Option<&[u8]>,
    told: &mut WiderTold,
    wanted: &Wanted<'_>,
    out: &mut Vec<u8>,
) -> Result<(), AllocError>
    ensures text { OnOk result (out.new.items
        ≡ out.old.items ++ wanted_text (seen_telling telling.now) (option_copied last.entry) told.old (seen_wanted wanted.now)) }
    ensures told { OnOk result (told.new ≡ told_behind (seen_telling telling.now) (option_copied last.entry) told.old (seen_wanted wanted.now)) }
{
    let path = file_for(
        telling.teller.alloc,
        telling.base,
        telling.origins,
        wanted.who,
    )?;
    push_opening_behind(telling, last, &path, wanted.who, out)?;
    told.pass_to(last, wanted.who);
    push_found(telling, &path, wanted, told, out)
}

// Appends all wanted requests to a text, in their order.
fn push_all_wanted(telling: &RuleTelling<'_, '_>, out: &mut Vec<u8>) -> Result<(), AllocError>
    ensures { OnOk result (out.new.items ≡ out.old.items ++ wanted_texts (seen_telling telling.now) None [] (seen_telling telling.now).wanted) }
{
    let mut last: Option<&[u8]> = None;
    let mut told = WiderTold::new(telling.teller.alloc);
    let mut rest = telling.wanted;
    while let [one, behind @ ..] = rest {
        push_wanted(telling, last, &mut told, one, out)?;
        last = Some(one.who);
        rest = behind;
    }
    Ok(())
}

// The requests that rules are wanted for.
fn requests_of<'t>(alloc: Global, wanted: &[Wanted<'t>]) -> Result<Vec<Request<'t>>, AllocError>
    ensures { IfOk result (λ requests. map request_of requests.items ≡ map (λ one. one.request) (map seen_wanted wanted.now)) }
{
    let mut requests = Vec::new(alloc);
    let mut rest = wanted;
    while let [one, behind @ ..] = rest {
        requests.push(one.request)?;
        rest = behind;
    }
    Ok(requests)
}

// The abstractions of a folder that allow some of the wanted requests.
fn abstractions_for(
    alloc: Global,
    folder: &PolicyFolder<'_>,
    wanted: &[Wanted<'_>],
) -> Result<Vec<LettingAbstraction>, AllocError>
    ensures { IfOk result (λ found. IsNarrowestFirst
        (lettings folder.now.language folder.now.files (map (λ one. one.request) (map seen_wanted wanted.now))) (map seen_letting found.items)) }
{
    let requests = requests_of(alloc, wanted)?;
    letting_abstractions(alloc, folder.language, &folder.files, &requests)
}

// Appends all wanted requests of the profiles of a loaded folder to a text, in their order, with the abstractions that allow some of them.
fn push_told(
    teller: Teller,
    globs: bool,
    loaded: &LoadedFolder<'_>,
    wanted: &[Wanted<'_>],
    out: &mut Vec<u8>,
) -> Result<(), AllocError>
    requires set { loaded.now.policy.manager ≡ loaded_in (seen_folder loaded.now.folder.now) }
    requires origins { loaded.now.policy.origins.items ≡ origins_in (seen_folder loaded.now.folder.now) }
    ensures { OnOk result ((found : List Letting) × AreOffered (seen_folder loaded.now.folder.now) (map seen_wanted wanted.now) found
        × (out.new.items ≡ out.old.items
        ++ wanted_texts (telling_of teller.form globs (seen_folder loaded.now.folder.now) (map seen_wanted wanted.now) found) None [] (map seen_wanted wanted.now))) }
{
    let slots = loaded.policy.manager.policy_set().slots();
    let abstractions = abstractions_for(teller.alloc, loaded.folder, wanted)?;
    let telling = RuleTelling {
        teller,
        globs,
        base: loaded.folder.base.as_bytes(),
        origins: &loaded.policy.origins,
        slots: &slots,
        wanted,
        abstractions: &abstractions,
    };
    push_all_wanted(&telling, out)
}

// Appends requests of which a rule denies something to a text.
fn push_denied(
    teller: Teller,
    tallies: Vec<&Tally<'_>>,
    out: &mut Vec<u8>,
) -> Result<(), AllocError>
    ensures { OnOk result (out.new.items ≡ out.old.items ++ denied_text teller.form (seen_all tallies.entry.items)) }
{
    for tally in tallies {
        push_unlet(
            teller,
            NoRule::Denied,
            &tally.question.question(),
            tally.times,
            out,
        )?;
    }
    Ok(())
}

/// Appends the rules to a text that allow the requests of logs which lack something by the policy of a loaded folder, and returns how many of the
/// requests have an asker that isn't loaded. The rules come below the file and the full name of the asker, in the order of these names, for each
/// asker the most frequently wanted first: one for each path, with those of the needed letters that no rule allows, for its owner alone where all
/// its requests are the owner's; and one for each capability, and for each type of sockets. Before them come the abstractions of the folder that
/// allow some of what they are for (`aatry_abstractions::letting_abstractions`). A comment is in place of a rule where another rule is in its way,
/// or it can't be written. All of them are followed by a comment for each request of which a rule denies something. As records these are of the
/// kinds `abstraction`, `missing` and `no_rule`. Where wider rules are asked for, one follows in a comment after each rule on a path of which
/// something is widened (`aatry_log_globs::wider`), unless an earlier rule of the same name is followed by the same one; as records each is in that
/// of its rule.
///
/// # Errors
///
/// Where memory runs out. A beginning may have been appended then.
pub fn push_rules(
    teller: Teller,
    globs: bool,
    loaded: &LoadedFolder<'_>,
    tallies: &Tallies<'_>,
    out: &mut Vec<u8>,
) -> Result<usize, AllocError>
    requires set { loaded.now.policy.manager ≡ loaded_in (seen_folder loaded.now.folder.now) }
    requires origins { loaded.now.policy.origins.items ≡ origins_in (seen_folder loaded.now.folder.now) }
    ensures { IfOk result (λ nobody. AreRulesTold teller.form globs (seen_folder loaded.now.folder.now) tallies.now out.old.items out.new.items nobody) }
{
    let slots = loaded.policy.manager.policy_set().slots();
    let RuleWants {
        wanted,
        denied,
        nobody,
    } = gather_wants(teller.alloc, &slots, tallies)?;
    let wanted = wanted.by_who(teller.alloc)?;
    push_told(teller, globs, loaded, &wanted, out)?;
    push_denied(teller, denied, out)?;
    Ok(nobody)
}
