//! What two policy sets are asked, and which answers differ.

ghost use Rattle.std.specs.Prelude.{◌≡◌, ◌++◌, IfOk, OnOk, option_map};
ghost use Rattle.aatry_diff.specs.Folders.{seen_folders};
ghost use Rattle.aatry_diff.specs.SeenDifferences.{seen_differences};
ghost use Rattle.aatry_diff.specs.Sources.{differences_of, differences_unless, seen_source, summary_text, told_requests};
ghost use Rattle.aatry_requests.specs.Gathering.{seen_requests};

use crate::differences::push_differences;
use crate::finding::{Difference, find_differences};
use crate::folders::BothFolders;
use crate::summary::push_summary;
use aa_set_manager::Manager;
use aatry_report::Teller;
use aatry_requests::{Requests, Source, gather};
use std::alloc::{AllocError, Global};

/// What two policy sets are asked, and which answers differ.
#[derive(Clone, Copy)]
pub struct Asked<'a> {
    /// The requests; `None` where there is no source of them.
    pub requests: &'a Option<Requests<'a>>,
    /// Those of their questions whose answers differ, in order.
    pub differences: &'a [Difference<'a, 'a>],
}

/// The requests of a source, by its kind and its bytes, if there is one.
///
/// # Errors
///
/// Where memory runs out.
pub fn requests_of<'a>(
    alloc: Global,
    source: Option<(Source, &'a [u8])>,
) -> Result<Option<Requests<'a>>, AllocError>
    ensures { IfOk result (λ requests. option_map seen_requests requests ≡ seen_source source.entry) }
{
    match source {
        None => Ok(None),
        Some((kind, text)) => Ok(Some(gather(alloc, kind, text)?)),
    }
}

/// The questions of requests whose answers differ between an old and a new policy set, if there are requests (`find_differences`).
///
/// # Errors
///
/// Where memory runs out, also in an answer.
pub fn differences_of<'t, 'a>(
    alloc: Global,
    old: &mut Manager,
    new: &mut Manager,
    requests: &'t Option<Requests<'a>>,
) -> Result<Vec<Difference<'t, 'a>>, AllocError>
    ensures found { IfOk result (λ found. seen_differences found.items
        ≡ differences_of old.old.machine.now new.old.machine.now (option_map seen_requests requests.now)) }
    ensures old { old.new ≡ old.old }
    ensures new { new.new ≡ new.old }
{
    match requests {
        None => Ok(Vec::new(alloc)),
        Some(requests) => find_differences(alloc, old, new, &requests.tallies),
    }
}

// Appends the summary to a text, by how many answers differ, if there are requests.
fn push_summary_of(
    teller: Teller,
    requests: &Option<Requests<'_>>,
    differing: usize,
    out: &mut Vec<u8>,
) -> Result<(), AllocError>
    ensures { OnOk result (out.new.items ≡ out.old.items ++ summary_text teller.form (option_map seen_requests requests.now) differing) }
{
    match requests {
        None => Ok(()),
        Some(requests) => push_summary(teller, requests, differing, out),
    }
}

// Appends each question whose answers differ to a text, unless only counts are reported.
fn push_differences_unless(
    teller: Teller,
    stat: bool,
    folders: &BothFolders<'_>,
    differences: &[Difference<'_, '_>],
    out: &mut Vec<u8>,
) -> Result<(), AllocError>
    ensures { OnOk result (out.new.items
        ≡ out.old.items ++ differences_unless teller.form stat (seen_folders folders.now) (seen_differences differences.now)) }
{
    if stat {
        return Ok(());
    }
    push_differences(teller, folders, differences, out)
}

/// Appends the report on requests to a text: each question whose answers differ (`push_differences`), unless only counts are reported (`stat`), and
/// the summary (`push_summary`). It is empty where there is no source of requests.
///
/// # Errors
///
/// Where memory runs out. A beginning may have been appended then.
pub fn push_asked(
    teller: Teller,
    stat: bool,
    folders: &BothFolders<'_>,
    asked: &Asked<'_>,
    out: &mut Vec<u8>,
) -> Result<(), AllocError>
    ensures { OnOk result (out.new.items ≡ out.old.items
        ++ told_requests teller.form stat (seen_folders folders.now) (option_map seen_requests asked.now.requests.now)
        (seen_differences asked.now.differences.now)) }
{
    push_differences_unless(teller, stat, folders, asked.differences, out)?;
    push_summary_of(teller, asked.requests, asked.differences.len(), out)
}
