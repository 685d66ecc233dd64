//! Which abstractions allow which requests.

ghost use Rattle.std.specs.Prelude.{◌≡◌, ◌++◌, [], IfOk, OnOk, map, option_map};
ghost use Rattle.aa_profile_data.specs.SeenRequests.{request_of};
ghost use Rattle.aatry_abstractions.specs.Letting.{IsNarrowestFirst, is_allow, lets, letting, letting_by, letting_of, lettings, places_let};
ghost use Rattle.aatry_abstractions.specs.SeenLetting.{seen_letting};

use crate::probes::{abstraction, is_abstraction, probed};
use aa_decide::{Answer, Mediation, Ready, Request};
use aa_profile_parsing::Language;
use aa_text_files::Files;
use std::alloc::{AllocError, Global};

/// An abstraction that allows some requests.
#[derive(Drop)]
pub struct LettingAbstraction {
    /// Its name in the folder.
    pub name: Vec<u8>,
    /// How many rules it has, each expansion counted.
    pub size: usize,
    /// The indexes of the requests that it allows, from 0, in their order. There is at least one.
    pub places: Vec<usize>,
}

// Whether an answer allows a request.
fn is_allow(answer: Answer) -> bool
    ensures { result ≡ is_allow answer }
{
    match answer {
        Answer::Allow => true,
        Answer::Complain | Answer::Deny | Answer::Refuse => false,
    }
}

// Remembers which states are live at the places of a request's path (`Ready::remember`), so that the next look at it is quicker.
fn remember(alloc: Global, profile: &mut Ready, request: &Request<'_>)
    ensures { profile.new ≡ profile.old }
{
    if let Request::File { path, .. } = request {
        profile.remember(alloc, None, path);
    }
}

// Whether the rules of a profile allow a request by themselves.
fn lets(alloc: Global, profile: &mut Ready, request: &Request<'_>) -> Result<bool, AllocError>
    ensures lets { IfOk result (λ lets_it. lets_it ≡ lets profile.old (request_of request.entry.now)) }
    ensures same { profile.new ≡ profile.old }
{
    remember(alloc, profile, request);
    let verdict = profile
        .section(None)
        .decide_once(alloc, Mediation::Enforcing, request)?;
    Ok(is_allow(verdict.answer))
}

// The indexes of the requests that a profile allows.
fn places_let(
    alloc: Global,
    profile: &mut Ready,
    requests: &[Request<'_>],
) -> Result<Vec<usize>, AllocError>
    ensures { IfOk result (λ places. places.items ≡ places_let profile.old 0 (map request_of requests.now)) }
{
    let mut places = Vec::new(alloc);
    let mut place = 0;
    let mut rest = requests;
    while let [request, behind @ ..] = rest {
        if lets(alloc, profile, request)? {
            places.push(place)?;
        }
        place += 1;
        rest = behind;
    }
    Ok(places)
}

// Appends an abstraction to the found ones, if it allows any of the requests.
fn push_letting(
    alloc: Global,
    name: &[u8],
    size: usize,
    places: Vec<usize>,
    found: &mut Vec<LettingAbstraction>,
) -> Result<(), AllocError>
    ensures { OnOk result (map seen_letting found.new.items ≡ map seen_letting found.old.items ++ letting name.now size places.items) }
{
    if places.is_empty() {
        return Ok(());
    }
    let name = Vec::from_slice(alloc, name)?;
    found.push(LettingAbstraction { name, size, places })?;
    Ok(())
}

// Appends an abstraction to the found ones, if it can be read and allows any of the requests.
fn push_read(
    alloc: Global,
    name: &[u8],
    requests: &[Request<'_>],
    profile: Option<Ready>,
    found: &mut Vec<LettingAbstraction>,
) -> Result<(), AllocError>
    ensures { OnOk result (map seen_letting found.new.items
        ≡ map seen_letting found.old.items ++ letting_by name.now (map request_of requests.now) (option_map (λ ready. ready) profile)) }
{
    let Some(profile) = profile else {
        return Ok(());
    };
    let mut ready = profile;
    let size = ready.profile.rules.as_slice().len();
    let places = places_let(alloc, &mut ready, requests)?;
    push_letting(alloc, name, size, places, found)
}

// Appends a file to the found abstractions, if it is an abstraction that allows any of the requests.
fn push_file(
    alloc: Global,
    language: Language,
    files: &Files,
    name: &[u8],
    requests: &[Request<'_>],
    found: &mut Vec<LettingAbstraction>,
) -> Result<(), AllocError>
    ensures { OnOk result (map seen_letting found.new.items
        ≡ map seen_letting found.old.items ++ letting_of language files.now (map request_of requests.now) (name.now, [])) }
{
    if !is_abstraction(name) {
        return Ok(());
    }
    let profile = abstraction(alloc, language, files, name)?;
    push_read(alloc, name, requests, profile, found)
}

// The abstractions of a folder's files that allow any of some requests, in the order of the files.
fn all_letting(
    alloc: Global,
    language: Language,
    files: &Files,
    requests: &[Request<'_>],
) -> Result<Vec<LettingAbstraction>, AllocError>
    ensures { IfOk result (λ found. map seen_letting found.items ≡ lettings language files.now (map request_of requests.now)) }
{
    let probed = probed(alloc, files)?;
    let mut found = Vec::new(alloc);
    for place in 0..files.len() {
        push_file(
            alloc,
            language,
            &probed,
            files.name_at(place),
            requests,
            &mut found,
        )?;
    }
    Ok(found)
}

/// The abstractions of a folder's files that allow any of some requests by their own rules, ordered by how many rules they have, the fewest first.
/// Each is read by a language as by a profile that includes it, after `tunables/global`, where the folder has that; an abstraction that is refused
/// there is passed over. Files in a folder of additions, such as `abstractions/base.d/`, are no abstractions.
///
/// # Errors
///
/// Where memory runs out.
pub fn letting_abstractions(
    alloc: Global,
    language: Language,
    files: &Files,
    requests: &[Request<'_>],
) -> Result<Vec<LettingAbstraction>, AllocError>
    ensures { IfOk result (λ found. IsNarrowestFirst (lettings language files.now (map request_of requests.now)) (map seen_letting found.items)) }
{
    let mut found = all_letting(alloc, language, files, requests)?;
    found.sort_by(|one, other| one.size.cmp(&other.size))?;
    Ok(found)
}
