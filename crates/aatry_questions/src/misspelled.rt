//! Wrong words, with the known one that may have been meant.

ghost use Rattle.std.specs.Prelude.{◌≡◌, ◌++◌, IfOk, OnOk, map, option_map};
ghost use Rattle.std.specs.Option.{option_to_list};
ghost use Rattle.aa_profile_data.specs.Domains.{names as domain_names};
ghost use Rattle.aatry_questions.specs.Faults.{seen_fault};
ghost use Rattle.aatry_questions.specs.Misspelled.{Tells, known_words, likely_word, misspells_kind};

use crate::faults::{WordFault, Wrong, kind_of};
use crate::reading::needs_fault;
use aa_bytes::Sequence;
use aa_profile_data::{CAPABILITIES, domain_name, which_names_tables_hold};
use aatry_words::{likely_name, nearest_text};
use std::alloc::{AllocError, Global};

// The kinds of questions.
const KINDS: [&str; 4] = ["file", "exec", "cap", "net"];

// The words that say whether a file is owned.
const OWNED: [&str; 2] = ["owner", "other"];

// The types of sockets, each at the index of its number.
const SOCKET_TYPES: [&str; 6] = ["stream", "dgram", "seqpacket", "rdm", "raw", "packet"];

/// What is wrong with the words of a question, with which of them, and what may have been meant.
#[derive(Drop)]
pub struct QuestionFault {
    /// What is wrong.
    pub wrong: Wrong,
    /// The word, or the byte of it. It is empty where the fault is in no single word.
    pub word: Sequence<u8>,
    /// The word that is known there and nearest to it, if one is near.
    pub near: Option<&'static [u8]>,
}

// How many domains of sockets there are.
const DOMAIN_COUNT: u8 = 44;

// Appends a name to `names`, if there is one.
fn push_name(name: Option<&'static str>, names: &mut Vec<&'static str>) -> Result<(), AllocError>
    ensures { OnOk result (map (λ name. name.now) names.new.items
        ≡ map (λ name. name.now) names.old.items ++ option_to_list (option_map (λ name. name.now) name.entry)) }
{
    if let Some(name) = name {
        names.push(name)?;
    }
    Ok(())
}

// The names of the domains of sockets, each at the index of its number.
fn domain_names(alloc: Global) -> Result<Vec<&'static str>, AllocError>
    ensures { IfOk result (λ names. map (λ name. name.now) names.items ≡ domain_names) }
{
    let mut names = Vec::new(alloc);
    for number in 0..DOMAIN_COUNT {
        push_name(domain_name(number), &mut names)?;
    }
    Ok(names)
}

// The words that are known in place of a wrong one.
fn known_words(alloc: Global, wrong: Wrong) -> Result<Vec<&'static str>, AllocError>
    ensures { IfOk result (λ words. map (λ word. word.now) words.items ≡ known_words wrong) }
{
    which_names_tables_hold();
    match wrong {
        Wrong::Kind => Vec::from_slice(alloc, &KINDS),
        Wrong::Owned => Vec::from_slice(alloc, &OWNED),
        Wrong::Capability => Vec::from_slice(alloc, &CAPABILITIES),
        Wrong::Domain => domain_names(alloc),
        Wrong::SocketType => Vec::from_slice(alloc, &SOCKET_TYPES),
        _ => Ok(Vec::new(alloc)),
    }
}

// The word that is compared with those that are known in its place.
fn likely_word(alloc: Global, wrong: Wrong, word: &[u8]) -> Result<Vec<u8>, AllocError>
    ensures { IfOk result (λ likely. likely.items ≡ likely_word wrong word.now) }
{
    match wrong {
        Wrong::Capability => likely_name(alloc, word),
        _ => Vec::from_slice(alloc, word),
    }
}

/// A fault with the known word that is nearest to the wrong one, if one is near: of several the first in the order of their table. The name of a
/// capability is compared like the kernel and its tools write it (`aatry_words::likely_name`).
///
/// # Errors
///
/// Where memory runs out.
pub fn with_nearest(alloc: Global, fault: WordFault<'_>) -> Result<QuestionFault, AllocError>
    ensures { IfOk result (λ told. Tells told (seen_fault fault.entry)) }
{
    let known = known_words(alloc, fault.wrong)?;
    let likely = likely_word(alloc, fault.wrong, fault.word)?;
    let near = nearest_text(alloc, &likely, &known)?;
    Ok(QuestionFault {
        wrong: fault.wrong,
        word: Sequence::from_slice(alloc, fault.word)?,
        near,
    })
}

/// Whether a word that is no kind of questions may stand for one: it is near one (`aatry_words::nearest`), and no access that a question for a file
/// may have (`meant_fault`).
///
/// # Errors
///
/// Where memory runs out.
pub fn misspells_kind(alloc: Global, word: &[u8]) -> Result<bool, AllocError>
    ensures { IfOk result (λ misspells. misspells ≡ misspells_kind word.now) }
{
    if kind_of(word).is_some() || needs_fault(word).is_none() {
        return Ok(false);
    }
    match nearest_text(alloc, word, &KINDS)? {
        Some(_) => Ok(true),
        None => Ok(false),
    }
}
