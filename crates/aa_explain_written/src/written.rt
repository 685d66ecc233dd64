//! Rules as a profile's file writes them.

ghost use Rattle.std.specs.Prelude.{◌≡◌, ◌≤◌, ◌++◌, ◌∷◌, [], IfOk, OnOk, codes, length, map};
ghost use Rattle.aa_bytes.specs.Bytes.{comma, quote, space};
ghost use Rattle.std.specs.Option.{option_map};
ghost use Rattle.aa_explain_written.specs.Quotes.{between_quotes};
ghost use Rattle.aa_explain_written.specs.Written.{access_text, file_text, has_access, has_no_more, is_inherited, name_of_one, owner_text};
ghost use Rattle.aa_explain_written.specs.Written.{lets_of_one, rank_of_one, type_name, word_text};
ghost use Rattle.aa_explain_written.specs.Written.{written_capability, written_file, written_network, written_rule};

use crate::quotes::{between_quotes, fits_quotes};
use aa_profile_data::{
    CAPABILITIES, CapRule, ExecWord, FileRule, NetRule, Perms, Rank, Rule, Transition, domain_name,
    is_protocol, kind_name, which_names_tables_hold,
};
use bitflags::Flags;
use std::alloc::{AllocError, Global};

// Sets of the letters that requests can ask for are less than this.
const ASKED_LETTERS: u8 = 64;

// Appends the exec word of a rule to a text, if it has one.
fn push_word(text: &mut Vec<u8>, exec: &Option<Transition>) -> Result<(), AllocError>
    ensures { OnOk result (text.new.items ≡ text.old.items ++ word_text exec.now) }
{
    match exec {
        None => Ok(()),
        Some(transition) => text.extend_from_slice(transition.word.text().as_bytes()),
    }
}

// Appends `owner ` to a text, if the rule has it.
fn push_owner(text: &mut Vec<u8>, owner: bool) -> Result<(), AllocError>
    ensures { OnOk result (text.new.items ≡ text.old.items ++ owner_text owner) }
{
    if owner {
        text.extend_from_slice(b"owner ")?;
    }
    Ok(())
}

// Appends the access of a rule on files to a text.
fn push_access(text: &mut Vec<u8>, rule: &FileRule) -> Result<(), AllocError>
    ensures { OnOk result (text.new.items ≡ text.old.items ++ access_text rule.now) }
{
    rule.access.push_letters(text)?;
    push_word(text, &rule.exec)
}

// Appends a pattern in quotes and a blank to a text.
fn push_pattern(text: &mut Vec<u8>, pattern: &[u8]) -> Result<(), AllocError>
    ensures { OnOk result (text.new.items ≡ text.old.items ++ quote ∷ pattern.now ++ quote ∷ space ∷ []) }
{
    text.push(b'"')?;
    text.extend_from_slice(pattern)?;
    text.extend_from_slice(b"\" ")
}

// The text of a rule on files, from its pattern in quotes.
fn file_text(alloc: Global, rule: &FileRule, pattern: &[u8]) -> Result<Vec<u8>, AllocError>
    requires { pattern.now ≡ between_quotes rule.now.pattern }
    ensures { IfOk result (λ text. text.items ≡ file_text rule.now) }
{
    let mut text = Vec::new(alloc);
    push_owner(&mut text, rule.owner)?;
    text.extend_from_slice(b"file ")?;
    push_rest(&mut text, rule, pattern)?;
    Ok(text)
}

// Appends a pattern in quotes, the access of its rule, and the comma that ends it to a text.
fn push_rest(text: &mut Vec<u8>, rule: &FileRule, pattern: &[u8]) -> Result<(), AllocError>
    ensures { OnOk result (text.new.items ≡ text.old.items ++ quote ∷ pattern.now ++ quote ∷ space ∷ access_text rule.now ++ comma ∷ []) }
{
    push_pattern(text, pattern)?;
    push_access(text, rule)?;
    text.push(b',')?;
    Ok(())
}

// Whether a program runs under the profile that starts it, where a rule has an exec word.
fn is_inherited(exec: &Option<Transition>) -> bool
    ensures { result ≡ is_inherited exec.now }
{
    match exec {
        None => true,
        Some(transition) => {
            transition.word.is_same(ExecWord::Inherit) && transition.target.is_none()
        }
    }
}

// Whether a rule allows something by letters that requests can ask for, without both `w` and `a`, or by an exec word.
fn has_access(rule: &FileRule) -> bool
    ensures { result ≡ has_access rule.now }
{
    let letters = rule.access;
    letters.bits() < ASKED_LETTERS
        && !(letters.contains(Perms::WRITE) && letters.contains(Perms::APPEND))
        && !(letters.bits() == 0 && rule.exec.is_none())
}

// Whether a rule says no more than what its letters and `ix` allow.
fn has_no_more(rule: &FileRule) -> bool
    ensures { result ≡ has_no_more rule.now }
{
    !(rule.deny || rule.audit) && rule.link.is_none() && is_inherited(&rule.exec)
}

// The rank of a rule on one path.
fn rank_of_one(rule: &FileRule) -> Rank
    ensures { result ≡ rank_of_one rule.now }
{
    if rule.exec.is_some() {
        Rank::Plain
    } else {
        Rank::Loose
    }
}

// Whether a rule allows something of one path alone, by letters and by `ix`.
fn lets_of_one(rule: &FileRule) -> bool
    ensures { result ≡ lets_of_one rule.now }
{
    has_no_more(rule)
        && has_access(rule)
        && rule.rank.is_same(rank_of_one(rule))
        && rule.pattern.is_exact()
}

// The text of a rule on files, if it can be written.
fn written_file(alloc: Global, rule: &FileRule) -> Result<Option<Vec<u8>>, AllocError>
    ensures { IfOk result (λ made. option_map (λ text. text.items) made ≡ written_file rule.now) }
{
    if !lets_of_one(rule) {
        return Ok(None);
    }
    let pattern = between_quotes(alloc, rule.pattern.text())?;
    if !fits_quotes(&pattern) {
        return Ok(None);
    }
    Ok(Some(file_text(alloc, rule, &pattern)?))
}

// The name of the capability of a set that has only one, or `None`.
fn name_of_one<'a>(set: u64, names: &[&'a str]) -> Option<&'a str>
    requires { length names.now ≤ 63 }
    ensures { option_map (λ name. name.now) result ≡ name_of_one set 0 (map (λ name. name.now) names.now) }
{
    let mut number: u8 = 0;
    let mut rest = names;
    while let [name, behind @ ..] = rest {
        if set == 1 << number {
            return Some(name);
        }
        number += 1;
        rest = behind;
    }
    None
}

// The text of a rule on one capability.
fn capability_text(alloc: Global, name: &str) -> Result<Vec<u8>, AllocError>
    ensures { IfOk result (λ text. text.items ≡ codes "capability " ++ name.now ++ comma ∷ []) }
{
    let mut text = Vec::new(alloc);
    text.extend_from_slice(b"capability ")?;
    text.extend_from_slice(name.as_bytes())?;
    text.push(b',')?;
    Ok(text)
}

// The text of a rule on capabilities, if it can be written.
fn written_capability(alloc: Global, rule: &CapRule) -> Result<Option<Vec<u8>>, AllocError>
    ensures { IfOk result (λ made. option_map (λ text. text.items) made ≡ written_capability rule.now) }
{
    if rule.deny || rule.audit {
        return Ok(None);
    }
    which_names_tables_hold();
    match name_of_one(rule.caps, &CAPABILITIES) {
        None => Ok(None),
        Some(name) => Ok(Some(capability_text(alloc, name)?)),
    }
}

// The text of a rule on the sockets of a domain and a type.
fn network_text(alloc: Global, domain: &str, kind: &str) -> Result<Vec<u8>, AllocError>
    ensures { IfOk result (λ text. text.items ≡ codes "network " ++ domain.now ++ space ∷ kind.now ++ comma ∷ []) }
{
    let mut text = Vec::new(alloc);
    text.extend_from_slice(b"network ")?;
    text.extend_from_slice(domain.as_bytes())?;
    push_kind(&mut text, kind)?;
    Ok(text)
}

// Appends a blank, a type, and the comma that ends the rule to a text.
fn push_kind(text: &mut Vec<u8>, kind: &str) -> Result<(), AllocError>
    ensures { OnOk result (text.new.items ≡ text.old.items ++ space ∷ kind.now ++ comma ∷ []) }
{
    text.push(b' ')?;
    text.extend_from_slice(kind.as_bytes())?;
    text.push(b',')?;
    Ok(())
}

// The name of a type, or `None` for a protocol.
fn type_name(kind: u8) -> Option<&'static str>
    ensures { option_map (λ name. name.now) result ≡ type_name kind }
{
    if is_protocol(kind) {
        return None;
    }
    kind_name(kind)
}

// The text of a rule on sockets, if it can be written.
fn written_network(alloc: Global, rule: &NetRule) -> Result<Option<Vec<u8>>, AllocError>
    ensures { IfOk result (λ made. option_map (λ text. text.items) made ≡ written_network rule.now) }
{
    if rule.deny || rule.audit {
        return Ok(None);
    }
    let (Some(domain), Some(kind)) = (rule.domain, rule.kind) else {
        return Ok(None);
    };
    match (domain_name(domain), type_name(kind)) {
        (Some(domain), Some(kind)) => Ok(Some(network_text(alloc, domain, kind)?)),
        _ => Ok(None),
    }
}

/// A rule as a profile's file writes it, so that it can be pasted into one: a rule on files that allows something of one path, as `owner file "/a"
/// rix,`, one that allows one capability, or one that allows the sockets of one type in one domain. `None` for a rule that denies or is audited,
/// that has another exec word or a target, or whose path has a line feed or is too long with the backslashes that it needs.
///
/// # Errors
///
/// Where memory runs out.
pub fn written_rule(alloc: Global, rule: &Rule) -> Result<Option<Vec<u8>>, AllocError>
    ensures { IfOk result (λ made. option_map (λ text. text.items) made ≡ written_rule rule.now) }
{
    match rule {
        Rule::File(rule) => written_file(alloc, rule),
        Rule::Cap(rule) => written_capability(alloc, rule),
        Rule::Net(rule) => written_network(alloc, rule),
        Rule::Other(_) => Ok(None),
    }
}
