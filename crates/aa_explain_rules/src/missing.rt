//! The rule that a request lacks.

ghost use Rattle.std.specs.Prelude.{◌≡◌, ◌<◌, ◌^◌, ℕ, IfOk, List};
ghost use Rattle.aa_glob.specs.Laws.{needs_backslash, quoted};
ghost use Rattle.aa_profile_data.specs.Request.{ForFile};
ghost use Rattle.aa_profile_data.specs.SeenRequests.{request_of};
ghost use Rattle.aa_profile_data.specs.declared.profile.Rule.TheVariants.{File as ForFiles};
ghost use Rattle.aa_profile_data.specs.Picked.{picked};
ghost use Rattle.aa_explain_rules.specs.Asked.{rules_of};
ghost use Rattle.aa_explain_rules.specs.Missing.{file_rule_for, lacked, letters_for, missing_rule, rank_for, rule_for, transition_for};

use crate::asked::AskedRules;
use aa_decide_rules::{covers, denies, needs};
use aa_glob_pattern::Pattern;
use aa_profile_data::{
    CapRule, ExecWord, FileRule, NetRule, Perms, Rank, Request, Rule, Transition, is_protocol,
};
use bitflags::Flags;
use std::alloc::{AllocError, Global};

// Whether a byte stands for itself in a pattern only after a backslash.
fn needs_backslash(byte: u8) -> bool
    ensures { result ≡ needs_backslash byte }
{
    matches!(byte, b'\\' | b'*' | b'?' | b'[' | b'{' | b'}')
}

// A path with a backslash before each byte that needs one: the pattern of this path alone.
fn quoted(alloc: Global, path: &[u8]) -> Result<Vec<u8>, AllocError>
    ensures { IfOk result (λ text. text.items ≡ quoted path.now) }
{
    let mut text = Vec::new(alloc);
    let mut rest = path;
    while let [byte, behind @ ..] = rest {
        if needs_backslash(*byte) {
            text.push(b'\\')?;
        }
        text.push(*byte)?;
        rest = behind;
    }
    Ok(text)
}

// The letters of a rule that allows some needs of a file.
fn letters_for(needs: Perms) -> Perms
    ensures { result.0 ≡ letters_for needs.0 }
{
    let letters = needs.difference(Perms::EXEC);
    if needs.contains(Perms::WRITE) {
        letters.difference(Perms::APPEND)
    } else {
        letters
    }
}

// The exec word of a rule that allows some needs of a file, where a program is to start.
fn transition_for(needs: Perms) -> Option<Transition>
    ensures { result ≡ transition_for needs.0 }
{
    if needs.contains(Perms::EXEC) {
        Some(Transition {
            word: ExecWord::Inherit,
            target: None,
        })
    } else {
        None
    }
}

// The rank of a rule that allows some needs of a file.
fn rank_for(pattern: &Pattern, needs: Perms) -> Rank
    ensures { result ≡ rank_for pattern.now needs.0 }
{
    if needs.contains(Perms::EXEC) && pattern.is_exact() {
        Rank::Plain
    } else {
        Rank::Loose
    }
}

// A rule that allows some needs of a file, of which this is the pattern.
fn file_rule_for(pattern: Pattern, owned: bool, needs: Perms) -> Rule
    ensures { (path : List ℕ) → pattern ≡ quoted path → result ≡ ForFiles (file_rule_for owned path needs.0) }
{
    let rank = rank_for(&pattern, needs);
    Rule::File(FileRule {
        pattern,
        access: letters_for(needs),
        exec: transition_for(needs),
        rank,
        link: None,
        owner: owned,
        deny: false,
        audit: false,
    })
}

// A rule that allows some needs of a file, where its path can be written as a pattern.
fn rule_for_file(
    alloc: Global,
    letters: Perms,
    owned: bool,
    path: &[u8],
    needs: Perms,
) -> Result<Option<Rule>, AllocError>
    ensures { IfOk result (λ rule. rule ≡ rule_for (ForFile letters.0 owned path.now) needs.0) }
{
    match Pattern::from_vec(quoted(alloc, path)?) {
        Ok(pattern) => Ok(Some(file_rule_for(pattern, owned, needs))),
        Err(_) => Ok(None),
    }
}

// The set of one capability.
fn set_of(number: u8) -> u64
    requires { number < 64 }
    ensures { result ≡ 2 ^ number }
{
    1 << number
}

// A rule that allows some needs of a request and nothing else, where there is one.
fn rule_for(
    alloc: Global,
    request: &Request<'_>,
    missing: Perms,
) -> Result<Option<Rule>, AllocError>
    ensures { IfOk result (λ rule. rule ≡ rule_for (request_of request.entry.now) missing.0) }
{
    match request {
        Request::File { needs, owned, path } => {
            rule_for_file(alloc, *needs, *owned, path, missing)
        }
        Request::Cap(number) => {
            if *number >= 64 {
                return Ok(None);
            }
            Ok(Some(Rule::Cap(CapRule {
                caps: set_of(*number),
                deny: false,
                audit: false,
            })))
        }
        Request::Net { domain, kind } => {
            if is_protocol(*kind) {
                return Ok(None);
            }
            Ok(Some(Rule::Net(NetRule {
                domain: Some(*domain),
                kind: Some(*kind),
                deny: false,
                audit: false,
            })))
        }
    }
}

// What a request lacks by the rules at some places: the needs that no rule denies or allows, where none is denied.
pub fn lacked(request: &Request<'_>, rules: &[Rule], places: &[usize]) -> Perms
    ensures { result.0 ≡ lacked (request_of request.entry.now) (picked rules.now places.now) }
{
    let mut denied = Perms::empty();
    let mut granted = Perms::empty();
    let mut rest = places;
    while let [place, behind @ ..] = rest {
        if let Some(rule) = rules.get(*place) {
            if denies(rule) {
                denied = denied.union(covers(request, rule));
            } else {
                granted = granted.union(covers(request, rule));
            }
        }
        rest = behind;
    }
    if denied.is_empty() {
        needs(request).difference(denied.union(granted.difference(denied)))
    } else {
        Perms::empty()
    }
}

/// Returns the rule that a request lacks: the narrowest that allows what no rule allows of it, so that with it the request is allowed. It is about
/// the one path, capability or type of sockets that is asked for; a rule on a file has `owner` where the file is owned, and allows a program to
/// start by `ix`. `None` where nothing is missing, where a rule denies something of the request, and where the path can't be written as a pattern of
/// at most 4,096 bytes.
///
/// # Errors
///
/// Where memory runs out.
pub fn missing_rule(
    alloc: Global,
    rules: AskedRules<'_>,
    request: &Request<'_>,
) -> Result<Option<Rule>, AllocError>
    ensures { IfOk result (λ rule. rule ≡ missing_rule (request_of request.entry.now) (rules_of rules.entry)) }
{
    let places = rules.concerned(alloc, request)?;
    let needs = lacked(request, rules.as_slice(), &places);
    if needs.is_empty() {
        return Ok(None);
    }
    rule_for(alloc, request, needs)
}
