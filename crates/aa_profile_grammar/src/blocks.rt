//! Profiles, children and hats, whole.

ghost use Rattle.std.specs.Prelude.{◌≡◌, ◌<◌, IfOk, IfErr, false, length, map};
ghost use Rattle.aa_text_tokens.specs.SeenSplicedTokens.{seen_spliced};
ghost use Rattle.aa_profile_parsing.specs.Readings.{IsFault, IsFaultOrMemory, IsRead};
ghost use Rattle.aa_profile_rules.specs.SeenRules.{seen_rule};
ghost use Rattle.aa_profile_grammar.specs.Blocks.{all_profiles, child_behind, child_block, profile_behind, profile_block};
ghost use Rattle.aa_profile_grammar.specs.Blocks.{child, child_rule, member, next_member, next_profile, next_rule, profile};
ghost use Rattle.aa_profile_grammar.specs.Blocks.{closed_fault, refusal_of_name};
ghost use Rattle.aa_profile_grammar.specs.code.Readings.{IsNext};
ghost use Rattle.aa_profile_grammar.specs.code.Seen.{is_end, seen_named, seen_items};
ghost use Rattle.aa_profile_grammar.specs.SeenFiles.{seen_child, seen_member, seen_profile};

use crate::heads::{Form, Head, Named, begins_child, read_child_name, read_head, read_top_name};
use crate::preamble::read_version;
use crate::sequence::{Next, Rest};
use crate::so_far::{MembersSoFar, ProfilesSoFar};
use aa_profile_data::{is_name, is_top_name};
use aa_profile_parsing::{Fault, GrammarRefusal, Language, is_word_of, refusal_at};
use aa_profile_rules::{Rule, read_rule};
use aa_text_tokens::{Spliced, TokenKind};
use std::alloc::Global;

/// A child of a profile, or a hat.
#[derive(Drop)]
pub struct Child<'a> {
    /// Whether it is a hat.
    pub hat: bool,
    /// Its head.
    pub head: Head<'a>,
    /// Its rules, in order.
    pub rules: Vec<Rule<'a>>,
}

/// What a profile's block holds.
#[derive(Drop)]
pub enum Member<'a> {
    /// A rule.
    OfRule(Rule<'a>),
    /// A child or a hat.
    OfChild(Child<'a>),
}

/// A profile as it is written.
#[derive(Drop)]
pub struct Profile<'a> {
    /// Its head.
    pub head: Head<'a>,
    /// What its block holds, in order.
    pub members: Vec<Member<'a>>,
}

// The fault within a block: where the tokens run out, it is reported at the block's brace.
fn closed(brace: Spliced<'_>, fault: Fault) -> Fault
    ensures { result ≡ closed_fault (seen_spliced brace.entry) fault }
{
    match fault {
        Fault::RanOut => refusal_at(GrammarRefusal::OpenBlock, brace),
        fault => fault,
    }
}

// The refusal of a name, if it is refused.
fn refusal_of_name(fits: bool, taken: bool) -> Option<GrammarRefusal>
    ensures { result ≡ refusal_of_name fits taken }
{
    if !fits {
        Some(GrammarRefusal::BadName)
    } else if taken {
        Some(GrammarRefusal::TwiceNamed)
    } else {
        None
    }
}

// A rule in the block of a child or a hat, in which no other child may be, and what follows it.
fn read_child_rule<'a>(
    language: Language,
    tokens: &'a [Spliced<'a>],
) -> Result<(Rule<'a>, &'a [Spliced<'a>]), Fault>
    ensures ok { IfOk result (IsRead seen_rule (child_rule language) tokens.now) }
    ensures refused { IfErr result (IsFault (child_rule language) tokens.now) }
    ensures shorter { IfOk result (λ read. length read.1.now < length tokens.now) }
{
    match tokens {
        [] => Err(Fault::RanOut),
        [token, ..] if begins_child(*token) => {
            Err(refusal_at(GrammarRefusal::NestedChild, *token))
        }
        _ => read_rule(language, tokens),
    }
}

// What comes next in the block of a child or a hat, and what follows it.
fn next_rule<'a>(language: Language, rest: Rest<'a>) -> Result<(Next<Rule<'a>>, Rest<'a>), Fault>
    ensures ok { IfOk result (IsNext seen_rule (next_rule language) rest.entry) }
    ensures refused { IfErr result (IsFault (next_rule language) rest.entry.tokens.now) }
    ensures shorter { IfOk result (λ read. length read.1.tokens.now < length rest.entry.tokens.now) }
{
    let [token, behind @ ..] = rest.tokens else {
        return Err(Fault::RanOut);
    };
    if token.token.kind == TokenKind::CloseBrace {
        return Ok((Next::End, Rest { tokens: behind }));
    }
    if is_word_of(b"abi", *token) {
        let tokens = read_version(behind)?;
        return Ok((Next::Nothing, Rest { tokens }));
    }
    let (rule, tokens) = read_child_rule(language, rest.tokens)?;
    Ok((Next::Item(rule), Rest { tokens }))
}

// The rules in the block of a child or a hat, and what follows its closing brace.
fn read_rules<'a>(
    alloc: Global,
    language: Language,
    tokens: &'a [Spliced<'a>],
) -> Result<(Vec<Rule<'a>>, &'a [Spliced<'a>]), Fault>
    ensures ok { IfOk result (IsRead (seen_items seen_rule) (child_block language) tokens.now) }
    ensures refused { IfErr result (IsFaultOrMemory (child_block language) tokens.now) }
    ensures shorter { IfOk result (λ read. length read.1.now < length tokens.now) }
{
    let mut rules = Vec::new(alloc);
    let mut rest = Rest { tokens };
    loop {
        let (next, behind) = next_rule(language, rest)?;
        match next {
            Next::Item(rule) => rules.push(rule)?,
            Next::Nothing => {}
            Next::End => return Ok((rules, behind.tokens)),
        }
        rest = behind;
    }
}

// A child or a hat after its name, and what follows its closing brace.
fn read_child_behind<'a>(
    alloc: Global,
    language: Language,
    named: Named<'a>,
    tokens: &'a [Spliced<'a>],
) -> Result<(Child<'a>, &'a [Spliced<'a>]), Fault>
    ensures ok { IfOk result (IsRead seen_child (child_behind language (seen_named named.entry)) tokens.now) }
    ensures refused { IfErr result (IsFaultOrMemory (child_behind language (seen_named named.entry)) tokens.now) }
    ensures shorter { IfOk result (λ read. length read.1.now < length tokens.now) }
{
    let (head, behind) = read_head(language, named, tokens)?;
    match read_rules(alloc, language, behind) {
        Ok((rules, rest)) => Ok((
            Child {
                hat: named.form == Form::Hat,
                head,
                rules,
            },
            rest,
        )),
        Err(fault) => Err(closed(head.brace, fault)),
    }
}

// A child or a hat, from its first token and those after it, and what follows its closing brace.
fn read_child<'a>(
    alloc: Global,
    language: Language,
    members: &MembersSoFar<'_>,
    token: Spliced<'a>,
    tokens: &'a [Spliced<'a>],
) -> Result<(Child<'a>, &'a [Spliced<'a>]), Fault>
    ensures ok { IfOk result (IsRead seen_child (child language (map seen_member members.now.items.items) (seen_spliced token.entry)) tokens.now) }
    ensures refused { IfErr result (IsFaultOrMemory (child language (map seen_member members.now.items.items) (seen_spliced token.entry)) tokens.now) }
    ensures shorter { IfOk result (λ read. length read.1.now < length tokens.now) }
{
    let (named, behind) = read_child_name(token, tokens)?;
    match refusal_of_name(is_name(named.name), members.has(named.name)) {
        Some(refusal) => Err(refusal_at(refusal, named.token)),
        None => read_child_behind(alloc, language, named, behind),
    }
}

// A member of a profile's block, and what follows it.
fn read_member<'a>(
    alloc: Global,
    language: Language,
    members: &MembersSoFar<'_>,
    tokens: &'a [Spliced<'a>],
) -> Result<(Member<'a>, &'a [Spliced<'a>]), Fault>
    ensures ok { IfOk result (IsRead seen_member (member language (map seen_member members.now.items.items)) tokens.now) }
    ensures refused { IfErr result (IsFaultOrMemory (member language (map seen_member members.now.items.items)) tokens.now) }
    ensures shorter { IfOk result (λ read. length read.1.now < length tokens.now) }
{
    let [token, behind @ ..] = tokens else {
        return Err(Fault::RanOut);
    };
    if begins_child(*token) {
        let (child, rest) = read_child(alloc, language, members, *token, behind)?;
        return Ok((Member::OfChild(child), rest));
    }
    let (rule, rest) = read_rule(language, tokens)?;
    Ok((Member::OfRule(rule), rest))
}

// What comes next in the block of a profile, and what follows it.
fn next_member<'a>(
    alloc: Global,
    language: Language,
    members: &MembersSoFar<'_>,
    rest: Rest<'a>,
) -> Result<(Next<Member<'a>>, Rest<'a>), Fault>
    ensures ok { IfOk result (IsNext seen_member (next_member language (map seen_member members.now.items.items)) rest.entry) }
    ensures refused { IfErr result (IsFaultOrMemory (next_member language (map seen_member members.now.items.items)) rest.entry.tokens.now) }
    ensures shorter { IfOk result (λ read. length read.1.tokens.now < length rest.entry.tokens.now) }
{
    let [token, behind @ ..] = rest.tokens else {
        return Err(Fault::RanOut);
    };
    if token.token.kind == TokenKind::CloseBrace {
        return Ok((Next::End, Rest { tokens: behind }));
    }
    if is_word_of(b"abi", *token) {
        let tokens = read_version(behind)?;
        return Ok((Next::Nothing, Rest { tokens }));
    }
    let (member, tokens) = read_member(alloc, language, members, rest.tokens)?;
    Ok((Next::Item(member), Rest { tokens }))
}

// What the block of a profile holds, and what follows its closing brace.
fn read_members<'a>(
    alloc: Global,
    language: Language,
    tokens: &'a [Spliced<'a>],
) -> Result<(Vec<Member<'a>>, &'a [Spliced<'a>]), Fault>
    ensures ok { IfOk result (IsRead (seen_items seen_member) (profile_block language) tokens.now) }
    ensures refused { IfErr result (IsFaultOrMemory (profile_block language) tokens.now) }
    ensures shorter { IfOk result (λ read. length read.1.now < length tokens.now) }
{
    let mut members = MembersSoFar::new(alloc);
    let mut rest = Rest { tokens };
    loop {
        let (next, behind) = next_member(alloc, language, &members, rest)?;
        match next {
            Next::Item(member) => members = members.with(member)?,
            Next::Nothing => {}
            Next::End => return Ok((members.items, behind.tokens)),
        }
        rest = behind;
    }
}

// A profile after its name, and what follows its closing brace.
fn read_profile_behind<'a>(
    alloc: Global,
    language: Language,
    named: Named<'a>,
    tokens: &'a [Spliced<'a>],
) -> Result<(Profile<'a>, &'a [Spliced<'a>]), Fault>
    ensures ok { IfOk result (IsRead seen_profile (profile_behind language (seen_named named.entry)) tokens.now) }
    ensures refused { IfErr result (IsFaultOrMemory (profile_behind language (seen_named named.entry)) tokens.now) }
    ensures shorter { IfOk result (λ read. length read.1.now < length tokens.now) }
{
    let (head, behind) = read_head(language, named, tokens)?;
    match read_members(alloc, language, behind) {
        Ok((members, rest)) => Ok((Profile { head, members }, rest)),
        Err(fault) => Err(closed(head.brace, fault)),
    }
}

// A profile, from its first token and those after it, and what follows its closing brace.
fn read_profile<'a>(
    alloc: Global,
    language: Language,
    profiles: &ProfilesSoFar<'_>,
    token: Spliced<'a>,
    tokens: &'a [Spliced<'a>],
) -> Result<(Profile<'a>, &'a [Spliced<'a>]), Fault>
    ensures ok { IfOk result (IsRead seen_profile (profile language (map seen_profile profiles.now.items.items) (seen_spliced token.entry)) tokens.now) }
    ensures refused { IfErr result (IsFaultOrMemory (profile language (map seen_profile profiles.now.items.items) (seen_spliced token.entry)) tokens.now) }
    ensures shorter { IfOk result (λ read. length read.1.now < length tokens.now) }
{
    let (named, behind) = read_top_name(token, tokens)?;
    match refusal_of_name(is_top_name(named.name), profiles.has(named.name)) {
        Some(refusal) => Err(refusal_at(refusal, named.token)),
        None => read_profile_behind(alloc, language, named, behind),
    }
}

// What comes next in a file after its preamble, and what follows it.
fn next_profile<'a>(
    alloc: Global,
    language: Language,
    profiles: &ProfilesSoFar<'_>,
    rest: Rest<'a>,
) -> Result<(Next<Profile<'a>>, Rest<'a>), Fault>
    ensures ok { IfOk result (IsNext seen_profile (next_profile language (map seen_profile profiles.now.items.items)) rest.entry) }
    ensures refused { IfErr result (IsFaultOrMemory (next_profile language (map seen_profile profiles.now.items.items)) rest.entry.tokens.now) }
    ensures shorter { IfOk result (λ read. is_end read.0 ≡ false → length read.1.tokens.now < length rest.entry.tokens.now) }
{
    let [token, behind @ ..] = rest.tokens else {
        return Ok((Next::End, rest));
    };
    let (profile, tokens) = read_profile(alloc, language, profiles, *token, behind)?;
    Ok((Next::Item(profile), Rest { tokens }))
}

/// The profiles of a file, from the tokens after its preamble, and what follows them, which is nothing.
///
/// # Errors
///
/// Each at the first token, from the left, that the grammar doesn't take at its place (docs/policy.md, "Files"); `Memory`: memory ran out.
pub fn read_profiles<'a>(
    alloc: Global,
    language: Language,
    tokens: &'a [Spliced<'a>],
) -> Result<(Vec<Profile<'a>>, &'a [Spliced<'a>]), Fault>
    ensures ok { IfOk result (IsRead (seen_items seen_profile) (all_profiles language) tokens.now) }
    ensures refused { IfErr result (IsFaultOrMemory (all_profiles language) tokens.now) }
{
    let mut profiles = ProfilesSoFar::new(alloc);
    let mut rest = Rest { tokens };
    loop {
        let (next, behind) = next_profile(alloc, language, &profiles, rest)?;
        match next {
            Next::Item(profile) => profiles = profiles.with(profile)?,
            Next::Nothing => {}
            Next::End => return Ok((profiles.items, behind.tokens)),
        }
        rest = behind;
    }
}
