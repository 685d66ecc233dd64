//! The patterns by which it depends on the path of a program under what that runs.

ghost use Rattle.std.specs.Prelude.{◌≡◌, ◌++◌, ◌∷◌, [], IfOk, OnOk};
ghost use Rattle.std.specs.Option.{option_map};
ghost use Rattle.aa_decide.specs.SeenExec.{seen_asker};
ghost use Rattle.aa_decide_ready.specs.Confinement.{found};
ghost use Rattle.aa_decide_ready.specs.Slots.{filled};
ghost use Rattle.aa_explain_reach.specs.Patterns.{asked_rules, attaching, attaching_in, attaching_patterns, attachment_patterns, children_patterns, every_pattern};
ghost use Rattle.aa_explain_reach.specs.Patterns.{own_patterns, refuses, refuses_by, rules_asked, speaks_of_starts, start_rules, starting_rules};
ghost use Rattle.aa_explain_reach.specs.Patterns.{wanted_patterns};
ghost use Rattle.aa_profile_data.specs.FileRules.{file_patterns};

use aa_decide::{Asker, Confinement, Entry, Mediation};
use aa_glob_pattern::Pattern;
use aa_profile_data::{Child, Rule};
use std::alloc::{AllocError, Global};

// Whether a rule speaks of the start of programs.
fn speaks_of_starts(rule: &Rule) -> bool
    ensures { result ≡ speaks_of_starts rule.now }
{
    match rule {
        Rule::File(rule) => {
            if rule.deny {
                rule.covers_exec()
            } else {
                rule.exec.is_some()
            }
        }
        Rule::Cap(_) | Rule::Net(_) | Rule::Other(_) => false,
    }
}

// Copies of those of some rules that do, in their order.
fn starting_rules(alloc: Global, rules: &[Rule]) -> Result<Vec<Rule>, AllocError>
    ensures { IfOk result (λ kept. kept.items ≡ starting_rules rules.now) }
{
    let mut kept = Vec::new(alloc);
    for rule in rules {
        if speaks_of_starts(rule) {
            kept.push(rule.try_copy(alloc)?)?;
        }
    }
    Ok(kept)
}

// The rules that are asked.
fn rules_asked<'a>(confinement: Confinement<'a>) -> &'a [Rule]
    ensures { result.now ≡ rules_asked (found confinement.entry) }
{
    match confinement {
        Confinement::Unconfined => &[],
        Confinement::ByName => &[],
        Confinement::By { section, .. } => section.rules,
    }
}

/// The rules of who asks that are asked; no one in particular has none, nor has one whose rules aren't.
pub fn asked_rules<'a>(asker: Option<Asker<'a>>) -> &'a [Rule]
    ensures { result.now ≡ asked_rules (option_map seen_asker asker.entry) }
{
    match asker {
        None => &[],
        Some(asker) => rules_asked(asker.entry.confinement(asker.child)),
    }
}

/// Copies of the rules of who asks that speak of the start of programs, in their order; no one in particular has none.
///
/// # Errors
///
/// Where memory runs out.
pub fn start_rules(alloc: Global, asker: Option<Asker<'_>>) -> Result<Vec<Rule>, AllocError>
    ensures { IfOk result (λ rules. rules.items ≡ start_rules (option_map seen_asker asker.entry)) }
{
    match asker {
        None => Ok(Vec::new(alloc)),
        Some(asker) => starting_rules(alloc, rules_asked(asker.entry.confinement(asker.child))),
    }
}

// Appends copies of some patterns to others.
fn push_each(alloc: Global, more: &[Pattern], patterns: &mut Vec<Pattern>) -> Result<(), AllocError>
    ensures { OnOk result (patterns.new.items ≡ patterns.old.items ++ more.now) }
{
    let mut rest = more;
    while let [pattern, behind @ ..] = rest {
        patterns.push(pattern.try_copy(alloc)?)?;
        rest = behind;
    }
    Ok(())
}

// The attachments of a loaded profile; no path is attached to one that is disabled.
fn attaching(entry: &Entry) -> &[Pattern]
    ensures { result.now ≡ attaching entry.now }
{
    if entry.state().is_in_force() {
        entry.profile().attachments.as_slice()
    } else {
        &[]
    }
}

// Appends copies of the attachments of what a slot holds.
fn push_slot(
    alloc: Global,
    slot: &Option<Entry>,
    patterns: &mut Vec<Pattern>,
) -> Result<(), AllocError>
    ensures { OnOk result (patterns.new.items ≡ patterns.old.items ++ attaching_in slot.now) }
{
    match slot {
        None => Ok(()),
        Some(entry) => push_each(alloc, attaching(entry), patterns),
    }
}

// Appends copies of the attachments of each profile in some slots.
fn push_attaching(
    alloc: Global,
    slots: &[Option<Entry>],
    patterns: &mut Vec<Pattern>,
) -> Result<(), AllocError>
    ensures { OnOk result (patterns.new.items ≡ patterns.old.items ++ attaching_patterns (filled slots.now)) }
{
    let mut rest = slots;
    while let [slot, behind @ ..] = rest {
        push_slot(alloc, slot, patterns)?;
        rest = behind;
    }
    Ok(())
}

// Appends copies of the attachments of children.
fn push_children(
    alloc: Global,
    children: &[Child],
    patterns: &mut Vec<Pattern>,
) -> Result<(), AllocError>
    ensures { OnOk result (patterns.new.items ≡ patterns.old.items ++ children_patterns children.now) }
{
    let mut rest = children;
    while let [child, behind @ ..] = rest {
        push_each(alloc, child.attachments.as_slice(), patterns)?;
        rest = behind;
    }
    Ok(())
}

// Appends copies of the attachments of the children of the profile that asks; a child or a hat has none.
fn push_own(
    alloc: Global,
    asker: Option<Asker<'_>>,
    patterns: &mut Vec<Pattern>,
) -> Result<(), AllocError>
    ensures { OnOk result (patterns.new.items ≡ patterns.old.items ++ own_patterns (option_map seen_asker asker.entry)) }
{
    let Some(asker) = asker else {
        return Ok(());
    };
    match asker.child {
        Some(_) => Ok(()),
        None => {
            let children = asker.entry.profile().children.as_slice();
            push_children(alloc, children, patterns)
        }
    }
}

/// The pattern of all absolute paths.
///
/// # Errors
///
/// Where memory runs out.
pub fn every_pattern(alloc: Global) -> Result<Pattern, AllocError>
    ensures { IfOk result (λ pattern. pattern ≡ every_pattern) }
{
    match Pattern::read(alloc, b"/{,**}") {
        Ok(pattern) => Ok(pattern),
        // It reads, so memory alone can be wanting.
        Err(_) => Err(AllocError),
    }
}

/// Copies of the pattern of all absolute paths, and of those of all attachments: of the profiles in force, and of the
/// children of the profile that asks.
///
/// # Errors
///
/// Where memory runs out.
pub fn attachment_patterns(
    alloc: Global,
    slots: &[Option<Entry>],
    asker: Option<Asker<'_>>,
) -> Result<Vec<Pattern>, AllocError>
    ensures { IfOk result (λ patterns. patterns.items ≡ attachment_patterns (filled slots.now) (option_map seen_asker asker.entry)) }
{
    let mut patterns = Vec::new(alloc);
    patterns.push(every_pattern(alloc)?)?;
    push_attaching(alloc, slots, &mut patterns)?;
    push_own(alloc, asker, &mut patterns)?;
    Ok(patterns)
}

// Whether what no rule speaks of isn't started, by what confines who asks.
fn refuses_by(confinement: Confinement<'_>) -> bool
    ensures { result ≡ refuses_by (found confinement.entry) }
{
    match confinement {
        Confinement::Unconfined => false,
        Confinement::ByName => false,
        Confinement::By { mediation, .. } => match mediation {
            Mediation::Enforcing => true,
            Mediation::Complaining => false,
        },
    }
}

// Whether what no rule speaks of isn't started.
fn refuses(asker: Option<Asker<'_>>) -> bool
    ensures { result ≡ refuses (option_map seen_asker asker.entry) }
{
    match asker {
        None => false,
        Some(asker) => refuses_by(asker.entry.confinement(asker.child)),
    }
}

// Copies of the patterns of those of some rules that are on files.
fn rule_patterns(alloc: Global, rules: &[Rule]) -> Result<Vec<Pattern>, AllocError>
    ensures { IfOk result (λ patterns. patterns.items ≡ file_patterns rules.now) }
{
    let mut patterns = Vec::new(alloc);
    let mut rest = rules;
    while let [rule, behind @ ..] = rest {
        if let Rule::File(rule) = rule {
            patterns.push(rule.pattern.try_copy(alloc)?)?;
        }
        rest = behind;
    }
    Ok(patterns)
}

// The pattern of all absolute paths alone.
fn every_path(alloc: Global) -> Result<Vec<Pattern>, AllocError>
    ensures { IfOk result (λ patterns. patterns.items ≡ every_pattern ∷ []) }
{
    let mut patterns = Vec::new(alloc);
    patterns.push(every_pattern(alloc)?)?;
    Ok(patterns)
}

/// Copies of the patterns of which one matches each path whose program is started: those of the rules of who asks that
/// speak of it, where nothing else is started, and else that of all absolute paths.
///
/// # Errors
///
/// Where memory runs out.
pub fn wanted_patterns(
    alloc: Global,
    asker: Option<Asker<'_>>,
    rules: &[Rule],
) -> Result<Vec<Pattern>, AllocError>
    requires { rules.now ≡ start_rules (option_map seen_asker asker) }
    ensures { IfOk result (λ patterns. patterns.items ≡ wanted_patterns (option_map seen_asker asker.entry)) }
{
    if refuses(asker) {
        rule_patterns(alloc, rules)
    } else {
        every_path(alloc)
    }
}
