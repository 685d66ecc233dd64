//! The lines that show rules.

ghost use Rattle.std.specs.Prelude.{◌≡◌, ◌≤◌, ◌++◌, OnOk, codes, length, map};
ghost use Rattle.std.specs.Option.{option_map};
ghost use Rattle.aa_set_answers.specs.RuleLines.{access_text, capabilities_text, capability_text, domain_word, exec_text};
ghost use Rattle.aa_set_answers.specs.RuleLines.{file_qualifiers, file_text};
ghost use Rattle.aa_set_answers.specs.RuleLines.{has_all, kind_word, names_from, network_text, other_text, qualifiers, rule_line};
ghost use Rattle.aa_set_answers.specs.RuleLines.{rule_text, target_text, text_if};
ghost use Rattle.aa_bytes.specs.Quoting.{written_text};
ghost use Rattle.aa_profile_data.specs.TableNames.{name_or_none};

use aa_bytes::{SharedBytes, push_text};
use aa_glob_pattern::Pattern;
use aa_profile_data::{
    CAPABILITIES, CapRule, FileRule, NetRule, OtherRule, Rank, Rule, Transition, domain_name,
    kind_name, which_names_tables_hold,
};
use std::alloc::AllocError;

// The set of all capabilities.
const ALL_CAPABILITIES: u64 = (1 << 41) - 1;

// Appends a word to a text, if `holds`.
pub fn push_if(text: &mut Vec<u8>, holds: bool, word: &str) -> Result<(), AllocError>
    ensures { OnOk result (text.new.items ≡ text.old.items ++ text_if holds word.now) }
{
    if holds {
        text.extend_from_slice(word.as_bytes())?;
    }
    Ok(())
}

// Appends the qualifiers of a rule to a text.
fn push_qualifiers(
    text: &mut Vec<u8>,
    audit: bool,
    deny: bool,
    owner: bool,
) -> Result<(), AllocError>
    ensures { OnOk result (text.new.items ≡ text.old.items ++ qualifiers audit deny owner) }
{
    push_if(text, audit, " audit")?;
    push_if(text, deny, " deny")?;
    push_if(text, owner, " owner")
}

// Appends the target that a rule names to a text, if it names one.
fn push_target(text: &mut Vec<u8>, target: &Option<SharedBytes>) -> Result<(), AllocError>
    ensures { OnOk result (text.new.items ≡ text.old.items ++ target_text target.now) }
{
    match target {
        None => Ok(()),
        Some(target) => {
            text.extend_from_slice(b" -> ")?;
            push_text(text, target.as_slice())
        }
    }
}

/// Appends a transition to a text, as a rule writes it: its exec word, and the target that it names, if it names one.
///
/// # Errors
///
/// Where memory runs out. The word may have been appended then.
pub fn push_exec_transition(text: &mut Vec<u8>, transition: &Transition) -> Result<(), AllocError>
    ensures { OnOk result (text.new.items ≡ text.old.items ++ exec_text (Some transition.now)) }
{
    text.extend_from_slice(transition.word.text().as_bytes())?;
    push_target(text, &transition.target)
}

// Appends the exec word of a rule, if it has one, and its target to a text.
fn push_exec(text: &mut Vec<u8>, exec: &Option<Transition>) -> Result<(), AllocError>
    ensures { OnOk result (text.new.items ≡ text.old.items ++ exec_text exec.now) }
{
    match exec {
        None => Ok(()),
        Some(transition) => push_exec_transition(text, transition),
    }
}

// Appends the access of a rule on files to a text.
fn push_access(text: &mut Vec<u8>, rule: &FileRule) -> Result<(), AllocError>
    ensures { OnOk result (text.new.items ≡ text.old.items ++ access_text rule.now) }
{
    rule.access.push_letters(text)?;
    push_exec(text, &rule.exec)?;
    push_target(text, &rule.link)
}

// Appends a pattern between blanks to a text.
fn push_pattern(text: &mut Vec<u8>, pattern: &Pattern) -> Result<(), AllocError>
    ensures { OnOk result (text.new.items ≡ text.old.items ++ codes " " ++ written_text pattern.now ++ codes " ") }
{
    text.push(b' ')?;
    push_text(text, pattern.text())?;
    text.push(b' ')?;
    Ok(())
}

// Appends the qualifiers of a rule on files to a text.
fn push_file_qualifiers(text: &mut Vec<u8>, rule: &FileRule) -> Result<(), AllocError>
    ensures { OnOk result (text.new.items ≡ text.old.items ++ file_qualifiers rule.now) }
{
    push_qualifiers(text, rule.audit, rule.deny, rule.owner)?;
    push_if(text, rule.rank.is_same(Rank::Last), " last")
}

// Appends a rule on files to a text.
fn push_file(text: &mut Vec<u8>, rule: &FileRule) -> Result<(), AllocError>
    ensures { OnOk result (text.new.items ≡ text.old.items ++ file_text rule.now) }
{
    text.extend_from_slice(b"file")?;
    push_file_qualifiers(text, rule)?;
    push_pattern(text, &rule.pattern)?;
    push_access(text, rule)
}

// Whether a set has every capability.
fn has_all(set: u64) -> bool
    ensures { result ≡ has_all set }
{
    set & ALL_CAPABILITIES == ALL_CAPABILITIES
}

// Appends a blank and a name to a text, if `holds`.
fn push_name_if(text: &mut Vec<u8>, holds: bool, name: &str) -> Result<(), AllocError>
    ensures { OnOk result (text.new.items ≡ text.old.items ++ text_if holds (codes " " ++ name.now)) }
{
    if holds {
        text.extend_from_slice(b" ")?;
        text.extend_from_slice(name.as_bytes())?;
    }
    Ok(())
}

// Appends those of these names to a text whose capabilities a rule covers, each after a blank.
fn push_names(text: &mut Vec<u8>, rule: &CapRule, names: &[&str]) -> Result<(), AllocError>
    requires { length names.now ≤ 255 }
    ensures { OnOk result (text.new.items ≡ text.old.items ++ names_from rule.now.caps 0 (map (λ name. name.now) names.now)) }
{
    let mut number: u8 = 0;
    let mut rest = names;
    while let [name, behind @ ..] = rest {
        push_name_if(text, rule.covers(number), name)?;
        number += 1;
        rest = behind;
    }
    Ok(())
}

// Appends the capabilities that a rule covers to a text, each after a blank, or `all`.
fn push_capabilities(text: &mut Vec<u8>, rule: &CapRule) -> Result<(), AllocError>
    ensures { OnOk result (text.new.items ≡ text.old.items ++ capabilities_text rule.now.caps) }
{
    if has_all(rule.caps) {
        text.extend_from_slice(b" all")
    } else {
        which_names_tables_hold();
        push_names(text, rule, &CAPABILITIES)
    }
}

// Appends a rule on capabilities to a text.
fn push_capability(text: &mut Vec<u8>, rule: &CapRule) -> Result<(), AllocError>
    ensures { OnOk result (text.new.items ≡ text.old.items ++ capability_text rule.now) }
{
    text.extend_from_slice(b"capability")?;
    push_qualifiers(text, rule.audit, rule.deny, false)?;
    push_capabilities(text, rule)
}

// The name in a table; empty where the number has none.
fn name_or_none(name: Option<&'static str>) -> &'static str
    ensures { result.now ≡ name_or_none (option_map (λ name. name.now) name.entry) }
{
    match name {
        None => "",
        Some(name) => name,
    }
}

// The word for the domain that a rule covers.
fn domain_word(domain: Option<u8>) -> &'static str
    ensures { result.now ≡ domain_word domain }
{
    match domain {
        None => "any",
        Some(number) => name_or_none(domain_name(number)),
    }
}

// The word for the type or protocol that a rule covers.
fn kind_word(kind: Option<u8>) -> &'static str
    ensures { result.now ≡ kind_word kind }
{
    match kind {
        None => "any",
        Some(number) => name_or_none(kind_name(number)),
    }
}

// Appends a rule on sockets to a text.
fn push_network(text: &mut Vec<u8>, rule: &NetRule) -> Result<(), AllocError>
    ensures { OnOk result (text.new.items ≡ text.old.items ++ network_text rule.now) }
{
    text.extend_from_slice(b"network")?;
    push_qualifiers(text, rule.audit, rule.deny, false)?;
    text.extend_from_slice(b" ")?;
    text.extend_from_slice(domain_word(rule.domain).as_bytes())?;
    text.extend_from_slice(b" ")?;
    text.extend_from_slice(kind_word(rule.kind).as_bytes())
}

// Appends a rule that decides nothing here to a text.
fn push_other(text: &mut Vec<u8>, rule: &OtherRule) -> Result<(), AllocError>
    ensures { OnOk result (text.new.items ≡ text.old.items ++ other_text rule.now) }
{
    text.extend_from_slice(b"other")?;
    push_qualifiers(text, rule.audit, rule.deny, rule.owner)?;
    text.extend_from_slice(b" ")?;
    text.extend_from_slice(rule.text.as_slice())
}

/// Appends a rule to a text, as `show` prints it: what kind it is, its qualifiers, and what it allows or denies.
///
/// # Errors
///
/// Where memory runs out. A beginning may have been appended then.
pub fn push_rule(text: &mut Vec<u8>, rule: &Rule) -> Result<(), AllocError>
    ensures { OnOk result (text.new.items ≡ text.old.items ++ rule_text rule.now) }
{
    match rule {
        Rule::File(rule) => push_file(text, rule),
        Rule::Cap(rule) => push_capability(text, rule),
        Rule::Net(rule) => push_network(text, rule),
        Rule::Other(rule) => push_other(text, rule),
    }
}

// Appends the line of a rule to a text.
pub fn push_rule_line(text: &mut Vec<u8>, rule: &Rule) -> Result<(), AllocError>
    ensures { OnOk result (text.new.items ≡ text.old.items ++ rule_line rule.now) }
{
    text.extend_from_slice(b"  ")?;
    push_rule(text, rule)?;
    text.push(b'\n')?;
    Ok(())
}
