//! The rules that apply to the start of a program.

ghost use Rattle.std.specs.Prelude.{◌≡◌, IfOk};
ghost use Rattle.std.specs.Option.{option_map};
ghost use Rattle.aa_decide_rules.specs.ExecRules.{said_by};
ghost use Rattle.aa_decide_rules.specs.code.OwnedRules.{said_at, said_by_picked, said_if_owned};
ghost use Rattle.aa_decide_rules.specs.code.SeenRules.{seen_rule, seen_rules};

use aa_profile_data::{FileRule, Rank, Rule, Transition};
use std::alloc::{AllocFailed, Global};

/// What a rule says of the start of a program.
#[derive(Clone, Copy)]
pub enum ExecRule<'a> {
    /// The rule denies the start.
    Denying {
        /// Whether that is logged.
        audited: bool,
    },
    /// The rule allows the start, and says where it leads.
    Leading {
        /// Where it leads.
        transition: &'a Transition,
        /// Which others it dominates.
        rank: Rank,
        /// Whether it is logged.
        audited: bool,
    },
}

// What a rule that applies says.
fn said_by(rule: &FileRule, flag: bool) -> Option<ExecRule<'_>>
    ensures { option_map seen_rule result ≡ said_by flag rule.now }
{
    let audited = flag || rule.audit;
    if rule.deny {
        return if rule.covers_exec() {
            Some(ExecRule::Denying { audited })
        } else {
            None
        };
    }
    match &rule.exec {
        None => None,
        Some(transition) => Some(ExecRule::Leading {
            transition,
            rank: rule.rank,
            audited,
        }),
    }
}

// What a rule says whose pattern matches the path, by whether the file is owned.
fn said_if_owned(rule: &Rule, flag: bool, owned: bool) -> Option<ExecRule<'_>>
    ensures { option_map seen_rule result ≡ said_if_owned flag owned rule.now }
{
    match rule {
        Rule::File(rule) => {
            if !rule.owner || owned {
                said_by(rule, flag)
            } else {
                None
            }
        }
        _ => None,
    }
}

// What the rule at a place says.
fn said_at<'a>(rules: &'a [Rule], place: usize, flag: bool, owned: bool) -> Option<ExecRule<'a>>
    ensures { option_map seen_rule result ≡ said_at flag owned rules.now place }
{
    match rules.get(place) {
        None => None,
        Some(rule) => said_if_owned(rule, flag, owned),
    }
}

// What the rules at some places say, whose patterns match the path, in the order of the places.
pub fn exec_rules<'a>(
    alloc: Global,
    flag: bool,
    rules: &'a [Rule],
    places: &[usize],
    owned: bool,
) -> Result<Vec<ExecRule<'a>>, AllocFailed<ExecRule<'a>>>
    ensures { IfOk result (λ said. seen_rules said.items ≡ said_by_picked flag owned rules.now places.now) }
{
    let mut said = Vec::new(alloc);
    let mut rest = places;
    while let [place, behind @ ..] = rest {
        if let Some(one) = said_at(rules, *place, flag, owned) {
            said.push(one)?;
        }
        rest = behind;
    }
    Ok(said)
}
