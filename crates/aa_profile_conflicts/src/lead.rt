//! Leads: under which profile the programs run that a rule allows to be started.

ghost use Rattle.std.specs.Prelude.{◌≡◌};
ghost use Rattle.std.specs.Option.{option_map};
ghost use Rattle.aa_profile_conflicts.specs.Leads.{lead_by, seen_lead};
ghost use Rattle.aa_profile_data.specs.Conflicts.{lead_of};

use aa_glob_pattern::Pattern;
use aa_profile_data::{Rank, Rule, Transition};

/// Where a rule leads the programs whose paths its pattern matches.
#[derive(Clone, Copy)]
pub struct Lead<'a> {
    /// The pattern.
    pub pattern: &'a Pattern,
    /// Before which other leads it decides.
    pub rank: Rank,
    /// Under which profile they run then.
    pub transition: &'a Transition,
}

// The lead of a rule; only an allow rule on files with an exec word has one.
fn lead_of(rule: &Rule) -> Option<Lead<'_>>
    ensures { option_map seen_lead result ≡ lead_of rule.now }
{
    let Rule::File(rule) = rule else {
        return None;
    };
    if rule.deny {
        return None;
    }
    match &rule.exec {
        None => None,
        Some(transition) => Some(Lead {
            pattern: &rule.pattern,
            rank: rule.rank,
            transition,
        }),
    }
}

/// The lead of a rule, if it has one with this rank.
pub fn lead_by(rank: Rank, rule: &Rule) -> Option<Lead<'_>>
    ensures { option_map seen_lead result ≡ lead_by rank rule.now }
{
    match lead_of(rule) {
        None => None,
        Some(lead) => {
            if lead.rank.is_same(rank) {
                Some(lead)
            } else {
                None
            }
        }
    }
}
