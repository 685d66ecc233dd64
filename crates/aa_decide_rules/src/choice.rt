//! Where the rules of a profile lead a program that is started.

ghost use Rattle.std.specs.Prelude.{◌≡◌, IfOk};
ghost use Rattle.std.specs.List.{list_any};
ghost use Rattle.std.specs.Option.{option_map};
ghost use Rattle.aa_decide_rules.specs.Choices.{IsChoiceFor, chosen, choice_of, denies, denies_aloud, dominates};
ghost use Rattle.aa_decide_rules.specs.Choices.{first_lead, highest, leads_aloud};
ghost use Rattle.aa_decide_rules.specs.SeenChoices.{seen_choice};
ghost use Rattle.aa_decide_rules.specs.code.SeenRules.{seen_rule, seen_rules};

use crate::exec_rules::{ExecRule, exec_rules};
use aa_profile_data::{Rank, Rule, Transition, which_rules_match};
use std::alloc::{AllocError, Global};

/// What rules say together of the start of a program.
#[derive(Clone, Copy)]
pub enum ExecChoice<'a> {
    /// A rule denies the start.
    Denied {
        /// Whether that is logged: one of these rules is audited.
        audited: bool,
    },
    /// No rule applies to the start.
    Missing,
    /// The start leads somewhere.
    Leading {
        /// Where it leads.
        transition: &'a Transition,
        /// Whether it is logged: one of the rules that dominate is audited.
        audited: bool,
    },
}

impl ExecRule<'_> {
    fn denies(self) -> bool
        ensures { result ≡ denies (seen_rule self.entry) }
    {
        match self {
            ExecRule::Denying { .. } => true,
            ExecRule::Leading { .. } => false,
        }
    }

    fn denies_aloud(self) -> bool
        ensures { result ≡ denies_aloud (seen_rule self.entry) }
    {
        match self {
            ExecRule::Denying { audited } => audited,
            ExecRule::Leading { .. } => false,
        }
    }

    // Whether a rule leads somewhere with this rank. Those that do so with the highest rank decide where the program runs.
    fn dominates(self, rank: Rank) -> bool
        ensures { result ≡ dominates rank (seen_rule self.entry) }
    {
        match self {
            ExecRule::Denying { .. } => false,
            ExecRule::Leading { rank: own, .. } => own.is_same(rank),
        }
    }

    fn leads_aloud(self, rank: Rank) -> bool
        ensures { result ≡ leads_aloud rank (seen_rule self.entry) }
    {
        match self {
            ExecRule::Denying { .. } => false,
            ExecRule::Leading { audited, .. } => audited && self.dominates(rank),
        }
    }
}

// Whether some rule denies.
fn some_denies(rules: &[ExecRule<'_>]) -> bool
    ensures { result ≡ list_any denies (seen_rules rules.now) }
{
    let mut rest = rules;
    while let [rule, behind @ ..] = rest {
        if rule.denies() {
            return true;
        }
        rest = behind;
    }
    false
}

fn some_denies_aloud(rules: &[ExecRule<'_>]) -> bool
    ensures { result ≡ list_any denies_aloud (seen_rules rules.now) }
{
    let mut rest = rules;
    while let [rule, behind @ ..] = rest {
        if rule.denies_aloud() {
            return true;
        }
        rest = behind;
    }
    false
}

// Whether some rule leads somewhere with this rank.
fn some_dominates(rank: Rank, rules: &[ExecRule<'_>]) -> bool
    ensures { result ≡ list_any (dominates rank) (seen_rules rules.now) }
{
    let mut rest = rules;
    while let [rule, behind @ ..] = rest {
        if rule.dominates(rank) {
            return true;
        }
        rest = behind;
    }
    false
}

// The highest rank with which some rule leads somewhere; the lowest where none does.
fn highest(rules: &[ExecRule<'_>]) -> Rank
    ensures { result ≡ highest (seen_rules rules.now) }
{
    if some_dominates(Rank::Plain, rules) {
        Rank::Plain
    } else if some_dominates(Rank::Loose, rules) {
        Rank::Loose
    } else {
        Rank::Last
    }
}

fn some_leads_aloud(rank: Rank, rules: &[ExecRule<'_>]) -> bool
    ensures { result ≡ list_any (leads_aloud rank) (seen_rules rules.now) }
{
    let mut rest = rules;
    while let [rule, behind @ ..] = rest {
        if rule.leads_aloud(rank) {
            return true;
        }
        rest = behind;
    }
    false
}

// Where the first rule leads that leads somewhere with this rank.
fn first_lead<'a>(rank: Rank, rules: &[ExecRule<'a>]) -> Option<&'a Transition>
    ensures { option_map (λ transition. transition.now) result ≡ first_lead rank (seen_rules rules.now) }
{
    let mut rest = rules;
    while let [rule, behind @ ..] = rest {
        if let ExecRule::Leading { transition, .. } = rule {
            if rule.dominates(rank) {
                return Some(*transition);
            }
        }
        rest = behind;
    }
    None
}

// Where rules lead, none of which denies.
fn chosen<'a>(rank: Rank, rules: &[ExecRule<'a>]) -> ExecChoice<'a>
    ensures { seen_choice result ≡ chosen rank (seen_rules rules.now) }
{
    let Some(transition) = first_lead(rank, rules) else {
        return ExecChoice::Missing;
    };
    ExecChoice::Leading {
        transition,
        audited: some_leads_aloud(rank, rules),
    }
}

// What rules say together.
fn choice_of<'a>(rules: &[ExecRule<'a>]) -> ExecChoice<'a>
    ensures { seen_choice result ≡ choice_of (seen_rules rules.now) }
{
    if some_denies(rules) {
        ExecChoice::Denied {
            audited: some_denies_aloud(rules),
        }
    } else {
        chosen(highest(rules), rules)
    }
}

/// What rules say together of the start of the program of a path (docs/policy.md, "Exec and attachment"): that it is denied, as soon as one deny
/// rule with `x` applies; that no rule applies to it; or where it leads. Of the rules that lead somewhere those of the highest rank dominate the
/// others, and it leads where the first that dominates does; in rules that agree all of them have one transition
/// ([`where_agreeing_rules_lead`](crate::where_agreeing_rules_lead)). `flag` says whether each of the rules is audited, whatever its qualifiers: it
/// is the flag of their profile. `owned` says whether the task's user owns the file. `places` are the places of the rules on files whose pattern
/// matches the path, in rising order; it goes over these alone.
///
/// # Errors
///
/// Where memory runs out.
pub fn exec_choice<'a>(
    alloc: Global,
    flag: bool,
    rules: &'a [Rule],
    places: &[usize],
    owned: bool,
) -> Result<ExecChoice<'a>, AllocError>
    ensures { IfOk result (λ found. IsChoiceFor flag owned rules.now places.now (seen_choice found)) }
{
    which_rules_match();
    let said = match exec_rules(alloc, flag, rules, places, owned) {
        Ok(said) => said,
        Err(_) => return Err(AllocError),
    };
    Ok(choice_of(&said))
}
