//! Rules that are the same.

ghost use Rattle.std.specs.Prelude.{◌≡◌};
ghost use Rattle.aa_profile_data.specs.Conflicts.{same_target};
ghost use Rattle.aa_profile_data.specs.SameRules.{same_cap_rule, same_exec, same_file_rule, same_flag, same_net_rule, same_number, same_other_rule, same_rule};

use crate::profile::{CapRule, FileRule, NetRule, OtherRule, Rule, Transition, same_target};

// Whether two flags are equal.
fn same_flag(one: bool, other: bool) -> bool
    ensures { result ≡ same_flag one other }
{
    one == other
}

// Whether two numbers are equal, or neither is there.
fn same_number(one: Option<u8>, other: Option<u8>) -> bool
    ensures { result ≡ same_number one other }
{
    match (one, other) {
        (None, None) => true,
        (Some(one), Some(other)) => one == other,
        _ => false,
    }
}

// Whether two rules have the same transition, or neither has one.
fn same_exec(one: &Option<Transition>, other: &Option<Transition>) -> bool
    ensures { result ≡ same_exec one.now other.now }
{
    match (one, other) {
        (None, None) => true,
        (Some(one), Some(other)) => one.is_same(other),
        _ => false,
    }
}

// Whether two rules on files are equal in all their fields.
fn same_file_rule(one: &FileRule, other: &FileRule) -> bool
    ensures { result ≡ same_file_rule one.now other.now }
{
    one.pattern.text() == other.pattern.text()
        && one.access == other.access
        && same_exec(&one.exec, &other.exec)
        && one.rank.is_same(other.rank)
        && same_target(&one.link, &other.link)
        && same_flag(one.owner, other.owner)
        && same_flag(one.deny, other.deny)
        && same_flag(one.audit, other.audit)
}

// Whether two rules on capabilities are equal in all their fields.
fn same_cap_rule(one: &CapRule, other: &CapRule) -> bool
    ensures { result ≡ same_cap_rule one.now other.now }
{
    one.caps == other.caps && same_flag(one.deny, other.deny) && same_flag(one.audit, other.audit)
}

// Whether two rules on sockets are equal in all their fields.
fn same_net_rule(one: &NetRule, other: &NetRule) -> bool
    ensures { result ≡ same_net_rule one.now other.now }
{
    same_number(one.domain, other.domain)
        && same_number(one.kind, other.kind)
        && same_flag(one.deny, other.deny)
        && same_flag(one.audit, other.audit)
}

// Whether two rules that decide nothing here are equal in all their fields.
fn same_other_rule(one: &OtherRule, other: &OtherRule) -> bool
    ensures { result ≡ same_other_rule one.now other.now }
{
    one.text.as_slice() == other.text.as_slice()
        && same_flag(one.owner, other.owner)
        && same_flag(one.deny, other.deny)
        && same_flag(one.audit, other.audit)
}

impl Rule {
    /// Whether another rule is of the same kind, and equal in all its fields (the law `when_rules_are_same`). It takes no memory.
    pub fn is_same(&self, other: &Rule) -> bool
        ensures { result ≡ same_rule self.now other.now }
    {
        match (self, other) {
            (Rule::File(one), Rule::File(other)) => same_file_rule(one, other),
            (Rule::Cap(one), Rule::Cap(other)) => same_cap_rule(one, other),
            (Rule::Net(one), Rule::Net(other)) => same_net_rule(one, other),
            (Rule::Other(one), Rule::Other(other)) => same_other_rule(one, other),
            _ => false,
        }
    }
}
