//! Whether the exec rules of a block have more states than they may.

ghost use Rattle.std.specs.Prelude.{◌≡◌, ◌++◌, ◌∷◌, [], ℕ, List, IfOk, nat_lt};
ghost use Rattle.std.specs.Option.{option_map};
ghost use Rattle.aa_glob.specs.Built.{IsBuilt};
ghost use Rattle.aa_glob_pattern.specs.Beginnings.{most_states};
ghost use Rattle.aa_profile_conflicts.specs.States.{exec_pattern, exec_patterns, has_many_states, most_exec_states};

use aa_glob::AutomatonBuilder;
use aa_glob_pattern::Pattern;
use aa_profile_data::Rule;
use std::alloc::{AllocError, Global};

/// How many states the exec rules of a profile, child or hat may have in language 4 (docs/commands.md, "Limits").
pub const MOST_EXEC_STATES: usize = 8_192;

// The pattern of a rule, if it covers the start of programs.
fn exec_pattern(rule: &Rule) -> Option<&Pattern>
    ensures { option_map (λ pattern. pattern.now) result ≡ exec_pattern rule.now }
{
    match rule {
        Rule::File(rule) if rule.covers_exec() => Some(&rule.pattern),
        _ => None,
    }
}

// Adds the pattern of a rule, if it covers the start of programs.
fn with_exec_pattern(
    builder: AutomatonBuilder,
    alloc: Global,
    rule: &Rule,
) -> Result<AutomatonBuilder, AllocError>
    ensures { IfOk result (λ added. (patterns : List (List ℕ))
        → IsBuilt builder patterns
        → IsBuilt added (patterns ++ exec_patterns (rule.now ∷ []))) }
{
    match exec_pattern(rule) {
        None => Ok(builder),
        Some(pattern) => builder.add(alloc, pattern),
    }
}

// Whether rules may have more states than `MOST_EXEC_STATES`, by the lengths of their patterns alone: a pattern has at most two beginnings for each
// of its bytes, and two more.
fn may_have_many_states(rules: &[Rule]) -> bool
    ensures { result ≡ nat_lt most_exec_states (most_states (exec_patterns rules.now)) }
{
    let mut most = 0;
    for rule in rules {
        if let Some(pattern) = exec_pattern(rule) {
            let bytes = pattern.text().len();
            if bytes >= MOST_EXEC_STATES {
                return true;
            }
            most += 2 * bytes + 2;
            if most > MOST_EXEC_STATES {
                return true;
            }
        }
    }
    false
}

/// Whether the patterns of some rules that cover the start of programs, deny rules included, have more than `MOST_EXEC_STATES` different beginnings;
/// looking for conflicts takes time up to the square of their number. Where the patterns are short nothing is built, and else no more than up to the
/// pattern with which there are more.
///
/// # Errors
///
/// Where memory runs out.
pub fn has_many_states(alloc: Global, rules: &[Rule]) -> Result<bool, AllocError>
    ensures { IfOk result (λ many. many ≡ has_many_states rules.now) }
{
    if !may_have_many_states(rules) {
        return Ok(false);
    }
    let mut builder = AutomatonBuilder::new(alloc)?;
    for rule in rules {
        builder = with_exec_pattern(builder, alloc, rule)?;
        if builder.states() > MOST_EXEC_STATES {
            return Ok(true);
        }
    }
    Ok(false)
}
