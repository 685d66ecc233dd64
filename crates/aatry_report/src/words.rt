//! What is wrong with a file of policy, in words.

ghost use Rattle.std.specs.Prelude.{◌≡◌};
ghost use Rattle.aatry_report.specs.Words.{words_of, words_of_grammar};

use aa_profile_parsing::{GrammarRefusal, ProfileRefusal};

// What is wrong with a file's grammar, in words.
fn words_of_grammar(refusal: GrammarRefusal) -> &'static str
    ensures { result.now ≡ words_of_grammar refusal }
{
    match refusal {
        GrammarRefusal::BadToken => "unexpected token or end of file",
        GrammarRefusal::OpenBlock => "this brace isn't closed",
        GrammarRefusal::BadFlag => "there is no such flag, or two mode flags conflict",
        GrammarRefusal::BadAccess => "the access has an invalid letter or exec word",
        GrammarRefusal::WriteAppend => "the access has both `w` and `a`",
        GrammarRefusal::TwoExec => "the access has two different exec words",
        GrammarRefusal::ExecQualifier => "a deny rule has an exec word, or another rule a bare `x`",
        GrammarRefusal::TargetWithoutExec => "this rule can have no target",
        GrammarRefusal::BadCapability => "there is no such capability",
        GrammarRefusal::BadNetwork =>
            "there is no such domain, type or protocol, or it isn't allowed here",
        GrammarRefusal::TwiceNamed => "this name is already used",
        GrammarRefusal::NestedChild => "a child or hat is nested in another",
        GrammarRefusal::LateAssignment => "a variable is assigned after the first profile",
        GrammarRefusal::NoProfile => "the file has no profile",
        GrammarRefusal::BadName => "no profile, child, hat or target can have this name",
        GrammarRefusal::LeftOut => "AppArmor has this; here it isn't read",
        GrammarRefusal::Memory => "memory ran out",
    }
}

/// What is wrong with a file of policy, in words. It takes no memory.
pub fn words_of(refusal: ProfileRefusal) -> &'static str
    ensures { result.now ≡ words_of refusal }
{
    match refusal {
        ProfileRefusal::Pattern(error) => error.words(),
        ProfileRefusal::Text(error) => error.words(),
        ProfileRefusal::Grammar(error) => words_of_grammar(error),
        ProfileRefusal::TooManyRules => {
            "the file has more than 16,384 patterns, each expansion counted"
        }
        ProfileRefusal::ManyStates => {
            "the patterns of its exec rules have more than 8,192 different beginnings"
        }
        ProfileRefusal::ExecConflict => {
            "this rule and an earlier one disagree on where a program runs"
        }
        ProfileRefusal::Memory => "memory ran out",
    }
}
