//! Where the rules of the asker are written.

ghost use Rattle.std.specs.Prelude.{◌≡◌, option_map};
ghost use Rattle.aa_decide.specs.SeenExec.{seen_asker};
ghost use Rattle.aa_set_commands.specs.Question.{seen_question};
ghost use Rattle.aatry_why.specs.Sources.{asked_origin, seen_sources, written_by};
ghost use Rattle.aatry_why_lines.specs.Written.{seen_rules};

use aa_decide::Asker;
use aa_explain_rules::AskedRules;
use aa_profile_data::cut_full_name;
use aa_set_commands::Question;
use aatry_folder::PolicyFiles;
use aatry_policy::{Origin, file_of, origin_in, rule_places};
use aatry_requests::who_asks;
use aatry_why_lines::WrittenRules;

/// Where the rules of the asker are written.
#[derive(Clone, Copy)]
pub struct Sources<'a> {
    /// What lies below the folder of policy.
    pub below: PolicyFiles<'a>,
    /// Where the profile of the asker was read, if that is known.
    pub origin: Option<&'a Origin>,
}

/// Where the profile of the asker was read, among some origins, if it is there. It takes no memory.
pub fn asked_origin<'a>(origins: &'a [Origin], question: &Question<'_>) -> Option<&'a Origin>
    ensures { option_map (λ origin. origin.now) result ≡ asked_origin origins.now (seen_question question.entry.now) }
{
    let (profile, _) = cut_full_name(who_asks(question));
    origin_in(origins, profile)
}

/// The rules of the asker, with where they are written.
pub fn written_by<'a>(sources: &Sources<'a>, asker: Asker<'a>) -> WrittenRules<'a>
    ensures { seen_rules result ≡ written_by (seen_sources sources.now) (seen_asker asker.entry) }
{
    WrittenRules {
        below: sources.below,
        name: file_of(sources.origin),
        rules: AskedRules::Loaded(asker.entry.ready().section(asker.child)),
        places: rule_places(sources.origin, asker.child),
    }
}
