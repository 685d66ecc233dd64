//! Who starts programs, with one automaton of its rules, for many starts.

ghost use Rattle.std.specs.Prelude.{◌≡◌, IfOk, IfSome};
ghost use Rattle.std.specs.List.Sorted.{IsStrictlyIncreasing};
ghost use Rattle.std.specs.Option.{option_map};
ghost use Rattle.aa_decide.specs.Exec.{exec_answer};
ghost use Rattle.aa_decide.specs.SeenExec.{IsAnswer, IsIn, seen_asker};
ghost use Rattle.aa_decide_ready.specs.Slots.{filled};
ghost use Rattle.aa_decide_rules.specs.Choices.{choice};
ghost use Rattle.aa_decide_rules.specs.SeenChoices.{seen_choice};
ghost use Rattle.aa_explain_reach.specs.Patterns.{asked_rules};
ghost use Rattle.aa_profile_data.specs.Matching.{AreMatchingRules};

use crate::patterns::asked_rules;
use aa_decide::{
    Asker, Confinement, ExecChoice, ExecVerdict, IndexedSlots, ReadySection, Steps, by_choice,
    exec_by,
};
use aa_decide_ready::FileRules;
use aa_decide_rules::exec_choice;
use std::alloc::{AllocError, Global};
use std::marker::Model;

/// Someone who starts programs, or no one in particular, with the automaton of the rules that are asked then: it is
/// built once, and each start runs it over its path. Contracts see who asks alone.
#[derive(Drop)]
pub struct ReadyAsker<'a> {
    /// Who asks.
    pub asker: Option<Asker<'a>>,
    // The automaton of the rules on files that are asked.
    files: FileRules,
}

impl<'a> Model for ReadyAsker<'a> {
    ghost use Rattle.std.specs.Prelude.{Option};
    ghost use Rattle.std.specs.Option.{option_map};
    ghost use Rattle.aa_decide.specs.SeenExec.{seen_asker};
    ghost use Rattle.aa_decide.specs.declared.asker.Asker.{Asker};
    ghost use Rattle.aa_decide_ready.specs.FileAutomata.{AreFileRulesOf};
    ghost use Rattle.aa_explain_reach.specs.Patterns.{asked_rules};

    ghost Value = { Option Asker };

    ghost view = { λ r. r.asker };

    ghost invariant = { λ r. AreFileRulesOf r.files (asked_rules (option_map seen_asker r.asker)) };
}

impl<'a> ReadyAsker<'a> {
    /// Builds the automaton of the rules of who asks, in the time and memory of their patterns' states; where no rules
    /// are asked, it is that of none.
    ///
    /// # Errors
    ///
    /// Where memory runs out, and where there are more than 4,294,967,295 patterns or states.
    pub fn of(alloc: Global, asker: Option<Asker<'a>>) -> Result<ReadyAsker<'a>, AllocError>
        ensures { IfOk result (λ ready. ready ≡ asker.entry) }
    {
        let files = FileRules::build(alloc, asked_rules(asker))?;
        Ok(ReadyAsker { asker, files })
    }

    // The places of the rules that are asked and whose pattern matches a path, in rising order.
    fn matching(&self, alloc: Global, path: &[u8]) -> Result<Vec<usize>, AllocError>
        ensures found { IfOk result (λ places. AreMatchingRules (asked_rules (option_map seen_asker self.now)) path.now places.items) }
        ensures rise { IfOk result (λ places. IsStrictlyIncreasing places.items) }
    {
        self.files.matching(alloc, path, &mut Steps::new())
    }
}

// What the rules of who asks say together of the start of the program of a path, where these are the section's.
fn choice_by<'a>(
    alloc: Global,
    ready: &ReadyAsker<'a>,
    section: ReadySection<'a>,
    owned: bool,
    path: &[u8],
) -> Result<ExecChoice<'a>, AllocError>
    requires { section.rules.now ≡ asked_rules (option_map seen_asker ready.now) }
    ensures { IfOk result (λ found. seen_choice found ≡ choice section.entry.audit owned path.now section.entry.rules.now) }
{
    let places = ready.matching(alloc, path)?;
    exec_choice(alloc, section.audit, section.rules, &places, owned)
}

/// Answers as `aa_decide::exec_by`, by the automaton that is ready.
///
/// # Errors
///
/// Where memory runs out.
pub fn exec_ready<'a>(
    alloc: Global,
    slots: &IndexedSlots<'_>,
    ready: &ReadyAsker<'a>,
    owned: bool,
    path: &[u8],
) -> Result<ExecVerdict<'a>, AllocError>
    requires { IfSome ready.now (IsIn slots.now) }
    ensures { IfOk result (λ found.
        IsAnswer slots.now found (exec_answer (filled slots.now) (option_map seen_asker ready.now) owned path.now)) }
{
    let Some(asker) = ready.asker else {
        return exec_by(alloc, slots, None, owned, path);
    };
    match asker.entry.confinement(asker.child) {
        Confinement::Unconfined | Confinement::ByName => {
            exec_by(alloc, slots, ready.asker, owned, path)
        }
        Confinement::By { section, mediation } => {
            let choice = choice_by(alloc, ready, section, owned, path)?;
            by_choice(alloc, slots, asker, mediation, path, choice)
        }
    }
}
