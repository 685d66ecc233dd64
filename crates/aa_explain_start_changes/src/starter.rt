//! Who starts programs, before a change of policy and behind it.

ghost use Rattle.std.specs.Prelude.{◌≡◌, IfOk};
ghost use Rattle.aa_explain_start_changes.specs.Starters.{AreThere, IsLed, IsThere, seen_starter};

use aa_decide::{Asker, ExecTo, IndexedSlots};
use aa_explain_reach::{ReadyAsker, exec_ready};
use std::alloc::{AllocError, Global};
use std::marker::Model;

/// Someone who starts programs, and the policy by which that is decided.
#[derive(Clone, Copy)]
pub struct Starter<'s, 'a> {
    /// The policy set.
    pub slots: &'s IndexedSlots<'a>,
    /// Who asks: one of this policy set, or no one in particular.
    pub asker: Option<Asker<'a>>,
}

/// Who starts programs, before a change of policy and behind it.
#[derive(Clone, Copy)]
pub struct Starters<'s, 'a> {
    /// Who does before.
    pub old: Starter<'s, 'a>,
    /// Who does behind it.
    pub new: Starter<'s, 'a>,
}

/// What the start of a program leads to.
#[derive(Clone, Copy)]
pub struct Led<'a> {
    /// Under what the program runs, by the slots of the policy set.
    pub to: ExecTo<'a>,
    /// Whether its environment is scrubbed.
    pub scrub: bool,
}

/// Who starts programs before a change and behind it, each with one automaton of its rules, for many starts. Contracts
/// see who starts them alone.
#[derive(Drop)]
pub struct ReadyStarters<'s, 'a> {
    /// Who starts them.
    pub starters: Starters<'s, 'a>,
    // The one before,
    old: ReadyAsker<'a>,
    // and the one behind it.
    new: ReadyAsker<'a>,
}

impl<'s, 'a> Model for ReadyStarters<'s, 'a> {
    ghost use Rattle.std.specs.Prelude.{◌≡◌};
    ghost use Rattle.aa_explain_start_changes.specs.declared.starter.Starters.{Starters};

    ghost Value = { Starters };

    ghost view = { λ r. r.starters };

    ghost invariant = { λ r. (r.old ≡ r.starters.old.asker) × (r.new ≡ r.starters.new.asker) };
}

// What the start of the program of a path leads to, by `aa_decide::exec_by`.
fn led_by<'a>(
    alloc: Global,
    starter: Starter<'_, 'a>,
    ready: &ReadyAsker<'a>,
    owned: bool,
    path: &[u8],
) -> Result<Led<'a>, AllocError>
    requires there { IsThere starter }
    requires same { ready.now ≡ starter.asker }
    ensures { IfOk result (IsLed (seen_starter starter.entry) owned path.now) }
{
    let found = exec_ready(alloc, starter.slots, ready, owned, path)?;
    Ok(Led {
        to: found.to,
        scrub: found.scrub,
    })
}

impl<'s, 'a> ReadyStarters<'s, 'a> {
    /// Builds the automata of both.
    ///
    /// # Errors
    ///
    /// Where memory runs out, and where there are more than 4,294,967,295 patterns or states.
    pub fn of(
        alloc: Global,
        starters: Starters<'s, 'a>,
    ) -> Result<ReadyStarters<'s, 'a>, AllocError>
        ensures { IfOk result (λ ready. ready ≡ starters.entry) }
    {
        let old = ReadyAsker::of(alloc, starters.old.asker)?;
        let new = ReadyAsker::of(alloc, starters.new.asker)?;
        Ok(ReadyStarters { starters, old, new })
    }

    /// What the start of the program of a path leads to before the change.
    ///
    /// # Errors
    ///
    /// Where memory runs out.
    pub fn old_led(&self, alloc: Global, owned: bool, path: &[u8]) -> Result<Led<'a>, AllocError>
        requires { AreThere self.now }
        ensures { IfOk result (IsLed (seen_starter self.now.old) owned path.now) }
    {
        led_by(alloc, self.starters.old, &self.old, owned, path)
    }

    /// What it leads to behind the change.
    ///
    /// # Errors
    ///
    /// Where memory runs out.
    pub fn new_led(&self, alloc: Global, owned: bool, path: &[u8]) -> Result<Led<'a>, AllocError>
        requires { AreThere self.now }
        ensures { IfOk result (IsLed (seen_starter self.now.new) owned path.now) }
    {
        led_by(alloc, self.starters.new, &self.new, owned, path)
    }
}
