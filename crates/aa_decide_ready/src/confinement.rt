//! What confines a task, by a loaded profile.

ghost use Rattle.std.specs.Prelude.{◌≡◌};
ghost use Rattle.aa_decide_ready.specs.Confinement.{confined, found, in_state, mode_at};
ghost use Rattle.aa_decide_ready.specs.SeenSections.{seen_section};

use crate::entry::{Entry, State};
use crate::section::ReadySection;
use aa_decide_rules::Mediation;
use aa_profile_data::Mode;

/// What confines a task.
#[derive(Clone, Copy)]
pub enum Confinement<'a> {
    /// Nothing.
    Unconfined,
    /// A profile, or a child or hat of it, in mode unconfined: it gives its name, and none of its rules is looked at.
    ByName,
    /// A profile, or a child or hat of it, whose rules decide.
    By {
        /// The rules and attachments of it.
        section: ReadySection<'a>,
        /// What happens to what its rules don't allow.
        mediation: Mediation,
    },
}

// The mode of a profile, or of its child or hat at an index.
fn mode_at(modes: &[Mode], child: Option<usize>) -> Mode
    ensures { result ≡ mode_at modes.now child }
{
    let [mode, rest @ ..] = modes else {
        return Mode::Enforce;
    };
    match child {
        None => *mode,
        Some(place) => match rest.get(place) {
            Some(own) => *own,
            None => *mode,
        },
    }
}

// What confines a task, by a profile, child or hat in force in a mode.
fn confined<'a>(section: ReadySection<'a>, mode: Mode) -> Confinement<'a>
    ensures { found result ≡ confined (seen_section section.entry) mode }
{
    match mode {
        Mode::Enforce => Confinement::By {
            section,
            mediation: Mediation::Enforcing,
        },
        Mode::Complain => Confinement::By {
            section,
            mediation: Mediation::Complaining,
        },
        Mode::Unconfined => Confinement::ByName,
    }
}

impl Entry {
    /// What confines a task, by this profile, or by its child or hat at an index: nothing, where the profile is disabled, and its name alone, where
    /// it is in mode unconfined. It takes no memory.
    pub fn confinement(&self, child: Option<usize>) -> Confinement<'_>
        ensures { found result ≡ in_state self.now.profile self.now.state child }
    {
        match self.state() {
            State::Disabled => Confinement::Unconfined,
            State::Modes(modes) => {
                let mode = mode_at(modes.as_slice(), child);
                confined(self.ready().section(child), mode)
            }
        }
    }
}
