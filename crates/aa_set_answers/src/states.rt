//! The states of loaded profiles, as they are printed.

ghost use Rattle.std.specs.Prelude.{◌≡◌, ◌++◌, OnOk};
ghost use Rattle.aa_set_answers.specs.States.{mode_word, state_word, written_state};

use crate::names::full_name;
use aa_bytes::push_text;
use aa_decide::Mediation;
use aa_decide_ready::{Confinement, Entry};
use aa_profile_data::Mode;
use std::alloc::{AllocError, Global};

/// The word for a mode.
pub fn mode_word(mode: Mode) -> &'static str
    ensures { result.now ≡ mode_word mode }
{
    match mode {
        Mode::Enforce => "enforce",
        Mode::Complain => "complain",
        Mode::Unconfined => "unconfined",
    }
}

// The word for a profile's state, or for that of its child or hat at an index.
fn state_word(entry: &Entry, child: Option<usize>) -> &'static str
    ensures { result.now ≡ state_word entry.now.state child }
{
    match entry.confinement(child) {
        Confinement::Unconfined => "disabled",
        Confinement::ByName => mode_word(Mode::Unconfined),
        Confinement::By { mediation, .. } => match mediation {
            Mediation::Enforcing => mode_word(Mode::Enforce),
            Mediation::Complaining => mode_word(Mode::Complain),
        },
    }
}

// Appends the full name and the state of a profile, or of its child or hat at an index, to a text.
pub fn push_state(
    text: &mut Vec<u8>,
    alloc: Global,
    entry: &Entry,
    child: Option<usize>,
) -> Result<(), AllocError>
    ensures { OnOk result (text.new.items ≡ text.old.items ++ written_state entry.now child) }
{
    let name = full_name(alloc, entry.profile(), child)?;
    push_text(text, name.as_slice())?;
    text.push(b' ')?;
    text.extend_from_slice(state_word(entry, child).as_bytes())
}
