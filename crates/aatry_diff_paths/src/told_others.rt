//! What is told of modes, capabilities and sockets.

ghost use Rattle.std.specs.Prelude.{◌≡◌, ◌++◌, OnOk, option_map};
ghost use Rattle.aatry_diff_paths.specs.Telling.{capability_by, mode_told, name_or, other_told, others_told, sockets_by};
ghost use Rattle.aatry_shared.specs.PartFeatures.{state_text};

use crate::answers::{answer_text, tells_logs};
use aa_profile_data::{Mode, capability_name, domain_name, kind_name};
use aa_set_answers::mode_word;
use aatry_path_changes::{Other, OtherChange, same_state};
use aatry_report::{Field, Teller, tell};
use std::alloc::AllocError;

// The word of a mode, or that somebody is disabled.
fn state_word(mode: Option<Mode>) -> &'static str
    ensures { result.now ≡ state_text mode }
{
    match mode {
        None => "disabled",
        Some(mode) => mode_word(mode),
    }
}

/// Appends what is told of the modes of a part of both folders to a text, where they differ.
///
/// # Errors
///
/// Where memory runs out. A beginning may have been appended then.
pub fn push_mode(
    teller: Teller,
    name: &[u8],
    old: Option<Mode>,
    new: Option<Mode>,
    out: &mut Vec<u8>,
) -> Result<(), AllocError>
    ensures { OnOk result (out.new.items ≡ out.old.items ++ mode_told teller.form name.now old new) }
{
    if same_state(old, new) {
        return Ok(());
    }
    tell(
        teller,
        "mode",
        &[
            Field::Member("name", name),
            Field::Words("  mode: "),
            Field::Word("before", state_word(old)),
            Field::Words(" -> "),
            Field::Word("after", state_word(new)),
        ],
        out,
    )
}

// A name, if there is one.
fn name_or(name: Option<&'static str>) -> &'static str
    ensures { result.now ≡ name_or (option_map (λ own. own.now) name.entry) }
{
    match name {
        None => "",
        Some(name) => name,
    }
}

// Appends a capability to a text, and the answers.
#[tactic(auto, unfolding(crate::specs::Telling::capability_by))]
fn push_capability<'x>(
    teller: Teller,
    name: &'x [u8],
    capability: &'x str,
    before: &'x [u8],
    after: &'x [u8],
    out: &mut Vec<u8>,
) -> Result<(), AllocError>
    ensures { OnOk result (out.new.items ≡ out.old.items ++ capability_by teller.form name.now capability.now before.now after.now) }
{
    tell(
        teller,
        "capability",
        &[
            Field::Member("name", name),
            Field::Words("  capability "),
            Field::Word("capability", capability),
            Field::Words(": "),
            Field::Plain("before", before),
            Field::Words(" -> "),
            Field::Plain("after", after),
        ],
        out,
    )
}

// Appends sockets to a text, and the answers.
#[tactic(auto, unfolding(crate::specs::Telling::sockets_by))]
fn push_sockets<'x>(
    teller: Teller,
    name: &'x [u8],
    domain: &'x str,
    kind: &'x str,
    before: &'x [u8],
    after: &'x [u8],
    out: &mut Vec<u8>,
) -> Result<(), AllocError>
    ensures { OnOk result (out.new.items ≡ out.old.items ++ sockets_by teller.form name.now domain.now kind.now before.now after.now) }
{
    tell(
        teller,
        "sockets",
        &[
            Field::Member("name", name),
            Field::Words("  sockets "),
            Field::Word("domain", domain),
            Field::Words(" "),
            Field::Word("type", kind),
            Field::Words(": "),
            Field::Plain("before", before),
            Field::Words(" -> "),
            Field::Plain("after", after),
        ],
        out,
    )
}

// Appends what is told of a capability, or of sockets, to a text.
fn push_other(
    teller: Teller,
    name: &[u8],
    change: &OtherChange,
    out: &mut Vec<u8>,
) -> Result<(), AllocError>
    ensures { OnOk result (out.new.items ≡ out.old.items ++ other_told teller.form name.now change.now) }
{
    let logs = tells_logs(change.answers);
    let before = answer_text(teller.alloc, logs, change.answers.old)?;
    let after = answer_text(teller.alloc, logs, change.answers.new)?;
    match change.other {
        Other::Capability(number) => {
            let capability = name_or(capability_name(number));
            push_capability(teller, name, capability, &before, &after, out)
        }
        Other::Sockets(domain, kind) => {
            let domain = name_or(domain_name(domain));
            let kind = name_or(kind_name(kind));
            push_sockets(teller, name, domain, kind, &before, &after, out)
        }
    }
}

/// Appends what is told of capabilities and sockets that are answered otherwise of a part of both folders to a text, of each in its turn.
///
/// # Errors
///
/// Where memory runs out. A beginning may have been appended then.
pub fn push_others(
    teller: Teller,
    name: &[u8],
    changes: &[OtherChange],
    out: &mut Vec<u8>,
) -> Result<(), AllocError>
    ensures { OnOk result (out.new.items ≡ out.old.items ++ others_told teller.form name.now changes.now) }
{
    let mut rest = changes;
    while let [change, behind @ ..] = rest {
        push_other(teller, name, change, out)?;
        rest = behind;
    }
    Ok(())
}
