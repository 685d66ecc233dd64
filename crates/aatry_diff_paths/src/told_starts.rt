//! What is told of starts of programs that lead elsewhere.

ghost use Rattle.std.specs.Prelude.{◌≡◌, ◌++◌, IfOk, OnOk, flat_map, option_map};
ghost use Rattle.aa_explain_start_changes.specs.Starters.{seen_starters};
ghost use Rattle.aatry_diff_paths.specs.Telling.{led_text, start_by, start_told, starts_told};

use aa_decide::IndexedSlots;
use aa_explain_reach::leads_somewhere;
use aa_explain_start_changes::{Led, StartChange, Starters};
use aatry_claims::{owner_note, owner_word};
use aatry_reach::place_text;
use aatry_report::{Field, Teller, tell};
use std::alloc::{AllocError, Global};

// What the start of a program leads to, in words.
fn led_text(alloc: Global, slots: &IndexedSlots<'_>, led: Led<'_>) -> Result<Vec<u8>, AllocError>
    ensures { IfOk result (λ text. text.items ≡ led_text slots.now led.entry) }
{
    if !leads_somewhere(led.to) {
        return Vec::from_slice(alloc, b"nowhere");
    }
    let mut text = place_text(alloc, slots, led.to)?;
    if led.scrub {
        text.extend_from_slice(b" scrub")?;
    }
    Ok(text)
}

// Appends a start to a text, by its path, whose file that is, and where it leads before and after the change, in words.
#[tactic(auto, unfolding(crate::specs::Telling::start_by))]
fn push_start_by<'x>(
    teller: Teller,
    name: &'x [u8],
    path: &'x [u8],
    note: &'x str,
    owned: &'x str,
    before: &'x [u8],
    after: &'x [u8],
    out: &mut Vec<u8>,
) -> Result<(), AllocError>
    ensures { OnOk result (out.new.items ≡ out.old.items ++ start_by teller.form name.now path.now note.now owned.now before.now after.now) }
{
    tell(
        teller,
        "start",
        &[
            Field::Member("name", name),
            Field::Words("  start of "),
            Field::Text("path", path),
            Field::Words(note),
            Field::MemberWord("owned", owned),
            Field::Words(": "),
            Field::Text("before", before),
            Field::Words(" -> "),
            Field::Text("after", after),
        ],
        out,
    )
}

// Appends a start to a text, by who starts it.
fn push_start(
    teller: Teller,
    name: &[u8],
    starters: Starters<'_, '_>,
    start: &StartChange<'_>,
    out: &mut Vec<u8>,
) -> Result<(), AllocError>
    ensures { OnOk result (out.new.items ≡ out.old.items ++ start_told teller.form name.now (seen_starters starters.entry) start.now) }
{
    let before = led_text(teller.alloc, starters.old.slots, start.old)?;
    let after = led_text(teller.alloc, starters.new.slots, start.new)?;
    let note = owner_note(start.owned);
    let owned = owner_word(start.owned);
    push_start_by(teller, name, &start.path, note, owned, &before, &after, out)
}

// The same of all of these.
fn push_each(
    teller: Teller,
    name: &[u8],
    starters: Starters<'_, '_>,
    starts: &[StartChange<'_>],
    out: &mut Vec<u8>,
) -> Result<(), AllocError>
    ensures { OnOk result (out.new.items ≡ out.old.items ++ flat_map (start_told teller.form name.now (seen_starters starters.entry)) starts.now) }
{
    let mut rest = starts;
    while let [start, behind @ ..] = rest {
        push_start(teller, name, starters, start, out)?;
        rest = behind;
    }
    Ok(())
}

/// Appends what is told of starts of programs that lead elsewhere to a text, of each in its turn; nothing where their paths
/// are too many.
///
/// # Errors
///
/// Where memory runs out. A beginning may have been appended then.
pub fn push_starts(
    teller: Teller,
    name: &[u8],
    starters: Starters<'_, '_>,
    starts: &Option<Vec<StartChange<'_>>>,
    out: &mut Vec<u8>,
) -> Result<(), AllocError>
    ensures { OnOk result (out.new.items
        ≡ out.old.items ++ starts_told teller.form name.now (seen_starters starters.entry) (option_map (λ starts. starts.items) starts.now)) }
{
    match starts {
        None => Ok(()),
        Some(starts) => push_each(teller, name, starters, starts, out),
    }
}
