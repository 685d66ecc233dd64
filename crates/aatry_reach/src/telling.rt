//! What is told of places that are reached, in lines and in records.

ghost use Rattle.std.specs.Prelude.{◌≡◌, ◌++◌, OnOk, codes, flat_map, map};
ghost use Rattle.aatry_reach.specs.Finding.{seen_found};
ghost use Rattle.aatry_reach.specs.Telling.{all_told, found_told, heading_told, many_told, node_told, reach_told, reached_by};

use crate::finding::{Finding, Found};
use crate::places::{from_text, place_text};
use aa_decide::IndexedSlots;
use aa_explain_reach::{Reach, Reached};
use aatry_claims::{owner_note, owner_word, push_absent};
use aatry_report::{Field, Teller, tell};
use std::alloc::AllocError;

// Appends a place that is reached to a text, who starts a program that runs there, its path, and whose file that is.
#[tactic(auto, unfolding(crate::specs::Telling::reached_by))]
fn push_reached<'x>(
    teller: Teller,
    kind: &'x str,
    name: &'x [u8],
    place: &'x [u8],
    from: &'x [u8],
    path: &'x [u8],
    note: &'x str,
    owned: &'x str,
    out: &mut Vec<u8>,
) -> Result<(), AllocError>
    ensures { OnOk result (out.new.items
        ≡ out.old.items ++ reached_by teller.form kind.now name.now place.now from.now path.now note.now owned.now) }
{
    tell(
        teller,
        kind,
        &[
            Field::Member("name", name),
            Field::Words("  "),
            Field::Text("place", place),
            Field::Words(": "),
            Field::Text("from", from),
            Field::Words(" starts "),
            Field::Text("path", path),
            Field::Words(note),
            Field::MemberWord("owned", owned),
        ],
        out,
    )
}

/// Appends what is told of a place that is reached, of a node among all, to a text: the place, who starts a program that runs there, and its path; as a
/// record of a kind.
///
/// # Errors
///
/// Where memory runs out. A beginning may have been appended then.
pub fn push_node(
    teller: Teller,
    slots: &IndexedSlots<'_>,
    kind: &str,
    name: &[u8],
    nodes: &[Reached<'_>],
    node: &Reached<'_>,
    out: &mut Vec<u8>,
) -> Result<(), AllocError>
    ensures { OnOk result (out.new.items ≡ out.old.items ++ node_told teller.form slots.now kind.now name.now nodes.now node.now) }
{
    let place = place_text(teller.alloc, slots, node.start.to)?;
    let from = from_text(teller.alloc, slots, name, nodes, node.from)?;
    let note = owner_note(node.start.owned);
    let owned = owner_word(node.start.owned);
    push_reached(
        teller,
        kind,
        name,
        &place,
        &from,
        &node.start.path,
        note,
        owned,
        out,
    )
}

// Appends what is told of all nodes.
fn push_nodes(
    teller: Teller,
    slots: &IndexedSlots<'_>,
    name: &[u8],
    nodes: &[Reached<'_>],
    out: &mut Vec<u8>,
) -> Result<(), AllocError>
    ensures { OnOk result (out.new.items ≡ out.old.items ++ flat_map (node_told teller.form slots.now (codes "reached") name.now nodes.now) nodes.now) }
{
    let mut rest = nodes;
    while let [node, behind @ ..] = rest {
        push_node(teller, slots, "reached", name, nodes, node, out)?;
        rest = behind;
    }
    Ok(())
}

// Appends that the paths are too many of who starts programs from a node of a number.
fn push_many(
    teller: Teller,
    slots: &IndexedSlots<'_>,
    name: &[u8],
    nodes: &[Reached<'_>],
    from: Option<usize>,
    out: &mut Vec<u8>,
) -> Result<(), AllocError>
    ensures { OnOk result (out.new.items ≡ out.old.items ++ many_told teller.form slots.now name.now nodes.now from) }
{
    let from = from_text(teller.alloc, slots, name, nodes, from)?;
    tell(
        teller,
        "too_many",
        &[
            Field::Member("name", name),
            Field::Words("  too many paths: "),
            Field::Text("from", &from),
        ],
        out,
    )
}

// The same of all of these.
fn push_each_many(
    teller: Teller,
    slots: &IndexedSlots<'_>,
    name: &[u8],
    nodes: &[Reached<'_>],
    unknown: &[Option<usize>],
    out: &mut Vec<u8>,
) -> Result<(), AllocError>
    ensures { OnOk result (out.new.items ≡ out.old.items ++ flat_map (many_told teller.form slots.now name.now nodes.now) unknown.now) }
{
    let mut rest = unknown;
    while let [from, behind @ ..] = rest {
        push_many(teller, slots, name, nodes, *from, out)?;
        rest = behind;
    }
    Ok(())
}

// Appends how many places are reached to a text.
fn push_heading(
    teller: Teller,
    name: &[u8],
    count: usize,
    out: &mut Vec<u8>,
) -> Result<(), AllocError>
    ensures { OnOk result (out.new.items ≡ out.old.items ++ heading_told teller.form name.now count) }
{
    tell(
        teller,
        "reach",
        &[
            Field::Text("name", name),
            Field::Words(": "),
            Field::Number("reached", count),
            Field::Words(" reached"),
        ],
        out,
    )
}

// Appends all that is told of the places that are reached by the starts of somebody to a text.
fn push_reach(
    teller: Teller,
    slots: &IndexedSlots<'_>,
    name: &[u8],
    reach: &Reach<'_>,
    out: &mut Vec<u8>,
) -> Result<(), AllocError>
    ensures { OnOk result (out.new.items ≡ out.old.items ++ reach_told teller.form slots.now name.now reach.now) }
{
    push_heading(teller, name, reach.nodes.len(), out)?;
    push_nodes(teller, slots, name, &reach.nodes, out)?;
    push_each_many(teller, slots, name, &reach.nodes, &reach.unknown, out)
}

// Appends what is told of a name to a text.
fn push_found(
    teller: Teller,
    slots: &IndexedSlots<'_>,
    found: &Found<'_, '_>,
    out: &mut Vec<u8>,
) -> Result<(), AllocError>
    ensures { OnOk result (out.new.items ≡ out.old.items ++ found_told teller.form slots.now (seen_found found.now)) }
{
    match &found.finding {
        Finding::Absent => push_absent(teller, found.name, out),
        Finding::Reached(reach) => push_reach(teller, slots, found.name, reach, out),
    }
}

/// Appends what is told of all names to a text, of each in its turn: how many places are reached, and below that a line for each, with who starts a program
/// that runs there and its path; then those who start programs whose paths are too many; or that nobody has the name.
///
/// As records these are of the kinds `reach`, `reached`, `too_many` and `absent`, each with the name that was asked about.
///
/// # Errors
///
/// Where memory runs out. A beginning may have been appended then.
pub fn push_all(
    teller: Teller,
    slots: &IndexedSlots<'_>,
    found: &[Found<'_, '_>],
    out: &mut Vec<u8>,
) -> Result<(), AllocError>
    ensures { OnOk result (out.new.items ≡ out.old.items ++ all_told teller.form slots.now (map seen_found found.now)) }
{
    let mut rest = found;
    while let [one, behind @ ..] = rest {
        push_found(teller, slots, one, out)?;
        rest = behind;
    }
    Ok(())
}
