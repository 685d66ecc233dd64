//! What is told of places that are reached as a graph, in the language of graphviz.

ghost use Rattle.std.specs.Prelude.{◌≡◌, ◌++◌, OnOk, flat_map, map};
ghost use Rattle.aatry_reach.specs.Finding.{seen_found};
ghost use Rattle.aatry_reach.specs.Graph.{comment, edge, edge_line, finding_drawn, found_drawn, graph, many, node_line, quoted, quoted_byte, reach_drawn};

use crate::finding::{Finding, Found};
use crate::places::{from_text, place_text};
use aa_decide::IndexedSlots;
use aa_explain_reach::{Reach, Reached};
use aatry_report::push_shown;
use std::alloc::{AllocError, Global};

// Appends a byte that stands between quotes to a text.
fn push_quoted_byte(byte: u8, out: &mut Vec<u8>) -> Result<(), AllocError>
    ensures { OnOk result (out.new.items ≡ out.old.items ++ quoted_byte byte) }
{
    if byte == b'"' || byte == b'\\' {
        out.push(b'\\')?;
    }
    out.push(byte)?;
    Ok(())
}

// Appends bytes that stand between quotes to a text.
fn push_quoted_bytes(bytes: &[u8], out: &mut Vec<u8>) -> Result<(), AllocError>
    ensures { OnOk result (out.new.items ≡ out.old.items ++ flat_map quoted_byte bytes.now) }
{
    let mut rest = bytes;
    while let [byte, behind @ ..] = rest {
        push_quoted_byte(*byte, out)?;
        rest = behind;
    }
    Ok(())
}

// Appends a text between quotes to another, as it is shown.
fn push_quoted(alloc: Global, text: &[u8], out: &mut Vec<u8>) -> Result<(), AllocError>
    ensures { OnOk result (out.new.items ≡ out.old.items ++ quoted text.now) }
{
    let mut shown = Vec::new(alloc);
    push_shown(&mut shown, text)?;
    out.push(b'"')?;
    push_quoted_bytes(&shown, out)?;
    out.push(b'"')?;
    Ok(())
}

// Appends an edge to a text.
#[tactic(auto, unfolding(crate::specs::Graph::edge_line))]
fn push_edge_line(
    alloc: Global,
    from: &[u8],
    place: &[u8],
    path: &[u8],
    out: &mut Vec<u8>,
) -> Result<(), AllocError>
    ensures { OnOk result (out.new.items ≡ out.old.items ++ edge_line from.now place.now path.now) }
{
    out.extend_from_slice(b"  ")?;
    push_quoted(alloc, from, out)?;
    out.extend_from_slice(b" -> ")?;
    push_quoted(alloc, place, out)?;
    out.extend_from_slice(b" [label=")?;
    push_quoted(alloc, path, out)?;
    out.extend_from_slice(b"];\n")
}

// The same of a node among all.
fn push_edge(
    alloc: Global,
    slots: &IndexedSlots<'_>,
    name: &[u8],
    nodes: &[Reached<'_>],
    node: &Reached<'_>,
    out: &mut Vec<u8>,
) -> Result<(), AllocError>
    ensures { OnOk result (out.new.items ≡ out.old.items ++ edge slots.now name.now nodes.now node.now) }
{
    let from = from_text(alloc, slots, name, nodes, node.from)?;
    let place = place_text(alloc, slots, node.start.to)?;
    push_edge_line(alloc, &from, &place, &node.start.path, out)
}

// The same of all nodes.
fn push_edges(
    alloc: Global,
    slots: &IndexedSlots<'_>,
    name: &[u8],
    nodes: &[Reached<'_>],
    out: &mut Vec<u8>,
) -> Result<(), AllocError>
    ensures { OnOk result (out.new.items ≡ out.old.items ++ flat_map (edge slots.now name.now nodes.now) nodes.now) }
{
    let mut rest = nodes;
    while let [node, behind @ ..] = rest {
        push_edge(alloc, slots, name, nodes, node, out)?;
        rest = behind;
    }
    Ok(())
}

// Appends a comment to a text: words, and another text as it is shown.
#[tactic(auto, unfolding(crate::specs::Graph::comment))]
fn push_comment(words: &str, text: &[u8], out: &mut Vec<u8>) -> Result<(), AllocError>
    ensures { OnOk result (out.new.items ≡ out.old.items ++ comment words.now text.now) }
{
    out.extend_from_slice(b"  // ")?;
    out.extend_from_slice(words.as_bytes())?;
    push_shown(out, text)?;
    out.push(b'\n')?;
    Ok(())
}

// Appends who starts programs from a node of a number, and that the paths of these are too many, to a text.
fn push_many(
    alloc: Global,
    slots: &IndexedSlots<'_>,
    name: &[u8],
    nodes: &[Reached<'_>],
    from: Option<usize>,
    out: &mut Vec<u8>,
) -> Result<(), AllocError>
    ensures { OnOk result (out.new.items ≡ out.old.items ++ many slots.now name.now nodes.now from) }
{
    let from = from_text(alloc, slots, name, nodes, from)?;
    push_comment("too many paths: ", &from, out)
}

// The same of all of these.
fn push_each_many(
    alloc: Global,
    slots: &IndexedSlots<'_>,
    name: &[u8],
    nodes: &[Reached<'_>],
    unknown: &[Option<usize>],
    out: &mut Vec<u8>,
) -> Result<(), AllocError>
    ensures { OnOk result (out.new.items ≡ out.old.items ++ flat_map (many slots.now name.now nodes.now) unknown.now) }
{
    let mut rest = unknown;
    while let [from, behind @ ..] = rest {
        push_many(alloc, slots, name, nodes, *from, out)?;
        rest = behind;
    }
    Ok(())
}

// Appends who is asked about to a text.
#[tactic(auto, unfolding(crate::specs::Graph::node_line))]
fn push_node_line(alloc: Global, name: &[u8], out: &mut Vec<u8>) -> Result<(), AllocError>
    ensures { OnOk result (out.new.items ≡ out.old.items ++ node_line name.now) }
{
    out.extend_from_slice(b"  ")?;
    push_quoted(alloc, name, out)?;
    out.extend_from_slice(b";\n")
}

// Appends who is asked about, and the edges of all that are reached from there, to a text.
fn push_reach(
    alloc: Global,
    slots: &IndexedSlots<'_>,
    name: &[u8],
    reach: &Reach<'_>,
    out: &mut Vec<u8>,
) -> Result<(), AllocError>
    ensures { OnOk result (out.new.items ≡ out.old.items ++ reach_drawn slots.now name.now reach.now) }
{
    push_node_line(alloc, name, out)?;
    push_edges(alloc, slots, name, &reach.nodes, out)?;
    push_each_many(alloc, slots, name, &reach.nodes, &reach.unknown, out)
}

// Appends what is found of a name to a text.
fn push_found(
    alloc: Global,
    slots: &IndexedSlots<'_>,
    found: &Found<'_, '_>,
    out: &mut Vec<u8>,
) -> Result<(), AllocError>
    ensures { OnOk result (out.new.items ≡ out.old.items ++ found_drawn slots.now (seen_found found.now)) }
{
    match &found.finding {
        Finding::Absent => push_comment("absent: nobody has the name ", found.name, out),
        Finding::Reached(reach) => push_reach(alloc, slots, found.name, reach, out),
    }
}

// The same of all names.
fn push_each(
    alloc: Global,
    slots: &IndexedSlots<'_>,
    found: &[Found<'_, '_>],
    out: &mut Vec<u8>,
) -> Result<(), AllocError>
    ensures { OnOk result (out.new.items ≡ out.old.items ++ flat_map (found_drawn slots.now) (map seen_found found.now)) }
{
    let mut rest = found;
    while let [one, behind @ ..] = rest {
        push_found(alloc, slots, one, out)?;
        rest = behind;
    }
    Ok(())
}

/// Appends a graph of all that is found to a text: a node for each who is asked about and for each place that is reached, and an edge for each of these, from
/// who starts a program that runs there, with its path. What isn't known, and names that nobody has, stand there as comments.
///
/// # Errors
///
/// Where memory runs out. A beginning may have been appended then.
pub fn push_graph(
    alloc: Global,
    slots: &IndexedSlots<'_>,
    found: &[Found<'_, '_>],
    out: &mut Vec<u8>,
) -> Result<(), AllocError>
    ensures { OnOk result (out.new.items ≡ out.old.items ++ graph slots.now (map seen_found found.now)) }
{
    out.extend_from_slice(b"digraph reach {\n")?;
    push_each(alloc, slots, found, out)?;
    out.extend_from_slice(b"}\n")
}
