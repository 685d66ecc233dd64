//! Lists of texts that are made of other lists, by their numbers.

ghost use Rattle.std.specs.Prelude.{◌≡◌, ◌<◌, ◌≤◌, ◌++◌, ◌∷◌, ◌&&◌, true, [], List, length, IfOk, IfSome, OnErr, option_map, slice_get};
ghost use Rattle.aa_text_expansion.specs.Joining.{cut_off, joined, most_kept, texts_of};
ghost use Rattle.aa_text_expansion.specs.Lists.{IsMade, list_at};
ghost use Rattle.aa_text_expansion.specs.code.Made.{AreRight, IsJoined, IsRight, Listed, is_empty_text, is_nothing, listed, lists_of, of_node};

use crate::joining::MOST_KEPT;
use crate::writing::write_out;
use aa_bytes::Sequence;
use std::alloc::{AllocError, Global};
use std::marker::Model;

// How a list of texts is made of earlier ones.
#[derive(Drop)]
pub(crate) enum Made {
    // No text.
    Nothing,
    // One text.
    Text(Sequence<u8>),
    // Each text of the first list followed by each of the second, all of those with the first text of the first list first.
    Joined(usize, usize),
    // The texts of a list, followed by those of another.
    Both(usize, usize),
}

// A list of texts, and what is known of them.
#[derive(Drop)]
pub(crate) struct Node {
    pub(crate) made: Made,
    // Whether there is exactly one text.
    pub(crate) single: bool,
    // Each text has at least so many bytes.
    pub(crate) least: usize,
}

/// Lists of texts, each of which has a number: how many were made before it.
///
/// A list that is made of others doesn't hold their texts: it takes a few words of memory, however many texts it has.
#[derive(Drop)]
pub struct Lists {
    nodes: Vec<Node>,
}

impl Model for Lists {
    ghost use Rattle.std.specs.Prelude.{ℕ, List};
    ghost use Rattle.aa_text_expansion.specs.code.Made.{AreRight, lists_of};

    ghost Value = { List (List (List ℕ)) };

    ghost view = { λ l. lists_of l.nodes.items };

    ghost invariant = { λ l. AreRight l.nodes.items };
}

// The node of a number, if there is one.
pub(crate) fn node_at(nodes: &[Node], number: usize) -> Option<&Node>
    ensures { option_map (λ node. node.now) result ≡ slice_get nodes.now number }
{
    nodes.get(number)
}

// Appends a list, and returns its number.
fn push(nodes: &mut Vec<Node>, node: Node) -> Result<usize, AllocError>
    requires right { AreRight nodes.old.items }
    requires node { IsRight (listed nodes.old.items) node }
    ensures right { AreRight nodes.new.items }
    ensures made { IfOk result (λ number. IsMade (lists_of nodes.old.items) number
        (of_node (listed nodes.old.items) node).texts
        (lists_of nodes.new.items)) }
    ensures unchanged { OnErr result (nodes.new.items ≡ nodes.old.items) }
{
    let number = nodes.len();
    nodes.push(node)?;
    Ok(number)
}

// Whether a list is made as the one empty text.
fn is_empty_text(node: &Node) -> bool
    ensures { result ≡ is_empty_text node.now.made }
{
    match &node.made {
        Made::Text(text) => text.as_slice().is_empty(),
        _ => false,
    }
}

// Whether a list is made as no text.
fn is_nothing(node: &Node) -> bool
    ensures { result ≡ is_nothing node.now.made }
{
    matches!(node.made, Made::Nothing)
}

// Whether the list of a number is made as no text.
fn has_nothing(nodes: &[Node], number: usize) -> bool
    requires { AreRight nodes.now }
    ensures { result ≡ true → list_at (lists_of nodes.now) number ≡ [] }
{
    match node_at(nodes, number) {
        Some(node) => is_nothing(node),
        None => false,
    }
}

// Whether nothing would be kept of the second list's one text after any text of the first, all of which are full.
fn has_no_room(first: &Node, second: &Node) -> bool
    ensures { result ≡ true → (most_kept ≤ first.now.least) × (second.now.single ≡ true) }
{
    first.least >= MOST_KEPT && second.single
}

// The number of a list that has the joined texts of two lists already: where one of them is the empty text, or where nothing of the second is kept
// after the first.
fn joined_already(nodes: &[Node], first: usize, second: usize) -> Option<usize>
    requires { AreRight nodes.now }
    ensures { IfSome result (λ number. IsJoined (lists_of nodes.now) first second number) }
{
    let a = node_at(nodes, first)?;
    let b = node_at(nodes, second)?;
    if is_empty_text(a) {
        return Some(second);
    }
    if is_empty_text(b) {
        return Some(first);
    }
    if has_no_room(a, b) {
        return Some(first);
    }
    None
}

// Whether two lists have one text each.
fn are_single(first: &Node, second: &Node) -> bool
    ensures { result ≡ (first.now.single && second.now.single) }
{
    first.single && second.single
}

// The node of two lists that are joined.
fn joined_node(nodes: &[Node], first: usize, second: usize) -> Node
    requires { AreRight nodes.now }
    ensures right { IsRight (listed nodes.now) result }
    ensures texts { (of_node (listed nodes.now) result).texts ≡ joined (list_at (lists_of nodes.now) first) (list_at (lists_of nodes.now) second) }
{
    let Some(a) = node_at(nodes, first) else {
        return nothing();
    };
    let Some(b) = node_at(nodes, second) else {
        return nothing();
    };
    Node {
        made: Made::Joined(first, second),
        single: are_single(a, b),
        least: a.least.saturating_add(b.least),
    }
}

// The node of no texts.
fn nothing() -> Node
    ensures { (before : List Listed) → IsRight before result × ((of_node before result).texts ≡ []) }
{
    Node {
        made: Made::Nothing,
        single: false,
        least: 0,
    }
}

// The node of the texts of a list followed by those of another.
fn both_node(nodes: &[Node], first: usize, second: usize) -> Node
    requires right { AreRight nodes.now }
    requires first { first < length nodes.now }
    requires second { second < length nodes.now }
    ensures right { IsRight (listed nodes.now) result }
    ensures texts { (of_node (listed nodes.now) result).texts ≡ list_at (lists_of nodes.now) first ++ list_at (lists_of nodes.now) second }
{
    Node {
        made: Made::Both(first, second),
        single: false,
        least: nodes[first].least.min(nodes[second].least),
    }
}

impl Lists {
    /// No lists, with an allocator from which each later one takes memory.
    pub fn new(alloc: Global) -> Lists
        ensures { result ≡ [] }
    {
        Lists {
            nodes: Vec::new(alloc),
        }
    }

    /// Makes a list of no texts, and returns its number.
    ///
    /// # Errors
    ///
    /// Memory ran out. The lists are then unchanged.
    pub fn nothing(&mut self) -> Result<usize, AllocError>
        ensures made { IfOk result (λ number. IsMade self.old number [] self.new) }
        ensures unchanged { OnErr result (self.new ≡ self.old) }
    {
        push(&mut self.nodes, nothing())
    }

    /// Makes a list of one text, which is copied, and returns its number.
    ///
    /// # Errors
    ///
    /// Memory ran out. The lists are then unchanged.
    pub fn text(&mut self, text: &[u8]) -> Result<usize, AllocError>
        ensures made { IfOk result (λ number. IsMade self.old number (text.now ∷ []) self.new) }
        ensures unchanged { OnErr result (self.new ≡ self.old) }
    {
        let alloc = *self.nodes.allocator();
        let node = Node {
            made: Made::Text(Sequence::from_slice(alloc, text)?),
            single: true,
            least: text.len(),
        };
        push(&mut self.nodes, node)
    }

    /// Makes a list of each text of a list followed by each of another, all of those with the first text of the first list first, and returns its
    /// number. The two are given by their numbers; a number that no list has stands for no texts.
    ///
    /// # Errors
    ///
    /// Memory ran out. The lists are then unchanged.
    pub fn joined(&mut self, first: usize, second: usize) -> Result<usize, AllocError>
        ensures made { IfOk result (λ number. IsMade self.old number (joined (list_at self.old first) (list_at self.old second)) self.new) }
        ensures unchanged { OnErr result (self.new ≡ self.old) }
    {
        if let Some(number) = joined_already(self.nodes.as_slice(), first, second) {
            return Ok(number);
        }
        let node = joined_node(self.nodes.as_slice(), first, second);
        push(&mut self.nodes, node)
    }

    /// Makes a list of the texts of a list followed by those of another, both given by their numbers, and returns its number.
    ///
    /// # Errors
    ///
    /// Memory ran out. The lists are then unchanged.
    pub fn both(&mut self, first: usize, second: usize) -> Result<usize, AllocError>
        requires first { first < length self.old }
        requires second { second < length self.old }
        ensures made { IfOk result (λ number. IsMade self.old number (list_at self.old first ++ list_at self.old second) self.new) }
        ensures unchanged { OnErr result (self.new ≡ self.old) }
    {
        if has_nothing(self.nodes.as_slice(), first) {
            return Ok(second);
        }
        let node = both_node(self.nodes.as_slice(), first, second);
        push(&mut self.nodes, node)
    }

    /// The texts of the list of a number, each cut off after its first 4,097 bytes; none where no list has the number. It allocates them all.
    ///
    /// # Errors
    ///
    /// Memory ran out.
    pub fn texts(&self, number: usize) -> Result<Vec<Vec<u8>>, AllocError>
        ensures { IfOk result (λ texts. texts_of texts ≡ cut_off (list_at self.now number)) }
    {
        write_out(*self.nodes.allocator(), self.nodes.as_slice(), number)
    }
}
