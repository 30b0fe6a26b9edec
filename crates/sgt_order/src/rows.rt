//! The rows of a graph, which spare the search the edges to nodes that it has met.

ghost use Rattle.std.specs.Prelude.{◌≡◌, ℕ, ◌<◌, ◌^◌, ◌++◌, ◌∷◌, [], List, Some, filter, length, IfOk, IsTrue, slice_get};
ghost use Rattle.sgt_edges.specs.declared.edge.Edge.{Edge as Joint};
ghost use Rattle.sgt_order.specs.SerializationGraph.{is_present};
ghost use Rattle.sgt_order.specs.private.Parts.{Lists};
ghost use Rattle.sgt_order.specs.private.Rows.{Covers, HasBit, IsAmong, IsOpenRow, RowsCover};
ghost use Rattle.sgt_order.specs.private.Search.{IsListed};

use crate::node::Node;
use crate::offer::is_present;
use crate::row::{Row, WORDS, add, are_among};
use sgt_arena::{Arena, Handle};
use sgt_edges::Edge;
use std::alloc::{AllocError, Global};

/// A node with as many edges gets a row. It is looked for where their number comes to a multiple of this.
pub const WIDE: usize = 32;

// Sets the bit of an edge, if the node that it comes from has a row.
fn add_edge(rows: &mut [Row], edge: &Edge)
    ensures { (over : List Joint) → RowsCover rows.old over
        → RowsCover rows.new (over ++ edge.now ∷ []) }
{
    let from = edge.from.index as usize;
    if from < rows.len() {
        add(&mut rows[from], edge.to.index as usize);
    }
}

/// Sets the bits of the edges of the window.
pub(crate) fn add_edges(rows: &mut [Row], generation: u32, offered: &[Edge])
    ensures { (over : List Joint) → RowsCover rows.old over
        → RowsCover rows.new (over ++ filter (is_present generation) offered.now) }
{
    for edge in offered {
        if is_present(generation, edge) {
            add_edge(rows, edge);
        }
    }
}

// Sets the bits of the edges with these numbers.
fn add_listed(row: &mut Row, listed: &[usize], edges: &[Edge])
    requires { (j n : ℕ) → slice_get listed.now j ≡ Some n → n < length edges.now }
    ensures { IsOpenRow row.new → (e : Joint) → IsListed edges.now listed.now e
        → HasBit row.new.words.items e.to.index }
{
    for number in listed {
        add(row, edges[*number].to.index as usize);
    }
}

// The row of the edges with these numbers.
fn row_of(alloc: Global, listed: &[usize], edges: &[Edge]) -> Result<Row, AllocError>
    requires { (j n : ℕ) → slice_get listed.now j ≡ Some n → n < length edges.now }
    ensures { IfOk result
        (λ row. IsOpenRow row → (e : Joint) → IsListed edges.now listed.now e
        → HasBit row.words.items e.to.index) }
{
    let mut row = Row {
        words: vec![in alloc; 0; WORDS]?,
    };
    add_listed(&mut row, listed, edges);
    Ok(row)
}

// Puts a row at this index, with empty ones in front of it where there are none.
fn put_row(rows: &mut Vec<Row>, at: usize, row: Row) -> Result<(), AllocError>
    requires { at < 2 ^ 32 }
    ensures { (over : List Joint) → RowsCover rows.old.items over
        → (IsOpenRow row → Covers over at row.words.items)
        → RowsCover rows.new.items over }
{
    let alloc = *rows.allocator();
    for _empty in rows.len()..at + 1 {
        rows.reserve(1)?;
        rows.push_reserved(Row {
            words: Vec::new(alloc),
        });
    }
    if at < rows.len() {
        rows[at] = row;
    }
    Ok(())
}

// Gives the node a row, if it has many edges and no row.
fn open_row(
    rows: &mut Vec<Row>,
    nodes: &Arena<Node>,
    edges: &[Edge],
    from: Handle,
) -> Result<(), AllocError>
    requires lists { Lists nodes.now edges.now }
    requires window { (n : ℕ) (e : Joint) → slice_get edges.now n ≡ Some e
        → e.from.generation ≡ nodes.now.generation }
    requires rows { RowsCover rows.old.items edges.now }
    ensures { RowsCover rows.new.items edges.now }
{
    let at = from.index as usize;
    if at < rows.len() && !rows[at].words.is_empty() {
        return Ok(());
    }
    let Some(node) = nodes.get(from) else {
        return Ok(());
    };
    if node.out.len() < WIDE {
        return Ok(());
    }
    let row = row_of(*rows.allocator(), node.out.as_slice(), edges)?;
    put_row(rows, at, row)
}

/// Gives the nodes that these edges come from a row, if they have many edges; nothing is done where none of them is known
/// to have come to a length at which a row is looked for. Where memory is refused they have none.
pub(crate) fn open_rows(
    rows: &mut Vec<Row>,
    nodes: &Arena<Node>,
    edges: &[Edge],
    offered: &[Edge],
    wide: bool,
)
    requires lists { Lists nodes.now edges.now }
    requires window { (n : ℕ) (e : Joint) → slice_get edges.now n ≡ Some e
        → e.from.generation ≡ nodes.now.generation }
    requires rows { RowsCover rows.old.items edges.now }
    ensures { RowsCover rows.new.items edges.now }
{
    if !wide {
        return;
    }
    for edge in offered {
        if open_row(rows, nodes, edges, edge.from).is_err() {
            return;
        }
    }
}

/// Whether the node has a row, and each bit of it is set here too.
pub(crate) fn is_met(rows: &[Row], from: Handle, met: &[u64]) -> bool
    ensures { IsTrue result → IsAmong rows.now from.index met.now }
{
    match rows.get(from.index as usize) {
        Some(row) => row.words.len() == WORDS && are_among(row.words.as_slice(), met),
        None => false,
    }
}

/// The bits of this word of the node's row that aren't set here. A node without a row has none.
pub(crate) fn unmet(rows: &[Row], from: Handle, word: usize, met: &[u64]) -> u64 {
    match rows.get(from.index as usize) {
        Some(row) if word < row.words.len() && word < met.len() => row.words[word] & !met[word],
        _ => 0,
    }
}
