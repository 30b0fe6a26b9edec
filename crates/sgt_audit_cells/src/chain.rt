//! What a transaction did, each linked to the one before it.

ghost use Rattle.std.specs.Prelude.{◌≡◌, ◌<◌, ◌≤◌, ◌-◌, ◌+◌, ◌∷◌, ◌++◌, ◌↔◌, [], ℕ, Some, length, slice_get, option_map, IsTrue, IfOk, OnOk, OnErr, Any};
ghost use Rattle.std.specs.Option.{option_to_list};
ghost use Rattle.sgt_audit_cells.specs.private.Deeds.{IsOf, ClashesWith, act_of};
ghost use Rattle.sgt_audit_cells.specs.private.Linked.{AreLinked, chain};

use crate::act::{Act, Deed, Done};
use crate::record::Node;
use sgt_names::Kind;
use std::alloc::AllocError;

/// The node at this place, counted from 1.
#[inline(always)]
fn node_at(nodes: &[Node], at: usize) -> Node
    requires some { 0 < at }
    requires within { at ≤ length nodes.now }
    ensures { slice_get nodes.now (at - 1) ≡ Some result }
{
    nodes[at - 1]
}

/// Whether the item at this place was changed, or read, at the node counted so or at one that is linked in front of it.
#[inline(always)]
pub(crate) fn has_done(nodes: &[Node], last: usize, place: usize, change: bool) -> bool
    requires linked { AreLinked nodes.now }
    requires within { last ≤ length nodes.now }
    ensures { IsTrue result ↔ Any (IsOf place change) (chain nodes.now last) }
{
    let mut at = last;
    'nodes: while at > 0 {
        let node = node_at(nodes, at);
        if node.done.is_of(place, change) {
            return true;
        }
        at = node.before as usize;
    }
    false
}

/// Whether the act is on the item at this place, and one of these comes later and is a conflict of this kind with it.
fn clashes(nodes: &[Node], last: usize, kind: Kind, place: usize, act: &Act) -> bool
    requires linked { AreLinked nodes.now }
    requires within { last ≤ length nodes.now }
    ensures { IsTrue result ↔ ((act.now.place ≡ place) × Any (ClashesWith kind act.now) (chain nodes.now last)) }
{
    if act.place as usize != place {
        return false;
    }
    let mut at = last;
    'nodes: while at > 0 {
        let node = node_at(nodes, at);
        if act.clashes_with(kind, &node.done.act(at - 1)) {
            return true;
        }
        at = node.before as usize;
    }
    false
}

/// Whether one of the first, on the item at this place, precedes one of the second and conflicts with it.
pub(crate) fn have_clash(
    nodes: &[Node],
    first: usize,
    second: usize,
    kind: Kind,
    place: usize,
) -> bool
    requires linked { AreLinked nodes.now }
    requires first { first ≤ length nodes.now }
    requires second { second ≤ length nodes.now }
    ensures { IsTrue result ↔ Any (λ a. (a.place ≡ place) × Any (ClashesWith kind a) (chain nodes.now second))
        (chain nodes.now first) }
{
    let mut at = first;
    'nodes: while at > 0 {
        let node = node_at(nodes, at);
        let act = node.done.act(at - 1);
        if clashes(nodes, second, kind, place, &act) {
            return true;
        }
        at = node.before as usize;
    }
    false
}

/// Adds the node at the end. Err: there is no room reserved for it.
#[inline(always)]
fn add(nodes: &mut Vec<Node>, node: Node) -> Result<(), AllocError>
    ensures ok { OnOk result (nodes.new.items ≡ nodes.old.items ++ node ∷ []) }
    ensures err { OnErr result (nodes.new.items ≡ nodes.old.items) }
{
    if nodes.len() < nodes.capacity() {
        nodes.push_reserved(node);
        return Ok(());
    }
    Err(AllocError)
}

/// Where a node behind so many stands, counted from 1.
#[inline(always)]
fn next_place(len: usize) -> Result<u32, AllocError>
    ensures { IfOk result (λ place. place ≡ len + 1) }
{
    if len < u32::MAX as usize {
        Ok(len as u32 + 1)
    } else {
        Err(AllocError)
    }
}

/// Links what one more entry did, if it did something, behind what stands at this place; and where it stands then.
/// Room has to be reserved.
#[inline(always)]
pub(crate) fn link(nodes: &mut Vec<Node>, last: u32, done: Option<Done>) -> Result<u32, AllocError>
    requires linked { AreLinked nodes.old.items }
    requires within { last ≤ length nodes.old.items }
    ensures linked { AreLinked nodes.new.items }
    ensures long { length nodes.old.items ≤ length nodes.new.items }
    ensures others { (k : ℕ) → k ≤ length nodes.old.items → chain nodes.new.items k ≡ chain nodes.old.items k }
    ensures place { IfOk result (λ next. (next ≤ length nodes.new.items)
        × (length nodes.new.items ≡ length nodes.old.items + 1)
        × (chain nodes.new.items next
        ≡ chain nodes.old.items last ++ option_to_list (option_map (act_of (length nodes.old.items)) done))) }
{
    match done {
        Some(done) => {
            let place = next_place(nodes.len())?;
            add(nodes, Node { done, before: last })?;
            Ok(place)
        }
        None => {
            let done = Done {
                place: 0,
                deed: Deed::Read,
            };
            add(nodes, Node { done, before: 0 })?;
            Ok(last)
        }
    }
}
