//! The graph: that its calls succeed, on orders that were worked out by hand or by the plain rule.

use crate::common::{Names, handle, random};
use crate::plain::Plain;
use sgt_arena::Handle;
use sgt_edges::{Edge, EdgeList};
use sgt_names::{Kind, Tx};
use sgt_order::{Admit, GenerationsSpent, Graph, NodeFault, order_stays_topological};
use std::alloc::{AllocError, Global};
use std::test::Fail;

// Edges between these nodes, all with one label.
fn edges(alloc: Global, names: &Names, ends: &[(Handle, Handle)]) -> Result<EdgeList, AllocError> {
    let mut edges = Vec::new(alloc);
    for (from, to) in ends {
        edges.push(names.edge(*from, *to, Kind::Ww))?;
    }
    Ok(EdgeList::from_vec(edges))
}

// What is said of a node with these edges.
#[derive(Clone, Copy, PartialEq)]
enum Said {
    Admitted,
    Cycle,
    Stale,
    Memory,
    NotAllowed,
}

// A node that is offered with these edges, what is said of it, the order behind that, and the transactions that the
// edges of a cycle lead to.
type Row<'a> = (Handle, &'a [(Handle, Handle)], Said, &'a [u32], &'a [u32]);

// What is said of the node, and whether the edges of a cycle lead to these transactions.
fn admit(graph: &mut Graph, node: Handle, offered: &EdgeList, walk: &[u32]) -> (Said, bool) {
    if graph.reserve_for(offered).is_err() || !graph.may_admit(node, offered) {
        return (Said::NotAllowed, true);
    }
    match graph.admit(node, offered) {
        Ok(()) => (Said::Admitted, true),
        Err(Admit::Cycle(steps)) => (Said::Cycle, leads_to(graph, steps.as_slice(), walk)),
        Err(Admit::Stale) => (Said::Stale, true),
        Err(Admit::Memory) => (Said::Memory, true),
    }
}

fn leads_to(graph: &Graph, steps: &[Edge], walk: &[u32]) -> bool {
    steps.len() == walk.len()
        && steps
            .iter()
            .zip(walk)
            .all(|(step, tx)| number(graph, step.to) == *tx)
}

// The number of a node's transaction.
fn number(graph: &Graph, node: Handle) -> u32 {
    graph.transaction(node).map_or(0, |tx| tx.number())
}

// Whether the order has these transactions.
fn is_order(graph: &Graph, wanted: &[u32]) -> bool {
    graph.order().len() == wanted.len()
        && graph
            .order()
            .iter()
            .zip(wanted)
            .all(|(node, tx)| number(graph, *node) == *tx)
}

// Whether it is as the row tells.
fn answers(alloc: Global, graph: &mut Graph, names: &Names, row: Row<'_>) -> bool {
    let (node, ends, said, order, walk) = row;
    match edges(alloc, names, ends) {
        Ok(offered) => {
            admit(graph, node, &offered, walk) == (said, true) && is_order(graph, order)
        }
        Err(_) => false,
    }
}

// Whether nodes can be added for the transactions with these numbers.
fn adds(graph: &mut Graph, from: u64, end: u64) -> bool {
    for number in from..end {
        let Ok(tx) = Tx::new(number) else {
            return false;
        };
        if graph.node(tx).is_err() {
            return false;
        }
    }
    true
}

// The first six nodes of the first window.
const FIRST: Handle = Handle {
    index: 0,
    generation: 0,
};

const SECOND: Handle = Handle {
    index: 1,
    generation: 0,
};

const THIRD: Handle = Handle {
    index: 2,
    generation: 0,
};

const FOURTH: Handle = Handle {
    index: 3,
    generation: 0,
};

const FIFTH: Handle = Handle {
    index: 4,
    generation: 0,
};

const SIXTH: Handle = Handle {
    index: 5,
    generation: 0,
};

const SIX: [Row<'static>; 7] = [
    (FIRST, &[], Said::Admitted, &[1], &[]),
    (SECOND, &[], Said::Admitted, &[1, 2], &[]),
    (THIRD, &[], Said::Admitted, &[1, 2, 3], &[]),
    (
        FOURTH,
        &[(FOURTH, SECOND)],
        Said::Admitted,
        &[1, 3, 4, 2],
        &[],
    ),
    (
        FIFTH,
        &[(SECOND, FIFTH)],
        Said::Admitted,
        &[1, 3, 4, 2, 5],
        &[],
    ),
    (
        SIXTH,
        &[(SECOND, SIXTH), (SIXTH, FOURTH)],
        Said::Cycle,
        &[1, 3, 4, 2, 5],
        &[4, 2, 6],
    ),
    (
        SIXTH,
        &[(FIFTH, SIXTH), (SIXTH, THIRD)],
        Said::Admitted,
        &[1, 4, 2, 5, 6, 3],
        &[],
    ),
];

#[test]
fn lists_of_edges_are_appended(rt: HostRuntime) -> Result<(), Fail> {
    let names = Names::at(0)?;
    let ends = [(FIRST, SECOND), (SECOND, THIRD), (THIRD, FIRST)];
    let mut front = edges(rt.alloc(), &names, &ends[..1])?;
    let back = edges(rt.alloc(), &names, &ends[1..])?;
    front.append(&back)?;
    let whole = edges(rt.alloc(), &names, &ends)?;
    assert!(rt; front.as_slice() == whole.as_slice());
    Ok(())
}

#[test]
fn order_of_six(rt: HostRuntime) -> Result<(), Fail> {
    let names = Names::at(0)?;
    let mut graph = Graph::new(rt.alloc());
    assert!(rt; adds(&mut graph, 1, 7));
    for row in SIX {
        assert!(rt;
            answers(rt.alloc(), &mut graph, &names, row),
            "{}",
            row.0.index
        );
    }
    assert!(rt;
        graph.before(FOURTH, SECOND) && !graph.before(SECOND, FOURTH) && graph.is_admitted(SIXTH)
    );
    order_stays_topological();
    Ok(())
}

#[test]
fn windows(rt: HostRuntime) -> Result<(), Fail> {
    let alloc = rt.alloc();
    let names = Names::at(0)?;
    let mut graph = Graph::new_at(alloc, 4_294_967_294);
    let (old, new) = (handle(0, 4_294_967_294), handle(0, 4_294_967_295));
    assert!(rt; adds(&mut graph, 1, 2));
    assert!(rt;
        answers(
            alloc,
            &mut graph,
            &names,
            (old, &[], Said::Admitted, &[1], &[])
        )
    );
    assert!(rt; graph.close().is_ok() && graph.is_empty());
    assert!(rt; adds(&mut graph, 2, 3));
    let rows: [Row<'_>; 3] = [
        (new, &[(new, old)], Said::Stale, &[], &[]),
        (new, &[(old, new)], Said::Admitted, &[2], &[]),
        (new, &[], Said::NotAllowed, &[2], &[]),
    ];
    for row in rows {
        assert!(rt; answers(alloc, &mut graph, &names, row));
    }
    assert!(rt; !graph.is_admitted(old) && graph.close() == Err(GenerationsSpent));
    assert!(rt; graph.generation() == 4_294_967_295);
    Ok(())
}

// Of so many nodes each but the first leads to the one that was admitted before it: whether all are admitted.
fn chains(alloc: Global, graph: &mut Graph, names: &Names, many: u32) -> bool {
    for index in 0..many {
        let node = handle(index, 0);
        let to_the_last = [(node, handle(index.wrapping_sub(1), 0))];
        let ends: &[(Handle, Handle)] = if index == 0 { &[] } else { &to_the_last };
        let Ok(offered) = edges(alloc, names, ends) else {
            return false;
        };
        if admit(graph, node, &offered, &[]).0 != Said::Admitted {
            return false;
        }
    }
    true
}

// A chain of 999 nodes, which one more would close to a circle, and a full window.
#[test]
fn chain_of_999(rt: HostRuntime) -> Result<(), Fail> {
    let alloc = rt.alloc();
    let names = Names::at(0)?;
    let mut graph = Graph::new(alloc);
    assert!(rt; adds(&mut graph, 1, 1001) && chains(alloc, &mut graph, &names, 999));
    let mut falling = [1000u32; 1000];
    for at in 0..999 {
        falling[at] = 999 - at as u32;
    }
    let (first, last, node) = (handle(998, 0), handle(0, 0), handle(999, 0));
    let order = &falling[..999];
    let ends = [(node, first), (last, node)];
    assert!(rt; is_order(&graph, order));
    assert!(rt;
        answers(
            alloc,
            &mut graph,
            &names,
            (node, &ends, Said::Cycle, order, &falling)
        )
    );
    assert!(rt; adds(&mut graph, 1001, 4097) && graph.len() == 4096);
    assert!(rt; graph.node(names.one) == Err(NodeFault::Full));
    Ok(())
}

// A graph beside the plain rule.
#[derive(Drop)]
struct Window {
    names: Names,
    graph: Graph,
    plain: Plain,
    state: u64,
}

impl Window {
    // Eight edges between the new node and others of the order: into it from those before a place, out of it to those
    // from there on, and one in sixteen nodes has its edges the other way.
    fn eight(&mut self, node: Handle) -> [(Handle, Handle); 8] {
        let order = self.graph.order();
        let middle = random(&mut self.state) % (order.len() as u64).max(1);
        let turned = random(&mut self.state) % 16 == 0;
        let mut ends = [(node, node); 8];
        for end in ends.iter_mut() {
            let at = random(&mut self.state) % (order.len() as u64).max(1);
            let other = order.get(at as usize).copied().unwrap_or(node);
            *end = if (at < middle) != turned {
                (other, node)
            } else {
                (node, other)
            };
        }
        ends
    }

    // The node of this transaction with random edges: whether it is admitted, where both do the same.
    fn admit_next(&mut self, alloc: Global, tx: u32) -> Option<bool> {
        let node = handle(tx.wrapping_sub(1), 0);
        let eight = self.eight(node);
        let ends: &[(Handle, Handle)] = if self.graph.order().is_empty() {
            &[]
        } else {
            &eight
        };
        let Ok(admitted) = self.plain.admit(tx, node, ends) else {
            return None;
        };
        let Ok(offered) = edges(alloc, &self.names, ends) else {
            return None;
        };
        let (said, _) = admit(&mut self.graph, node, &offered, &[]);
        if (said == Said::Admitted) == admitted && is_order(&self.graph, self.plain.order()) {
            Some(admitted)
        } else {
            None
        }
    }
}

#[test]
fn random_window(rt: HostRuntime) -> Result<(), Fail> {
    let alloc = rt.alloc();
    let mut window = Window {
        names: Names::at(0)?,
        graph: Graph::new(alloc),
        plain: Plain::new(alloc),
        state: 1,
    };
    let mut refused = 0u32;
    assert!(rt; adds(&mut window.graph, 1, 513));
    for tx in 1..513 {
        let admitted = window.admit_next(alloc, tx);
        assert!(rt; admitted.is_some(), "{tx}");
        refused = refused.wrapping_add((admitted == Some(false)) as u32);
    }
    assert!(rt; 20 < refused && refused < 250, "{refused}");
    Ok(())
}
