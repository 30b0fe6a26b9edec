//! The order and the cycle of small graphs.

ghost use Rattle.std.specs.Prelude.{All, IfOk};
ghost use Rattle.sgt_graph.specs.Graph.{JoinsNodes};

use sgt_graph::{Edge, Ordered, falling_ranks, order, shown_cycle};
use std::alloc::{AllocError, Global};
use std::test::Fail;

/// These edges, but those that join no nodes.
fn edges_of(alloc: Global, nodes: usize, pairs: &[(u32, u32)]) -> Result<Vec<Edge>, AllocError>
    ensures { IfOk result (λ edges. All (JoinsNodes nodes) edges.items) }
{
    let mut edges = Vec::new(alloc);
    for pair in pairs {
        let (from, to) = *pair;
        if (from as usize) < nodes && (to as usize) < nodes {
            edges.push(Edge { from, to })?;
        }
    }
    Ok(edges)
}

#[test]
fn orders_the_least_first(rt: HostRuntime) -> Result<(), Fail> {
    let edges = edges_of(rt.alloc(), 5, &[(3, 0), (3, 1), (1, 2), (3, 1)])?;
    match order(rt.alloc(), 5, edges.as_slice())? {
        Ordered::Order(nodes) => assert_eq!(rt; nodes.as_slice(), [3, 0, 1, 2, 4].as_slice()),
        Ordered::Cycle(_) => assert!(rt; false),
    }
    Ok(())
}

#[test]
fn shows_the_least_of_the_shortest_cycles(rt: HostRuntime) -> Result<(), Fail> {
    let pairs = [(0, 1), (1, 2), (2, 4), (4, 1), (3, 1), (2, 3), (4, 5)];
    let edges = edges_of(rt.alloc(), 6, &pairs)?;
    let cycle = shown_cycle(rt.alloc(), 6, edges.as_slice())?.ok_or("none")?;
    assert_eq!(rt; cycle.as_slice(), [1, 2, 3].as_slice());
    Ok(())
}

#[test]
fn ranks_of_components(rt: HostRuntime) -> Result<(), Fail> {
    let pairs = [(0, 1), (1, 2), (2, 4), (4, 1), (3, 1), (2, 3), (4, 5)];
    let edges = edges_of(rt.alloc(), 6, &pairs)?;
    let ranks = falling_ranks(rt.alloc(), 6, edges.as_slice())?.ok_or("none")?;
    assert_eq!(rt; ranks.as_slice(), [2, 1, 1, 1, 1, 0].as_slice());
    Ok(())
}
