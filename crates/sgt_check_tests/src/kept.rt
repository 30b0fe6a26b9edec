//! What small histories are decided to be.

ghost use Rattle.std.specs.Prelude.{All, IfOk};
ghost use Rattle.sgt_graph.specs.Graph.{JoinsNodes};

use sgt_graph::Edge;
use sgt_history_kept::{Asked, Kept, Reason, decide_kept, first_unkept, goes_forward, is_round};
use sgt_history_time::Times;
use std::alloc::{AllocError, Global};
use std::test::Fail;

/// These edges, but those that join no lines.
fn edges_of(alloc: Global, lines: usize, pairs: &[(u32, u32)]) -> Result<Vec<Edge>, AllocError>
    ensures { IfOk result (λ edges. All (JoinsNodes lines) edges.items) }
{
    let mut edges = Vec::new(alloc);
    for pair in pairs {
        let (from, to) = *pair;
        if (from as usize) < lines && (to as usize) < lines {
            edges.push(Edge { from, to })?;
        }
    }
    Ok(edges)
}

/// Times of all lines, and sessions.
fn asked_of(
    alloc: Global,
    times: &[(u64, u64)],
    sessions: &[Option<u32>],
) -> Result<Asked, AllocError> {
    let mut ran = Vec::new(alloc);
    for time in times {
        let (begin, done) = *time;
        ran.push(Some(Times { begin, done }))?;
    }
    Ok(Asked {
        times: ran,
        sessions: Vec::from_slice(alloc, sessions)?,
    })
}

#[test]
fn the_least_line_first_in_time(rt: HostRuntime) -> Result<(), Fail> {
    let asked = asked_of(rt.alloc(), &[(8, 9), (6, 8), (5, 5)], &[])?;
    let edges = edges_of(rt.alloc(), 3, &[])?;
    match decide_kept(rt.alloc(), 3, edges.as_slice(), &asked)? {
        Kept::Serial(order) => assert_eq!(rt; order.as_slice(), [2, 0, 1].as_slice()),
        Kept::Cyclic(_) => assert!(rt; false),
    }
    Ok(())
}

#[test]
fn a_cycle_with_sessions_before_one_with_time(rt: HostRuntime) -> Result<(), Fail> {
    let asked = asked_of(
        rt.alloc(),
        &[(1, 2), (3, 4), (1, 2), (3, 4)],
        &[Some(0), Some(1), Some(2), Some(2)],
    )?;
    let edges = edges_of(rt.alloc(), 4, &[(1, 0), (3, 2)])?;
    match decide_kept(rt.alloc(), 4, edges.as_slice(), &asked)? {
        Kept::Serial(_) => assert!(rt; false),
        Kept::Cyclic(cycle) => {
            assert_eq!(rt; cycle.as_slice(), [2, 3].as_slice());
            assert!(rt; is_round(rt.alloc(), edges.as_slice(), &asked, cycle.as_slice())?);
        }
    }
    assert!(rt; !goes_forward(rt.alloc(), 4, edges.as_slice(), &asked, &[0, 1, 2, 3])?);
    Ok(())
}

#[test]
fn a_session_of_three(rt: HostRuntime) -> Result<(), Fail> {
    let asked = asked_of(rt.alloc(), &[], &[Some(0), Some(0), Some(0), Some(1)])?;
    let edges = edges_of(rt.alloc(), 4, &[(2, 0), (3, 0)])?;
    match decide_kept(rt.alloc(), 4, edges.as_slice(), &asked)? {
        Kept::Serial(_) => assert!(rt; false),
        Kept::Cyclic(cycle) => assert_eq!(rt; cycle.as_slice(), [0, 2].as_slice()),
    }
    Ok(())
}

#[test]
fn the_first_line_that_passes_one(rt: HostRuntime) -> Result<(), Fail> {
    let asked = asked_of(
        rt.alloc(),
        &[(1, 9), (3, 4), (5, 6), (5, 7)],
        &[Some(0), Some(1), Some(0), None],
    )?;
    assert!(rt; first_unkept(rt.alloc(), &[0, 1, 3, 2], &asked)?.is_none());
    match first_unkept(rt.alloc(), &[3, 2, 1, 0], &asked)? {
        Some(found) => {
            assert_eq!(rt; (found.place, found.line, found.other), (2, 1, 2));
            assert_eq!(rt; found.reason, Reason::Time { done: 4, begin: 5 });
        }
        None => assert!(rt; false),
    }
    match first_unkept(rt.alloc(), &[1, 2, 0, 3], &asked)? {
        Some(found) => {
            assert_eq!(rt; (found.place, found.line, found.other), (2, 0, 2));
            assert_eq!(rt; found.reason, Reason::Session(0));
        }
        None => assert!(rt; false),
    }
    Ok(())
}
