//! The worked case of two windows, word for word, and what no contract of the certifier says: that calls succeed.

use crate::common::{Names, handle};
use sgt_arena::Handle;
use sgt_bundle::Decision;
use sgt_certifier::{Certifier, CertifierFault, Decided, HandedEdges, Incident};
use sgt_edges::{Edge, EdgeList};
use sgt_names::{Kind, Tx};
use std::alloc::{AllocError, Global};
use std::test::Fail;

// An edge on x.
type Joint = (Handle, Handle, Kind);

// What is asked of a certifier.
#[derive(Clone, Copy)]
enum Asked {
    Begin,
    Decide(Handle, &'static [Joint]),
    Finish(u64),
    Withdraw(Handle),
    Close,
}

// What it answers: the number of a transaction with its handle, the number of a decision with the length of a
// refusal's walk, a number alone, or the number of a fault with what it tells.
#[derive(Clone, Copy, PartialEq)]
enum Answer {
    Begun(u32, Handle),
    Decided(u32, usize),
    Told(u64),
    Fault(u8, u64),
}

type Row = (Asked, Answer);

fn fault_of(fault: CertifierFault) -> Answer {
    match fault {
        CertifierFault::WindowFull => Answer::Fault(1, 0),
        CertifierFault::Unknown => Answer::Fault(2, 0),
        CertifierFault::StepOpen(tx) => Answer::Fault(3, u64::from(tx.number())),
        CertifierFault::ActiveLeft(count) => Answer::Fault(4, count),
        CertifierFault::Memory => Answer::Fault(5, 0),
        CertifierFault::Stale => Answer::Fault(6, 0),
        CertifierFault::GenerationsSpent => Answer::Fault(7, 0),
        CertifierFault::NumbersSpent => Answer::Fault(8, 0),
    }
}

fn begin(certifier: &mut Certifier) -> Result<Answer, CertifierFault> {
    let (tx, handle) = certifier.begin()?;
    Ok(Answer::Begun(tx.number(), handle))
}

fn edges_of(alloc: Global, names: &Names, joints: &[Joint]) -> Result<EdgeList, AllocError> {
    let mut edges = Vec::new(alloc);
    for (from, to, kind) in joints {
        edges.push(names.edge(*from, *to, *kind))?;
    }
    Ok(EdgeList::from_vec(edges))
}

fn decide(
    certifier: &mut Certifier,
    handle: Handle,
    edges: EdgeList,
) -> Result<Answer, CertifierFault> {
    match certifier.decide(handle, edges)? {
        Decided::Committed { number } => Ok(Answer::Decided(number, 0)),
        Decided::Refused { number, walk } => Ok(Answer::Decided(number, walk.into_vec().len())),
    }
}

fn finish(certifier: &mut Certifier, number: u64) -> Result<Answer, CertifierFault> {
    match Tx::new(number) {
        Ok(tx) => certifier.finish_step(tx).map(|_| Answer::Told(0)),
        Err(_) => Err(CertifierFault::Unknown),
    }
}

fn ask(
    alloc: Global,
    certifier: &mut Certifier,
    names: &Names,
    asked: &Asked,
) -> Result<Answer, CertifierFault> {
    match asked {
        Asked::Begin => begin(certifier),
        Asked::Decide(handle, joints) => {
            decide(certifier, *handle, edges_of(alloc, names, *joints)?)
        }
        Asked::Finish(number) => finish(certifier, *number),
        Asked::Withdraw(handle) => certifier.withdraw(*handle).map(Answer::Told),
        Asked::Close => certifier.close().map(Answer::Told),
    }
}

// Whether the certifier answers as the rows tell, and has then served so many calls.
fn answers(
    alloc: Global,
    certifier: &mut Certifier,
    names: &Names,
    rows: &[Row],
    served: usize,
) -> bool {
    for row in rows {
        let told = match ask(alloc, certifier, names, &row.0) {
            Ok(answer) => answer,
            Err(fault) => fault_of(fault),
        };
        if told != row.1 {
            return false;
        }
    }
    certifier.history().len() == served
}

// Whether the decisions are commits of these transactions with these ranks.
fn are_commits(decisions: &[Decision], told: &[(u32, u32)]) -> bool {
    let is_commit = |(decision, told): (&Decision, &(u32, u32))| match decision {
        Decision::Commit { tx, rank } => (tx.number(), *rank) == *told,
        _ => false,
    };
    decisions.len() == told.len() && decisions.iter().zip(told).all(is_commit)
}

const H0: Handle = Handle {
    index: 0,
    generation: 0,
};

const H1: Handle = Handle {
    index: 1,
    generation: 0,
};

const H2: Handle = Handle {
    index: 2,
    generation: 0,
};

// The first of the next window, and of the one behind it.
const NEXT: Handle = Handle {
    index: 0,
    generation: 1,
};

const LATER: Handle = Handle {
    index: 0,
    generation: 2,
};

const NINTH: Handle = Handle {
    index: 9,
    generation: 2,
};

const TWO_WINDOWS: [Row; 15] = [
    (Asked::Begin, Answer::Begun(1, H0)),
    (Asked::Begin, Answer::Begun(2, H1)),
    (
        Asked::Decide(H1, &[(H0, H1, Kind::Wr)]),
        Answer::Fault(2, 0),
    ),
    (Asked::Decide(H1, &[]), Answer::Decided(0, 0)),
    (Asked::Begin, Answer::Fault(3, 2)),
    (Asked::Finish(2), Answer::Told(0)),
    (Asked::Close, Answer::Fault(4, 1)),
    (
        Asked::Decide(H0, &[(H0, H1, Kind::Rw)]),
        Answer::Decided(1, 0),
    ),
    (Asked::Finish(1), Answer::Told(0)),
    (Asked::Close, Answer::Told(2)),
    (Asked::Begin, Answer::Begun(3, NEXT)),
    (Asked::Decide(H0, &[]), Answer::Fault(2, 0)),
    (
        Asked::Decide(NEXT, &[(NEXT, H1, Kind::Rw)]),
        Answer::Fault(6, 0),
    ),
    (
        Asked::Decide(NEXT, &[(H1, NEXT, Kind::Ww)]),
        Answer::Decided(2, 0),
    ),
    (Asked::Finish(3), Answer::Told(0)),
];

#[test]
fn two_windows(rt: HostRuntime) -> Result<(), Fail> {
    let (alloc, names) = (rt.alloc(), Names::at(0)?);
    let three = Tx::new(3)?;
    let mut certifier = Certifier::new(alloc);
    assert!(rt; answers(alloc, &mut certifier, &names, &TWO_WINDOWS, 10));
    assert!(rt; certifier.active() == 0 && certifier.decided() == 3);
    assert!(rt; certifier.is_under(three, NEXT) && !certifier.is_under(names.two, NEXT));
    let certificate = certifier.certificate(alloc, 1)?;
    assert!(rt; are_commits(certificate.decisions.as_slice(), &[(2, 1), (1, 0), (3, 2)]));
    Ok(())
}

// A cycle is refused. Handles of two windows before: nobody is decided under one, no edge leads to one, an edge from
// one is left out, also if it is told twice. A handle that was never given, an edge to oneself, and one between two
// others are refused.
const REFUSALS: [Row; 18] = [
    (Asked::Begin, Answer::Begun(1, H0)),
    (Asked::Begin, Answer::Begun(2, H1)),
    (Asked::Begin, Answer::Begun(3, H2)),
    (Asked::Decide(H0, &[]), Answer::Decided(0, 0)),
    (Asked::Finish(1), Answer::Told(0)),
    (
        Asked::Decide(H1, &[(H0, H1, Kind::Rw), (H1, H0, Kind::Rw)]),
        Answer::Decided(1, 2),
    ),
    (Asked::Finish(2), Answer::Told(0)),
    (Asked::Withdraw(H2), Answer::Told(2)),
    (Asked::Close, Answer::Told(1)),
    (Asked::Close, Answer::Told(1)),
    (Asked::Begin, Answer::Begun(4, LATER)),
    (Asked::Decide(H0, &[]), Answer::Fault(2, 0)),
    (Asked::Withdraw(H0), Answer::Fault(2, 0)),
    (Asked::Withdraw(NINTH), Answer::Fault(2, 0)),
    (
        Asked::Decide(LATER, &[(LATER, LATER, Kind::Rw)]),
        Answer::Fault(2, 0),
    ),
    (
        Asked::Decide(LATER, &[(H0, H1, Kind::Rw)]),
        Answer::Fault(2, 0),
    ),
    (
        Asked::Decide(LATER, &[(LATER, H0, Kind::Rw)]),
        Answer::Fault(6, 0),
    ),
    (
        Asked::Decide(LATER, &[(H0, LATER, Kind::Rw), (H0, LATER, Kind::Rw)]),
        Answer::Decided(3, 0),
    ),
];

#[test]
fn refusals(rt: HostRuntime) -> Result<(), Fail> {
    let names = Names::at(0)?;
    let mut certifier = Certifier::new(rt.alloc());
    assert!(rt; answers(rt.alloc(), &mut certifier, &names, &REFUSALS, 12));
    Ok(())
}

// The window holds 4,096 transactions.
#[test]
fn window_full(rt: HostRuntime) {
    let mut certifier = Certifier::new(rt.alloc());
    let mut begun = 0u32;
    for _ in 0..4096 {
        begun = begun.wrapping_add(certifier.begin().is_ok() as u32);
    }
    assert!(rt; begun == 4096);
    assert!(rt; begin(&mut certifier) == Err(CertifierFault::WindowFull));
}

// Whether an edge that leads out of the node, kept by its other end, is that edge again, and the vector is given back.
fn is_handed(alloc: Global, node: Handle, edge: &Edge) -> Result<bool, AllocError> {
    let incident = Incident {
        other: edge.to,
        label: edge.label,
        leads_out: true,
    };
    let handed = HandedEdges::from_vec(alloc, node, vec![in alloc; incident]?)?;
    let is_edge = handed.count() == 1 && handed.at(0) == *edge;
    let (center, incidents) = handed.into_vec();
    Ok(is_edge && center == node && incidents.len() == 1)
}

#[test]
fn an_edge_by_its_other_end(rt: HostRuntime) -> Result<(), Fail> {
    let (names, node) = (Names::at(0)?, handle(1, 0));
    let edge = names.edge(node, handle(0, 0), Kind::Rw);
    assert!(rt; is_handed(rt.alloc(), node, &edge) == Ok(true));
    Ok(())
}
