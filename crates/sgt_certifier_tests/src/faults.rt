//! What the faults say.

use sgt_arena::ArenaFault;
use sgt_certifier::CertifierFault;
use sgt_edges::{EdgeFault, EdgeList};
use sgt_names::Tx;
use sgt_order::{Admit, GenerationsSpent, NodeFault};
use sgt_site::SiteFault;
use std::alloc::{AllocError, Global};
use std::test::Fail;

fn site_says(alloc: Global, fault: SiteFault, text: &str) -> Result<bool, AllocError> {
    Ok(format!(in alloc; "{fault}")?.as_str() == text)
}

fn certifier_says(alloc: Global, fault: CertifierFault, text: &str) -> Result<bool, AllocError> {
    Ok(format!(in alloc; "{fault}")?.as_str() == text)
}

const OF_SITES: [(SiteFault, &str); 8] = [
    (SiteFault::UnknownItem, "S1: no such item at this site"),
    (
        SiteFault::ReadTwice,
        "S2: the transaction has read the item already",
    ),
    (
        SiteFault::Ended,
        "S3: the transaction has ended at this site",
    ),
    (SiteFault::Memory, "S4: out of memory"),
    (SiteFault::NotPledged, "S5: no such pledge stands"),
    (
        SiteFault::BadItems,
        "S6: the names of the items do not rise, or there are more than 1,024",
    ),
    (SiteFault::PledgeOpen, "S7: a pledge stands"),
    (
        SiteFault::DraftDiffers,
        "S8: the draft's reads are not those of the log",
    ),
];

#[test]
fn faults_of_sites(rt: HostRuntime) -> Result<(), Fail> {
    for (fault, text) in OF_SITES {
        assert!(rt; site_says(rt.alloc(), fault, text)?, "{text}");
    }
    Ok(())
}

const OF_CERTIFIERS: [(CertifierFault, &str); 7] = [
    (CertifierFault::WindowFull, "C1: the window is full"),
    (
        CertifierFault::Unknown,
        "C2: no such transaction is active, or an edge does not join it and a committed one",
    ),
    (CertifierFault::ActiveLeft(3), "C4: transactions are active"),
    (CertifierFault::Memory, "C5: out of memory"),
    (
        CertifierFault::Stale,
        "C6: an edge leads to a transaction of a closed window",
    ),
    (
        CertifierFault::GenerationsSpent,
        "C7: the generations are spent",
    ),
    (
        CertifierFault::NumbersSpent,
        "C8: the numbers of transactions are spent",
    ),
];

#[test]
fn faults_of_certifiers(rt: HostRuntime) -> Result<(), Fail> {
    let open = CertifierFault::StepOpen(Tx::new(2)?);
    assert!(rt; certifier_says(rt.alloc(), open, "C3: the step of a transaction is open")?);
    for (fault, text) in OF_CERTIFIERS {
        assert!(rt; certifier_says(rt.alloc(), fault, text)?, "{text}");
    }
    Ok(())
}

/// What the faults of arenas and edges say.
fn of_arenas_and_edges(alloc: Global) -> Result<String, AllocError> {
    let (full, memory) = (ArenaFault::Full, ArenaFault::Memory);
    let (spent, edges) = (ArenaFault::GenerationsSpent, EdgeFault::Memory);
    let new = EdgeFault::SeenTooNew;
    format!(in alloc; "{full}|{memory}|{spent}|{edges}|{new}")
}

/// What the faults of orders say.
fn of_orders(alloc: Global, cycle: &Admit) -> Result<String, AllocError> {
    let (memory, stale, full) = (Admit::Memory, Admit::Stale, NodeFault::Full);
    let (of_node, spent) = (NodeFault::Memory, GenerationsSpent);
    format!(in alloc; "{cycle}|{memory}|{stale}|{of_node}|{full}|{spent}")
}

#[test]
fn other_faults(rt: HostRuntime) -> Result<(), Fail> {
    let told = of_arenas_and_edges(rt.alloc())?;
    assert!(rt;
        told.as_str()
            == "G1: the window is full|G2: out of memory|G3: the generations are spent|X1: out of memory|X2: the draft saw a version that the site has not reached"
    );
    let cycle = Admit::Cycle(EdgeList::new(rt.alloc()));
    let told = of_orders(rt.alloc(), &cycle)?;
    assert!(rt;
        told.as_str()
            == "O1: the edges make a cycle|O2: out of memory|O3: an edge leads to an older window|O2: out of memory|O4: the window is full|O5: the generations are spent"
    );
    Ok(())
}
