//! That memory is given back: the blocks of windows that are closed, and of graphs that are dropped.

use sgt_certifier::Certifier;
use sgt_names::Tx;
use sgt_order::Graph;
use std::alloc::Global;
use std::fs;
use std::test::Fail;

// In each of so many windows a transaction begins and is withdrawn: whether all went well.
fn windows(certifier: &mut Certifier, many: u32) -> bool {
    for _ in 0..many {
        let Ok((_, handle)) = certifier.begin() else {
            return false;
        };
        if certifier.withdraw(handle).is_err() || certifier.close().is_err() {
            return false;
        }
    }
    true
}

// So many graphs get a node each, and are dropped: whether all went well.
fn graphs(alloc: Global, tx: Tx, many: u32) -> bool {
    for _ in 0..many {
        let mut graph = Graph::new(alloc);
        if graph.node(tx).is_err() {
            return false;
        }
    }
    true
}

// How many pages of memory this process holds, as Linux tells it.
fn pages(rt: &HostRuntime) -> Result<u64, Fail> {
    let told = fs::read_to_string(rt, "/proc/self/statm")?;
    let resident = told.as_str().split(' ').nth(1).unwrap_or_default();
    Ok(resident.parse().unwrap_or(0))
}

// Whether fewer pages came than the blocks of 100,000 windows or graphs would take, which are 150,000 or more. The
// limit leaves room for an allocator that holds freed memory back for a while, to see wrong uses of it.
fn are_few(before: u64, after: u64) -> bool {
    before > 0 && after.saturating_sub(before) < 110_000
}

#[test]
fn closed_windows_are_freed(rt: HostRuntime) -> Result<(), Fail> {
    let before = pages(&rt)?;
    let mut certifier = Certifier::new(rt.alloc());
    let closed = windows(&mut certifier, 100_000);
    let after = pages(&rt)?;
    assert!(rt; closed && are_few(before, after), "{before} {after}");
    Ok(())
}

#[test]
fn dropped_graphs_are_freed(rt: HostRuntime) -> Result<(), Fail> {
    let before = pages(&rt)?;
    let dropped = graphs(rt.alloc(), Tx::new(1)?, 100_000);
    let after = pages(&rt)?;
    assert!(rt; dropped && are_few(before, after), "{before} {after}");
    Ok(())
}
