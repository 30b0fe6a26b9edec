//! What stands behind the fault of a small history.

use sgt_history::{Flaw, History, Kind, Operation};
use sgt_history_evidence::{Evidence, evidence_of, operation_at, transaction_of};
use sgt_history_faults::{Fault, Judged, judge};
use std::alloc::{AllocError, Global};
use std::test::Fail;

const WRITTEN: Operation<u32, u32> = Operation {
    version: 3,
    item: 0,
    kind: Kind::Write,
    value: None,
};

const READ: Operation<u32, u32> = Operation {
    version: 3,
    item: 0,
    kind: Kind::Read,
    value: None,
};

/// A read of what an aborted transaction wrote.
fn aborted_read(alloc: Global) -> Result<History, AllocError> {
    let mut history = History::new(alloc);
    history.push(WRITTEN)?;
    history.close(false)?;
    history.push(READ)?;
    history.close(true)?;
    Ok(history)
}

#[test]
fn gives_the_operations_of_a_line(rt: HostRuntime) -> Result<(), Fail> {
    let history = aborted_read(rt.alloc())?;
    if history.lines.len() < 2 {
        return Ok(());
    }
    let (commits, operations) = transaction_of(&history, 1);
    assert!(rt; commits);
    assert_eq!(rt; operations, [READ].as_slice());
    Ok(())
}

#[test]
fn tells_who_wrote_what_was_aborted(rt: HostRuntime) -> Result<(), Fail> {
    let history = aborted_read(rt.alloc())?;
    let told = Fault {
        line: 1,
        flaw: Flaw::AbortedRead,
        place: 0,
    };
    match judge(rt.alloc(), &history)? {
        Judged::Faulty(fault) => {
            let Fault { line, flaw, place } = fault;
            assert_eq!(rt; fault, told);
            assert_eq!(rt; operation_at(&history, line, place), READ);
            assert_eq!(rt;
                evidence_of(&history, line, flaw, place),
                Evidence::Writer(0)
            );
        }
        Judged::Faultless(_) => assert!(rt; false),
    }
    Ok(())
}
