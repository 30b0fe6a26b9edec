//! What small histories are decided to be.

use sgt_history::{Conflict, Flaw, History, Kind, Operation};
use sgt_history_faults::Fault;
use sgt_history_verdict::{Anomaly, Decided, Step, Verdict, anomaly_of, decide, steps_of};
use std::alloc::{AllocError, Global};
use std::test::Fail;

/// A read or write of a version of an item.
type Touching = (Kind, u32, u64);

/// Puts an operation behind the others, but a write of version 0.
fn push(history: &mut History, touching: Touching) -> Result<(), AllocError> {
    let (kind, item, version) = touching;
    if version == 0 && kind == Kind::Write {
        return Ok(());
    }
    history.push(Operation {
        version,
        item,
        kind,
        value: None,
    })
}

/// The history of these two transactions, both committed.
fn history_of(
    alloc: Global,
    first: &[Touching],
    second: &[Touching],
) -> Result<History, AllocError> {
    let mut history = History::new(alloc);
    for touching in first {
        push(&mut history, *touching)?;
    }
    history.close(true)?;
    for touching in second {
        push(&mut history, *touching)?;
    }
    history.close(true)?;
    Ok(history)
}

#[test]
fn orders_a_serializable_history(rt: HostRuntime) -> Result<(), Fail> {
    let first = [(Kind::Read, 0, 1)];
    let second = [(Kind::Read, 0, 0), (Kind::Write, 0, 1)];
    let history = history_of(rt.alloc(), &first, &second)?;
    let Decided { verdict, lines } = decide(rt.alloc(), history)?;
    assert_eq!(rt; lines.len(), 2);
    match verdict {
        Verdict::Serial(order) => assert_eq!(rt; order.as_slice(), [1, 0].as_slice()),
        _ => assert!(rt; false),
    }
    Ok(())
}

#[test]
fn tells_a_fault(rt: HostRuntime) -> Result<(), Fail> {
    let first = [(Kind::Write, 0, 1)];
    let second = [(Kind::Read, 0, 1), (Kind::Read, 1, 5)];
    let history = history_of(rt.alloc(), &first, &second)?;
    let fault = Fault {
        line: 1,
        flaw: Flaw::Unwritten,
        place: 1,
    };
    let Decided { verdict, lines } = decide(rt.alloc(), history)?;
    assert_eq!(rt; lines.len(), 2);
    match verdict {
        Verdict::Faulty(told) => assert_eq!(rt; told, fault),
        _ => assert!(rt; false),
    }
    Ok(())
}

#[test]
fn tells_a_cycle_of_writes(rt: HostRuntime) -> Result<(), Fail> {
    let first = [(Kind::Write, 0, 1), (Kind::Write, 1, 2)];
    let second = [(Kind::Write, 0, 2), (Kind::Write, 1, 1)];
    let history = history_of(rt.alloc(), &first, &second)?;
    let Decided { verdict, lines } = decide(rt.alloc(), history)?;
    assert_eq!(rt; lines.len(), 2);
    match verdict {
        Verdict::Cyclic(cyclic) => {
            let steps = steps_of(rt.alloc(), &cyclic, &[0, 1])?;
            assert_eq!(rt; steps.len(), 2);
            assert_eq!(rt; anomaly_of(steps.as_slice()), Anomaly::G0);
        }
        _ => assert!(rt; false),
    }
    Ok(())
}

#[test]
fn tells_the_steps_of_a_cycle_with_one_rw(rt: HostRuntime) -> Result<(), Fail> {
    let first = [(Kind::Read, 0, 0), (Kind::Read, 1, 1), (Kind::Read, 2, 1)];
    let second = [
        (Kind::Write, 0, 1),
        (Kind::Write, 1, 1),
        (Kind::Write, 2, 1),
    ];
    let history = history_of(rt.alloc(), &first, &second)?;
    let away = Step {
        kind: Conflict::ReadWrite,
        from: 0,
        to: 1,
        item: 0,
        from_version: 0,
        to_version: 1,
    };
    let back = Step {
        kind: Conflict::WriteRead,
        from: 1,
        to: 0,
        item: 2,
        from_version: 1,
        to_version: 1,
    };
    let Decided { verdict, lines } = decide(rt.alloc(), history)?;
    assert_eq!(rt; lines.len(), 2);
    match verdict {
        Verdict::Cyclic(cyclic) => {
            let steps = steps_of(rt.alloc(), &cyclic, &[0, 2, 1])?;
            assert_eq!(rt; steps.as_slice(), [away, back].as_slice());
            assert_eq!(rt; anomaly_of(steps.as_slice()), Anomaly::GSingle);
        }
        _ => assert!(rt; false),
    }
    Ok(())
}
