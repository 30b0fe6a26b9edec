//! A judge on its happy path, and with a refusal.

use crate::common::Names;
use sgt_arena::Handle;
use sgt_bundle::Decision;
use sgt_certifier::{CertifierFault, Decided, Judge};
use sgt_edges::EdgeList;
use sgt_names::Kind;
use std::test::Fail;

// Whether the transaction is committed, where it may be decided.
fn commits(judge: &mut Judge, handle: Handle, edges: &EdgeList) -> Result<bool, CertifierFault> {
    judge.may_decide(handle, edges)?;
    match judge.decide(handle, edges)? {
        Decided::Committed { .. } => Ok(true),
        Decided::Refused { .. } => Ok(false),
    }
}

// The first of two is committed and installed at the site, the second is withdrawn, and the window closes.
#[test]
fn judged(rt: HostRuntime) -> Result<(), Fail> {
    let (alloc, names) = (rt.alloc(), Names::at(0)?);
    let mut judge = Judge::new(alloc);
    let next = judge.may_begin()?;
    let (one, first) = judge.begin()?;
    let (two, second) = judge.begin()?;
    assert!(rt; next == names.one && one == names.one && two == names.two);
    assert!(rt; judge.is_under(two, second) && judge.active() == 2);
    assert!(rt; commits(&mut judge, first, &EdgeList::new(alloc))?);
    judge.may_note(one, names.site)?;
    judge.note(one, names.site);
    judge.finish_step(one)?;
    judge.may_withdraw(second)?;
    assert!(rt; judge.withdraw(second)? == 1);
    assert!(rt; judge.active() == 0 && judge.decided() == 2);
    judge.may_close()?;
    assert!(rt; judge.close()? == 1);
    let certificate = judge.certificate(alloc, 1)?;
    let decisions = certificate.decisions.as_slice();
    assert!(rt; decisions.len() == 2);
    assert!(rt;
        match decisions.first() {
            Some(Decision::Commit { tx, rank }) => *tx == one && *rank == 0,
            _ => false,
        }
    );
    assert!(rt;
        match decisions.last() {
            Some(Decision::Withdraw { tx }) => *tx == two,
            _ => false,
        }
    );
    Ok(())
}

// The first of two is committed, and the second refused for a cycle through both, by the call that tells no walk. The
// certificate takes the judge.
#[test]
fn ruled(rt: HostRuntime) -> Result<(), Fail> {
    let (alloc, names) = (rt.alloc(), Names::at(0)?);
    let mut judge = Judge::new(alloc);
    let (one, first) = judge.begin()?;
    let (two, second) = judge.begin()?;
    let mut edges = EdgeList::new(alloc);
    judge.may_decide(first, &edges)?;
    assert!(rt; judge.rule(first, &edges)?);
    judge.finish_step(one)?;
    edges.push(names.edge(first, second, Kind::Wr))?;
    edges.push(names.edge(second, first, Kind::Rw))?;
    judge.may_decide(second, &edges)?;
    assert!(rt; !judge.rule(second, &edges)?);
    judge.finish_step(two)?;
    let certificate = judge.into_certificate(alloc, 1)?;
    let decisions = certificate.decisions.as_slice();
    assert!(rt; decisions.len() == 2);
    assert!(rt;
        match decisions.last() {
            Some(Decision::Refuse { tx, walk }) => *tx == two && walk.as_slice().len() == 2,
            _ => false,
        }
    );
    Ok(())
}
