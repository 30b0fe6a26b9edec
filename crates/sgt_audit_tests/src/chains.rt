//! Chains of bundles.

use sgt_audit::Fault;
use sgt_audit_chain::{ChainAuditor, ChainFault, chains_run_serially, faults_exclude_chains};
use sgt_names::{EngineFail, MemSource};
use std::alloc::Global;
use std::test::Fail;

/// x from 5, y from 2 to 7; one is committed, and one refused.
const FIRST: &str =
    "sgt 1\n{\"decisions\":[{\"commit\":1,\"rank\":0},{\"refuse\":2,\"walk\":[{\"item\":\"y\",\"kind\":\"rw\",\"site\":0,\"to\":1},{\"item\":\"x\",\"kind\":\"rw\",\"site\":0,\"to\":2}]}],\"sites\":1}\nsite 0\nitem x=5\nitem y=2\nr1[x]=5\nr2[y]=2\nw1[y]=7\nc1\np2[x]=8\nn2\nfinal x=5\nfinal y=7\nend\n";

/// x from 5 to 9, y from 7; one is committed, and one withdrawn.
const SECOND: &str =
    "sgt 2\n{\"decisions\":[{\"commit\":1,\"rank\":0},{\"withdraw\":2}],\"sites\":1}\nsite 0\nitem x=5\nitem y=7\nr2[x]=5\nd1[x]=4\nc1\na2\nfinal x=9\nfinal y=7\nend\n";

/// Two sites with x from 5 and nothing, of which nothing happens.
const TWO_SITES: &str =
    "sgt 1\n{\"decisions\":[],\"sites\":2}\nsite 0\nitem x=5\nfinal x=5\nend\nsite 1\nend\n";

/// The first of them alone.
const ONE_SITE: &str = "sgt 1\n{\"decisions\":[],\"sites\":1}\nsite 0\nitem x=5\nfinal x=5\nend\n";

/// The line that is said of texts in a row, with readers that give all at once or one byte a read.
fn said(alloc: Global, texts: &[&str], at_once: bool) -> Result<String, EngineFail> {
    let piece = if at_once { 65_536 } else { 1 };
    let mut auditor = ChainAuditor::new(alloc);
    for text in texts {
        let mut reader = MemSource::new(text.as_bytes(), piece, None);
        if let Some((line, fault)) = auditor.next(&mut reader)? {
            return Ok(fault.to_line(alloc, "b.sgt", line)?);
        }
    }
    Ok(auditor.to_line(alloc)?)
}

#[test]
fn chains_and_their_faults(rt: HostRuntime) -> Result<(), Fail> {
    chains_run_serially();
    faults_exclude_chains();
    for (texts, line) in [
        ([FIRST, SECOND], "yes 2 committed 1 refused 1 withdrawn\n"),
        ([SECOND, FIRST], "no b.sgt line 4 C1\n"),
        ([TWO_SITES, ONE_SITE], "no b.sgt line 7 C1\n"),
        ([ONE_SITE, TWO_SITES], "no b.sgt line 7 C1\n"),
        ([ONE_SITE, SECOND], "no b.sgt line 5 C1\n"),
        ([SECOND, ONE_SITE], "no b.sgt line 4 C1\n"),
        ([FIRST, "sgt 1\n"], "no b.sgt line 2 F18\n"),
    ] {
        for at_once in [true, false] {
            assert_eq!(rt; said(rt.alloc(), &texts, at_once)?.as_str(), line);
        }
    }
    assert_eq!(rt;
        said(rt.alloc(), &[], true)?.as_str(),
        "yes 0 committed 0 refused 0 withdrawn\n"
    );
    Ok(())
}

// What was audited stands behind a fault and a failure.
#[test]
fn goes_on_behind_a_fault(rt: HostRuntime) -> Result<(), Fail> {
    let mut auditor = ChainAuditor::new(rt.alloc());
    assert_eq!(rt;
        auditor.next(&mut MemSource::new(FIRST.as_bytes(), 9, None))?,
        None
    );
    let again = auditor.next(&mut MemSource::new(FIRST.as_bytes(), 9, None))?;
    assert_eq!(rt; again, Some((5, ChainFault::Broken)));
    let cut = auditor.next(&mut MemSource::new(b"sgt 3\n", 9, None))?;
    assert_eq!(rt; cut, Some((1, ChainFault::Invalid(Fault::Format))));
    let failed = auditor.next(&mut MemSource::new(SECOND.as_bytes(), 9, Some(3)));
    assert_eq!(rt; failed.err(), Some(EngineFail::ReadFault));
    assert_eq!(rt;
        auditor.next(&mut MemSource::new(SECOND.as_bytes(), 9, None))?,
        None
    );
    let line = auditor.to_line(rt.alloc())?;
    assert_eq!(rt; line.as_str(), "yes 2 committed 1 refused 1 withdrawn\n");
    Ok(())
}
