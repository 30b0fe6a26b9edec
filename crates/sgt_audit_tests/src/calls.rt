//! The auditor that is fed, and the bundles that are handed out.

use crate::bundles::{INCREMENTS, ONLY_CYCLE, OWN_READ_BEFORE_WRITE, READER_TORN};
use sgt_audit::{Audited, Auditor, Fault, Verdict, audit_bundle, read_bundle};
use sgt_bundle::from_line;
use sgt_compact::CompactLog;
use sgt_names::{Entry, Holding, Item, MemSource, Tx};
use sgt_notation::find_lf;
use std::alloc::Global;
use std::test::Fail;

/// Feeds the auditor a line, if it holds no LF.
fn feed(auditor: &mut Auditor, line: &str) -> Result<(), Fail> {
    let line = line.as_bytes();
    match find_lf(line) {
        None => Ok(auditor.feed(line)?),
        Some(_) => Ok(()),
    }
}

/// What an auditor of one of the two formats says that is fed the lines of one section.
fn fed(alloc: Global, second: bool, decisions: &str, section: &str) -> Result<Verdict, Fail> {
    let line = format!(in alloc; "{{\"decisions\":[{decisions}],\"sites\":1}}")?;
    let certificate = from_line(alloc, line.as_bytes())?;
    let mut auditor = if second {
        Auditor::new_2(alloc, certificate)?
    } else {
        Auditor::new(alloc, certificate)?
    };
    for line in section.split('/') {
        feed(&mut auditor, line)?;
    }
    Ok(auditor.end()?)
}

/// How many lines an auditor is fed, with the first two, until it tells a fault; and what it tells when all were fed.
fn told(alloc: Global, decisions: &str, section: &str) -> Result<Option<(u64, u64, Fault)>, Fail> {
    let line = format!(in alloc; "{{\"decisions\":[{decisions}],\"sites\":1}}")?;
    let mut auditor = Auditor::new(alloc, from_line(alloc, line.as_bytes())?)?;
    let mut lines = 3u64;
    for line in section.split('/') {
        feed(&mut auditor, line)?;
        if auditor.fault().is_none() {
            lines = lines.saturating_add(1);
        }
    }
    match auditor.fault() {
        Some((line, fault)) => Ok(Some((lines, line, fault))),
        None => Ok(None),
    }
}

#[test]
fn faults_are_told_at_once(rt: HostRuntime) -> Result<(), Fail> {
    let values_cannot_tell = "site 0/item x=5/w1[x]=7/c1/w2[x]=7/c2/final x=7/end";
    let ranks = "{\"commit\":1,\"rank\":1},{\"commit\":2,\"rank\":0}";
    let found = told(rt.alloc(), ranks, values_cannot_tell)?;
    assert!(rt; found == Some((7, 7, Fault::RankOrder)));
    Ok(())
}

#[test]
fn auditors_are_fed(rt: HostRuntime) -> Result<(), Fail> {
    let alloc = rt.alloc();
    let increments = "site 0/item x=5/d2[x]=4/c2/d1[x]=3/c1/final x=12/end";
    let ranks = "{\"commit\":2,\"rank\":0},{\"commit\":1,\"rank\":1}";
    for (second, wanted) in [
        (true, "yes 2 committed 0 refused 0 withdrawn\n"),
        (false, "no line 5 F2\n"),
    ] {
        let verdict = fed(alloc, second, ranks, increments)?;
        assert!(rt; verdict.to_line(alloc)?.as_str() == wanted, "{wanted}");
    }
    Ok(())
}

#[test]
fn bundles_are_handed_out(rt: HostRuntime) -> Result<(), Fail> {
    let alloc = rt.alloc();
    for text in [OWN_READ_BEFORE_WRITE, READER_TORN, INCREMENTS] {
        let mut reader = MemSource::new(text.as_bytes(), 7, None);
        match audit_bundle(alloc, &mut reader)? {
            Audited::Valid(bundle) => assert!(rt;
                bundle.into_bundle(alloc)?.to_text(alloc)?.as_slice() == text.as_bytes()
            ),
            Audited::No { line, .. } => assert!(rt; line == 0),
        }
        match read_bundle(alloc, text.as_bytes())? {
            Some(bundle) => assert!(rt; bundle.to_text(alloc)?.as_slice() == text.as_bytes()),
            None => assert!(rt; text.is_empty()),
        }
    }
    Ok(())
}

#[test]
fn no_bundle_is_spelled(rt: HostRuntime) -> Result<(), Fail> {
    for text in [
        "",
        "sgt 3\n{\"decisions\":[],\"sites\":1}\nsite 0\nend\n",
        "sgt 1\n{\"sites\":1}\nsite 0\nend\n",
        "sgt 1\n{\"decisions\":[],\"sites\":1}\nsite 0\nitem X=5\nend\n",
        "sgt 1\n{\"decisions\":[],\"sites\":1}\nsite 0\n",
        "sgt 1\n{\"decisions\":[],\"sites\":1}\nsite 1\nend\n",
        "sgt 1\n{\"decisions\":[],\"sites\":1}\nsite 0\nend\nend\n",
    ] {
        assert!(rt;
            read_bundle(rt.alloc(), text.as_bytes())?.is_none(),
            "{text}"
        );
    }
    // A bundle that isn't valid is spelled all the same.
    let refused = ONLY_CYCLE.replace(rt.alloc(), "r1[x]=5", "r1[x]=4")?;
    assert!(rt; read_bundle(rt.alloc(), refused.as_bytes())?.is_some());
    Ok(())
}

#[test]
fn logs_are_held_small(rt: HostRuntime) -> Result<(), Fail> {
    let alloc = rt.alloc();
    let (tx, other) = (Tx::new(1)?, Tx::new(2)?);
    let (item, unlisted) = (Item::new(b"x")?, Item::new(b"y")?);
    let holding = Holding { item, value: 5 };
    let read = Entry::Read { tx, item, value: 5 };
    let write = Entry::Write { tx, item, value: 6 };
    let add = Entry::Add {
        tx: other,
        item: unlisted,
        value: 7,
    };
    let commit = Entry::Commit { tx };
    let mut log = CompactLog::new(alloc);
    log.add_item(holding)?;
    log.add_entry(read, 0)?;
    log.add_entry(write, 9)?;
    log.add_entry_by_name(add)?;
    log.add_entry_by_name(commit)?;
    log.add_final(holding)?;
    let entries = log.entries();
    assert_eq!(rt; entries.len(), 4);
    assert!(rt; entries.at(1) == write && entries.at(3) == commit);
    assert!(rt; entries.tx_at(2) == other);
    assert!(rt; entries.read_at(0) == Some((&item, 5)) && entries.read_at(1).is_none());
    assert!(rt; entries.written_at(1) == Some((&item, 6)) && entries.written_at(2).is_none());
    assert!(rt; entries.added_at(2) == Some((&unlisted, 7)) && entries.added_at(3).is_none());
    assert!(rt; log.items() == [holding].as_slice() && log.finals() == [holding].as_slice());
    let whole = log.into_log(alloc)?;
    assert!(rt; whole.entries.as_slice() == [read, write, add, commit].as_slice());
    let finals = CompactLog::of(alloc, &whole)?.into_finals();
    assert!(rt; finals.as_slice() == [holding].as_slice());
    Ok(())
}
