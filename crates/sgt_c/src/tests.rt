//! Expected values are worked by hand, of the example of docs/FORMAT.md.

use crate::{
    SGT_NO, SGT_ROOM, SGT_UNREADABLE, SGT_VERSION, SGT_YES, SgtVerdict, sgt_audit, sgt_certify,
    sgt_certify_len, sgt_check, sgt_check_len, sgt_explain, sgt_explain_len, sgt_serial,
    sgt_serial_len, sgt_version,
};
use std::alloc::{AllocError, Global};

const OWN_READ: &str =
    "sgt 1\n{\"decisions\":[{\"commit\":1,\"rank\":0}],\"sites\":1}\nsite 0\nitem x=5\nr1[x]=5\nw1[x]=6\nc1\nfinal x=6\nend\n";

const WRONG_READ: &str =
    "sgt 1\n{\"decisions\":[{\"commit\":1,\"rank\":0}],\"sites\":1}\nsite 0\nitem x=5\nr1[x]=4\nw1[x]=6\nc1\nfinal x=6\nend\n";

const OWN_RUN: &str = "t1\nr1[0.x]=5\nw1[0.x]=6\nfinal 0.x=6\n";

// The logs of OWN_READ, without a certificate.
const OWN_LOGS: &str = "sgt 1\nsite 0\nitem x=5\nr1[x]=5\nw1[x]=6\nc1\nfinal x=6\nend\n";

// Two updates of which one is lost, and the cycle that shows it.
const LOST: &str =
    "sgt 1\nsite 0\nitem x=5\nr1[x]=5\nr2[x]=5\nw1[x]=6\nc1\nw2[x]=7\nc2\nfinal x=7\nend\n";

const LOST_CYCLE: &str =
    "no ranks\n1 rw 2 site 0 item x lines 4 8\n2 rw 1 site 0 item x lines 5 6\n";

// Whether the text is answered by this verdict, and by this text of the serial run.
fn is_answered(alloc: Global, text: &str, wanted: SgtVerdict, run: &str) -> bool {
    let mut verdict = SgtVerdict {
        kind: 7,
        fault: 7,
        line: 7,
        committed: 7,
        refused: 7,
        withdrawn: 7,
    };
    let mut n = 0;
    let mut out = [0u8; 64];
    let bytes = text.as_bytes();
    let is_audited = sgt_audit(alloc, bytes, &mut verdict) == wanted.kind && verdict == wanted;
    let is_measured = sgt_serial_len(alloc, bytes, &mut n) == wanted.kind && n == run.len();
    let is_empty = sgt_serial(alloc, bytes, &mut out[..0], &mut n) == SGT_ROOM && n == run.len();
    let is_short = sgt_serial(alloc, bytes, &mut out[..3], &mut n) == SGT_ROOM && n == run.len();
    let is_run = sgt_serial(alloc, bytes, &mut out, &mut n) == wanted.kind;
    is_audited && is_measured && is_empty && is_short && is_run && out.starts_with(run.as_bytes())
}

#[test]
fn bundles_are_answered(rt: HostRuntime) {
    let yes = SgtVerdict {
        kind: SGT_YES,
        fault: 0,
        line: 0,
        committed: 1,
        refused: 0,
        withdrawn: 0,
    };
    let no = SgtVerdict {
        kind: SGT_NO,
        fault: 10,
        line: 5,
        committed: 0,
        refused: 0,
        withdrawn: 0,
    };
    assert!(rt; is_answered(rt.alloc(), OWN_READ, yes, OWN_RUN));
    assert!(rt; is_answered(rt.alloc(), WRONG_READ, no, "no line 5 F10\n"));
    assert!(rt; sgt_version() == SGT_VERSION);
}

// Whether both calls answer by this number and this text.
fn is_certified(alloc: Global, logs: &str, number: u32, text: &str) -> bool {
    let mut n = 0;
    let mut out = [0u8; 128];
    let bytes = logs.as_bytes();
    let is_measured = sgt_certify_len(alloc, bytes, &mut n) == number && n == text.len();
    let is_empty = sgt_certify(alloc, bytes, &mut out[..0], &mut n) == SGT_ROOM && n == text.len();
    let is_short = sgt_certify(alloc, bytes, &mut out[..3], &mut n) == SGT_ROOM && n == text.len();
    let is_made = sgt_certify(alloc, bytes, &mut out, &mut n) == number && n == text.len();
    is_measured && is_empty && is_short && is_made && out.starts_with(text.as_bytes())
}

// Whether both calls answer by this number and a text that begins so.
fn is_explained(alloc: Global, bundle: &str, number: u32, front: &str) -> bool {
    let mut n = 0;
    let mut told = 0;
    let mut out = [0u8; 512];
    let bytes = bundle.as_bytes();
    let is_measured = sgt_explain_len(alloc, bytes, &mut n) == number && n >= front.len();
    let is_empty = sgt_explain(alloc, bytes, &mut out[..0], &mut told) == SGT_ROOM && told == n;
    let is_told = sgt_explain(alloc, bytes, &mut out, &mut told) == number && told == n;
    is_measured && is_empty && is_told && out.starts_with(front.as_bytes())
}

#[test]
fn logs_are_certified(rt: HostRuntime) {
    assert!(rt; is_certified(rt.alloc(), OWN_LOGS, SGT_YES, OWN_READ));
    assert!(rt; is_certified(rt.alloc(), LOST, SGT_NO, LOST_CYCLE));
}

#[test]
fn bundles_are_explained(rt: HostRuntime) {
    let alloc = rt.alloc();
    assert!(rt;
        is_explained(
            alloc,
            OWN_READ,
            SGT_YES,
            "yes 1 committed 0 refused 0 withdrawn\n"
        )
    );
    assert!(rt; is_explained(alloc, WRONG_READ, SGT_NO, "no line 5 F10\nReadValue: "));
}

// Whether the text of the check of a history is this one, also where it has just the room, and none.
fn is_checked(alloc: Global, history: &str, number: u32, text: &str) -> bool {
    let bytes = history.as_bytes();
    let mut n = 0;
    let mut told = 0;
    let mut out = [7u8; 256];
    let is_measured = sgt_check_len(alloc, bytes, &mut n) == number && n == text.len();
    let is_empty = sgt_check(alloc, bytes, &mut out[..0], &mut told) == SGT_ROOM && told == n;
    let is_told = sgt_check(alloc, bytes, &mut out, &mut told) == number && told == n;
    is_measured && is_empty && is_told && out.starts_with(text.as_bytes()) && out[255] == 7
}

#[test]
fn histories_are_checked(rt: HostRuntime) {
    let alloc = rt.alloc();
    let late = "{\"tx\":\"late\",\"end\":\"commit\",\"ops\":[[\"r\",\"x\",1]]}\n";
    let early = "{\"tx\":\"early\",\"end\":\"commit\",\"ops\":[[\"w\",\"x\",1]]}";
    let none = "no unwritten\nline 1 \"late\" r \"x\" 1\n";
    assert!(rt; is_checked(alloc, "", SGT_YES, "yes 0 committed 0 aborted\n"));
    assert!(rt; is_checked(alloc, early, SGT_YES, "yes 1 committed 0 aborted\n"));
    assert!(rt; is_checked(alloc, late, SGT_NO, none));
    assert!(rt; is_checked(alloc, "{}", SGT_UNREADABLE, "! L1 line 1\n"));
}

#[test]
fn no_bytes_are_answered(rt: HostRuntime) {
    let alloc = rt.alloc();
    let no = SgtVerdict {
        kind: SGT_NO,
        fault: 18,
        line: 1,
        committed: 0,
        refused: 0,
        withdrawn: 0,
    };
    assert!(rt; is_answered(alloc, "", no, "no line 1 F18\n"));
    assert!(rt; is_certified(alloc, "", SGT_NO, "no line 1 F18\n"));
    assert!(rt; is_explained(alloc, "", SGT_NO, "no line 1 F18\nTruncated: "));
}

// Of so many transactions that read x: the decisions, the log and the lines of the serial run.
fn readers(alloc: Global, count: u64) -> Result<(String, String, String), AllocError> {
    let mut decisions = String::new(alloc);
    let mut log = String::new(alloc);
    let mut run = String::new(alloc);
    for tx in 1..=count {
        let rank = tx.saturating_sub(1);
        let comma = if rank == 0 { "" } else { "," };
        let decision = format!(in alloc; "{comma}{{\"commit\":{tx},\"rank\":{rank}}}")?;
        decisions.push_str(decision.as_str())?;
        log.push_str(format!(in alloc; "r{tx}[x]=5\nc{tx}\n")?.as_str())?;
        run.push_str(format!(in alloc; "t{tx}\nr{tx}[0.x]=5\n")?.as_str())?;
    }
    Ok((decisions, log, run))
}

// A text of more than 1 MB is made into room of just its length.
#[test]
fn long_texts_are_answered(rt: HostRuntime) -> Result<(), AllocError> {
    let alloc = rt.alloc();
    let (decisions, log, run) = readers(alloc, 60_000)?;
    let logs = format!(in alloc; "sgt 1\nsite 0\nitem x=5\n{log}final x=5\nend\n")?;
    let line = format!(in alloc; "sgt 1\n{{\"decisions\":[{decisions}],\"sites\":1}}\n")?;
    let bundle = logs.replacen(alloc, "sgt 1\n", line.as_str(), 1)?;
    let run = format!(in alloc; "{run}final 0.x=5\n")?;
    let mut n = 0;
    let mut out = vec![in alloc; 0u8; run.len()]?;
    let number = sgt_serial(alloc, bundle.as_bytes(), out.as_mut_slice(), &mut n);
    assert!(rt; number == SGT_YES && n == run.len() && n > 1_000_000);
    assert!(rt; out.as_slice() == run.as_bytes());
    let number = sgt_certify_len(alloc, logs.as_bytes(), &mut n);
    assert!(rt; number == SGT_YES && n == bundle.len());
    let mut out = vec![in alloc; 0u8; n]?;
    let number = sgt_certify(alloc, logs.as_bytes(), out.as_mut_slice(), &mut n);
    assert!(rt; number == SGT_YES && n == bundle.len() && out.as_slice() == bundle.as_bytes());
    Ok(())
}
