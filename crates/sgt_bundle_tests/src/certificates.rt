//! Certificates, by themselves and as lines.

use sgt_bundle::{
    CertFault, Certificate, Decision, certificates_are_read_back, certificates_have_one_reading,
    from_line, lines_are_read_or_refused, lines_are_refused_once, to_line,
};
use sgt_names::Tx;
use std::alloc::{AllocError, Global};
use std::test::Fail;

/// Whether the line is read, or refused with this fault.
fn answers(alloc: Global, line: &str, wanted: Option<CertFault>) -> bool {
    match from_line(alloc, line.as_bytes()) {
        Ok(_) => wanted.is_none(),
        Err(fault) => wanted == Some(fault),
    }
}

/// Lines, and their faults.
const LINES: [(&str, Option<CertFault>); 27] = [
    ("{\"decisions\":[],\"sites\":1}", None),
    ("{\"sites\":1 , \"decisions\":[]}", Some(CertFault::Range)),
    ("{\"decisions\":[],\"sites\":1.0}", Some(CertFault::Range)),
    ("{\"decisions\":[],\"sites\":1,}", Some(CertFault::NotJson)),
    ("{\"sites\":1}", Some(CertFault::Shape)),
    (
        "{\"decisions\":[{\"commit\":\"1\",\"rank\":0}],\"sites\":0}",
        Some(CertFault::Shape),
    ),
    (
        "{\"decisions\":[{\"commit\":0,\"rank\":0}],\"sites\":1}",
        Some(CertFault::Range),
    ),
    ("{\"decisions\":[],\"sites\":17}", None),
    ("{\"decisions\":[],\"sites\":64}", None),
    ("{\"decisions\":[],\"sites\":65}", Some(CertFault::Range)),
    (
        "{\"decisions\":[],\"\\u0073ites\":1}",
        Some(CertFault::Range),
    ),
    (
        "{\"decisions\":[],\"sites\":1,\"sites\":1}",
        Some(CertFault::Range),
    ),
    ("{\"decisions\":[],\"sites\":01}", Some(CertFault::NotJson)),
    ("", Some(CertFault::NotJson)),
    (
        "{\"decisions\":[{\"commit\":4294967295,\"rank\":4294967295}],\"sites\":1}",
        None,
    ),
    (
        "{\"decisions\":[{\"commit\":4294967296,\"rank\":0}],\"sites\":1}",
        Some(CertFault::Range),
    ),
    (
        "{\"decisions\":[{\"rank\":0,\"commit\":1}],\"sites\":1}",
        Some(CertFault::Range),
    ),
    (
        "{\"decisions\":[{\"refuse\":2,\"walk\":[{\"item\":\"x\",\"kind\":\"ww\",\"site\":1,\"to\":1}]}],\"sites\":1}",
        Some(CertFault::Range),
    ),
    (
        "{\"decisions\":[{\"refuse\":2,\"walk\":[{\"item\":\"x\",\"kind\":\"wr\",\"site\":0}]}],\"sites\":1}",
        Some(CertFault::Shape),
    ),
    (
        "{\"decisions\":[{\"commit\":1,\"rank\":0}],\"sites\":1} ",
        Some(CertFault::Range),
    ),
    (
        "{\"decisions\": [{\"refuse\": 2, \"walk\": [{\"item\": \"x\", \"kind\": \"rw\", \"site\": 0, \"to\": 2}]}, {\"withdraw\": 3}], \"sites\": 1}",
        Some(CertFault::Range),
    ),
    (
        "{\"decisions\": [{\"commit\": 1, \"rank\": null}], \"sites\": 1}",
        Some(CertFault::Shape),
    ),
    (
        "{\"decisions\": [{\"commit\": 1}], \"sites\": 1}",
        Some(CertFault::Shape),
    ),
    (
        "{\"decisions\": [], \"sites\": 1, \"sites\": \"1\"}",
        Some(CertFault::Shape),
    ),
    (
        "{\"sites\": \"1\", \"decisions\": [], \"sites\": 1}",
        Some(CertFault::Range),
    ),
    (
        "{\"decisions\": [], \"sites\": 1} x",
        Some(CertFault::NotJson),
    ),
    (
        "{\"decisions\": [], \"sites\": 1e999}",
        Some(CertFault::NotJson),
    ),
];

#[test]
fn lines(rt: HostRuntime) {
    for (line, wanted) in LINES {
        assert!(rt; answers(rt.alloc(), line, wanted), "{line}");
    }
    certificates_are_read_back();
    certificates_have_one_reading();
    lines_are_read_or_refused();
    lines_are_refused_once();
}

/// Whether what is read from the line is written as it.
fn is_written_back(
    alloc: Global,
    certificate: &Certificate,
    line: &str,
) -> Result<bool, AllocError> {
    let written = to_line(alloc, certificate)?;
    Ok(written.as_slice() == line.as_bytes())
}

/// The transaction, the rank, the number of steps, and the three kinds.
fn parts(decision: &Decision) -> (Tx, Option<u32>, Option<usize>, (bool, bool, bool)) {
    let kinds = (
        decision.is_commit(),
        decision.is_refusal(),
        decision.is_withdrawal(),
    );
    (
        decision.tx(),
        decision.rank(),
        decision.walk().map(|walk| walk.len()),
        kinds,
    )
}

#[test]
fn each_kind_of_decision(rt: HostRuntime) -> Result<(), Fail> {
    let alloc = rt.alloc();
    let line =
        "{\"decisions\":[{\"commit\":4,\"rank\":7},{\"refuse\":2,\"walk\":[{\"item\":\"x\",\"kind\":\"rw\",\"site\":0,\"to\":2}]},{\"withdraw\":3}],\"sites\":1}";
    let certificate = from_line(alloc, line.as_bytes())?;
    assert!(rt; is_written_back(alloc, &certificate, line)?);
    for (decision, wanted) in certificate.decisions().iter().zip([
        (Tx::new(4)?, Some(7), None, (true, false, false)),
        (Tx::new(2)?, None, Some(1), (false, true, false)),
        (Tx::new(3)?, None, None, (false, false, true)),
    ]) {
        assert!(rt; parts(decision) == wanted);
    }
    Ok(())
}

#[test]
fn faults_as_text(rt: HostRuntime) -> Result<(), Fail> {
    let (json, shape) = (CertFault::NotJson, CertFault::Shape);
    let (range, memory) = (CertFault::Range, CertFault::Memory);
    let told = format!(in rt.alloc(); "{json}|{shape}|{range}|{memory}")?;
    assert!(rt;
        told.as_str()
            == "K1: the line is no JSON value|K2: a member is missing, unknown or of another JSON type|K3: a number, name or kind is out of its range, or the line is not the compact text|K4: out of memory"
    );
    Ok(())
}
