//! Texts that break a rule, and the line that is written on each.

use crate::bundles::{ONLY_CYCLE, OWN_READ_BEFORE_WRITE, READER_TORN};
use sgt_audit::audit;
use sgt_names::{MemSink, MemSource};
use std::alloc::Global;
use std::test::Fail;

/// Whether this line is written on the text.
fn is_said(alloc: Global, text: &[u8], wanted: &str) -> Result<bool, Fail> {
    let mut reader = MemSource::new(text, 65_536, None);
    let mut writer = MemSink::new(alloc, 100)?;
    audit(alloc, &mut reader, &mut writer)?;
    Ok(writer.bytes() == wanted.as_bytes())
}

/// The format's number, the decisions, the number of sites, the lines of the sections with `/` for LF, and the verdict.
const BUNDLES: [(&str, &str, u8, &str, &str); 22] = [
    // two commits of one rank
    (
        "1",
        "{\"commit\":1,\"rank\":0},{\"commit\":2,\"rank\":0}",
        1,
        "site 0/end",
        "no line 2 F4",
    ),
    // decided twice
    (
        "1",
        "{\"commit\":1,\"rank\":0},{\"withdraw\":1}",
        1,
        "site 0/end",
        "no line 2 F5",
    ),
    // wrong ranks, and decided twice
    (
        "1",
        "{\"commit\":1,\"rank\":1},{\"withdraw\":1}",
        1,
        "site 0/end",
        "no line 2 F4",
    ),
    // a walk without steps
    (
        "1",
        "{\"refuse\":1,\"walk\":[]}",
        1,
        "site 0/end",
        "no line 2 F6",
    ),
    // ends in another order
    (
        "1",
        "{\"commit\":1,\"rank\":0},{\"commit\":2,\"rank\":1}",
        1,
        "site 0/item x=5/r2[x]=5/c2/r1[x]=5/c1/final x=5/end",
        "no line 8 F14",
    ),
    // no end, and a wrong final value
    (
        "1",
        "{\"withdraw\":1}",
        1,
        "site 0/item x=5/r1[x]=5/final x=4/end",
        "no line 6 F15",
    ),
    // a wrong value, read by an undecided transaction
    (
        "1",
        "",
        1,
        "site 0/item x=5/r9[x]=4/final x=5/end",
        "no line 5 F10",
    ),
    // a want of what was written
    (
        "1",
        "{\"commit\":1,\"rank\":0}",
        1,
        "site 0/item x=5/w1[x]=6/p1[x]=6/n1/final x=6/end",
        "no line 6 F9",
    ),
    // a repeat behind an end
    (
        "1",
        "{\"commit\":1,\"rank\":0}",
        1,
        "site 0/item x=5/r1[x]=5/c1/r1[x]=5/final x=5/end",
        "no line 7 F9",
    ),
    // lone ends
    (
        "1",
        "{\"commit\":1,\"rank\":0},{\"withdraw\":3}",
        1,
        "site 0/c1/a3/end",
        "yes 1 committed 0 refused 1 withdrawn",
    ),
    // sites exchanged
    ("1", "", 2, "site 1/end/site 0/end", "no line 3 F7"),
    // a third format
    ("3", "", 1, "site 0/end", "no line 1 F1"),
    // the second format without an increment
    (
        "2",
        "",
        1,
        "site 0/end",
        "yes 0 committed 0 refused 0 withdrawn",
    ),
    // an increment out of place in the first format, and in the second
    ("1", "", 1, "d1[x]=3/end", "no line 3 F2"),
    ("2", "", 1, "d1[x]=3/end", "no line 3 F7"),
    // a want of an increment in the first format
    (
        "1",
        "",
        1,
        "site 0/item x=5/q1[x]=3/n1/final x=5/end",
        "no line 5 F2",
    ),
    // an increment of what was written
    (
        "2",
        "{\"commit\":1,\"rank\":0}",
        1,
        "site 0/item x=5/w1[x]=6/d1[x]=6/c1/final x=12/end",
        "no line 6 F9",
    ),
    // an increment behind a want
    (
        "2",
        "{\"commit\":1,\"rank\":0}",
        1,
        "site 0/item x=5/item y=2/p1[x]=6/d1[y]=1/c1/final x=5/final y=3/end",
        "no line 6 F13",
    ),
    // an increment by one who isn't committed
    (
        "2",
        "{\"withdraw\":1}",
        1,
        "site 0/item x=5/d1[x]=6/a1/final x=11/end",
        "no line 5 F13",
    ),
    // a want of an increment by one of smaller rank than who read
    (
        "2",
        "{\"commit\":2,\"rank\":1},{\"commit\":1,\"rank\":0}",
        1,
        "site 0/item x=5/r2[x]=5/c2/q1[x]=6/n1/final x=5/end",
        "no line 7 F11",
    ),
    // a final without the increment
    (
        "2",
        "{\"commit\":1,\"rank\":0}",
        1,
        "site 0/item x=5/d1[x]=6/c1/final x=6/end",
        "no line 7 F16",
    ),
    // a read behind an increment past the greatest value
    (
        "2",
        "{\"commit\":1,\"rank\":0},{\"withdraw\":2}",
        1,
        "site 0/item x=5/d1[x]=18446744073709551615/c1/r2[x]=4/a2/final x=4/end",
        "yes 1 committed 0 refused 1 withdrawn",
    ),
];

/// The text of a bundle whose lines stand with `/` for LF.
fn bundle_of(
    alloc: Global,
    format: &str,
    decisions: &str,
    sites: u8,
    lines: &str,
) -> Result<String, Fail> {
    let lines = lines.replace(alloc, "/", "\n")?;
    Ok(format!(in alloc;
        "sgt {format}\n{{\"decisions\":[{decisions}],\"sites\":{sites}}}\n{lines}\n"
    )?)
}

/// Whether the verdict on the text is this line.
fn has_verdict(alloc: Global, text: &str, verdict: &str) -> Result<bool, Fail> {
    let wanted = format!(in alloc; "{verdict}\n")?;
    is_said(alloc, text.as_bytes(), wanted.as_str())
}

#[test]
fn least_faults_and_formats(rt: HostRuntime) -> Result<(), Fail> {
    let alloc = rt.alloc();
    for (format, decisions, sites, lines, verdict) in BUNDLES {
        let text = bundle_of(alloc, format, decisions, sites, lines)?;
        assert!(rt; has_verdict(alloc, text.as_str(), verdict)?, "{verdict}");
    }
    Ok(())
}

/// Puts so many letters behind the bytes, and an LF.
fn lengthen(bytes: &mut Vec<u8>, letters: usize, ended: bool) -> Result<(), Fail> {
    for _ in 0..letters {
        bytes.push(b'c')?;
    }
    if ended {
        bytes.push(b'\n')?;
    }
    Ok(())
}

#[test]
fn long_lines(rt: HostRuntime) -> Result<(), Fail> {
    let alloc = rt.alloc();
    for (front, letters, ended, wanted) in [
        ("", 1_048_577usize, false, "no line 1 F1\n"),
        ("", 1_048_576, false, "no line 1 F18\n"),
        ("sgt 2\n", 1_048_577, true, "no line 2 F3\n"),
        ("sgt 1\n", 1_048_577, false, "no line 2 F18\n"),
        (
            "sgt 2\n{\"decisions\":[],\"sites\":1}\n",
            1_048_577,
            false,
            "no line 3 F2\n",
        ),
        (
            "sgt 1\n{\"decisions\":[],\"sites\":1}\n",
            1_048_576,
            false,
            "no line 3 F18\n",
        ),
        (
            "sgt 1\n{\"decisions\":[],\"sites\":1}\nsite 0\nend\n",
            1,
            false,
            "no line 5 F19\n",
        ),
    ] {
        let mut text = Vec::from_slice(alloc, front.as_bytes())?;
        lengthen(&mut text, letters, ended)?;
        let said = is_said(alloc, text.as_slice(), wanted)?;
        assert!(rt; said, "{wanted}");
    }
    Ok(())
}

#[test]
fn cut_bundles(rt: HostRuntime) -> Result<(), Fail> {
    for text in [OWN_READ_BEFORE_WRITE, ONLY_CYCLE, READER_TORN] {
        let mut line = 1u64;
        for (bytes, last) in text.as_bytes().iter().enumerate() {
            let wanted = format!(in rt.alloc(); "no line {line} F18\n")?;
            let front = text.as_bytes().get(..bytes).unwrap_or(b"");
            let said = is_said(rt.alloc(), front, wanted.as_str())?;
            assert!(rt; said, "{bytes} bytes");
            if *last == b'\n' {
                line = line.saturating_add(1);
            }
        }
    }
    Ok(())
}
