//! What no clause says: that verdicts come where memory can be had, as one thread gives them.

use sgt_audit::audit;
use sgt_audit_workers::audit_with;
use sgt_names::{EngineFail, FromRead, MAX_LINE, MemSink, MemSource, Source};
use std::alloc::Global;
use std::io;
use std::io::Read;
use std::test::Fail;
use std::thread::Threads;

/// A line 2 with as many bytes is judged by several threads.
const LONG: usize = 65_536;

/// A refused transaction with a step at each of two sites.
const TWO_SITES: &str =
    "sgt 1\n{\"decisions\":[{\"commit\":1,\"rank\":0},{\"refuse\":2,\"walk\":[{\"item\":\"y\",\"kind\":\"rw\",\"site\":1,\"to\":1},{\"item\":\"x\",\"kind\":\"wr\",\"site\":0,\"to\":2}]}],\"sites\":2}\nsite 0\nitem x=5\nw1[x]=6\nc1\nr2[x]=6\nn2\nfinal x=6\nend\nsite 1\nitem y=2\nr2[y]=2\nw1[y]=3\nc1\nn2\nfinal y=3\nend\n";

/// Whether so many workers write what one thread writes.
fn agrees<H: Threads + Sync>(
    rt: &H,
    alloc: Global,
    text: &[u8],
    workers: usize,
) -> Result<bool, Fail> {
    let mut one = MemSink::new(alloc, 100)?;
    let mut several = MemSink::new(alloc, 100)?;
    let mut reader = MemSource::new(text, 7, None);
    let verdict = audit(alloc, &mut reader, &mut one)?;
    let mut again = MemSource::new(text, 7, None);
    let same = audit_with(rt, alloc, workers, &mut again, &mut several)?;
    Ok(same == verdict && several.bytes() == one.bytes())
}

#[test]
fn each_front_and_what_follows(rt: HostRuntime) -> Result<(), Fail> {
    let text = TWO_SITES.as_bytes();
    for n in 0..=text.len() {
        let (front, _) = text.split_at(n);
        assert!(rt; agrees(&rt, rt.alloc(), front, 2)?, "{n}");
    }
    for behind in ["x", "\n", "end\n", "site 2\nend\n"] {
        let more = format!(in rt.alloc(); "{TWO_SITES}{behind}")?;
        assert!(rt; agrees(&rt, rt.alloc(), more.as_bytes(), 3)?, "{behind}");
    }
    Ok(())
}

/// What stands in the text, and what in its place gives it a fault: of each kind that a line may have.
const FAULTS: [(&str, &str); 20] = [
    ("sgt 1", "sgt 3"),
    ("kind", "sort"),
    ("rank\":0", "rank\":1"),
    ("refuse\":2", "refuse\":1"),
    ("site\":1,\"to\":1", "site\":1,\"to\":2"),
    ("r2[x]=6", "r2[x=6"),
    ("site 1\n", "site 0\n"),
    ("r2[y]=2", "r2[z]=2"),
    ("w1[x]=6\n", "w1[x]=6\nw1[x]=6\n"),
    ("r2[x]=6", "r2[x]=5"),
    ("r2[y]=2\nw1[y]=3", "w1[y]=3\nr2[y]=3"),
    ("final x=6\nend", "final x=6\nc1\nend"),
    ("c1\nr2[x]", "c1\nc1\nr2[x]"),
    ("c1\nn2\nfinal y", "n2\nc1\nfinal y"),
    ("n2\nfinal x=6", "final x=6"),
    ("final y=3", "final y=2"),
    ("r2[y]=2\n", ""),
    ("r2[x]=6\n", ""),
    ("r2[x]=6", "r2[x]=6\nend"),
    ("final y=3\nend\n", "final y=3\nend\nx\n"),
];

#[test]
fn faults_of_each_section(rt: HostRuntime) -> Result<(), Fail> {
    for (old, new) in FAULTS {
        let text = TWO_SITES.replace(rt.alloc(), old, new)?;
        for workers in 1..4usize {
            assert!(rt; agrees(&rt, rt.alloc(), text.as_bytes(), workers)?, "{new}");
        }
    }
    Ok(())
}

/// Whether so many workers answer what one thread does, of what the one and the other source give.
fn answers_alike<H: Threads + Sync, R: Source + Drop, S: Source + Drop>(
    rt: &H,
    alloc: Global,
    workers: usize,
    mut one: R,
    mut other: S,
) -> Result<bool, Fail> {
    let mut first = MemSink::new(alloc, 100)?;
    let mut second = MemSink::new(alloc, 100)?;
    let verdict = audit(alloc, &mut one, &mut first);
    let same = audit_with(rt, alloc, workers, &mut other, &mut second);
    Ok(same == verdict && second.bytes() == first.bytes())
}

#[test]
fn each_read_fails_behind_each_fault(rt: HostRuntime) -> Result<(), Fail> {
    for (old, new) in FAULTS {
        let text = TWO_SITES.replace(rt.alloc(), old, new)?;
        let bytes = text.as_bytes();
        for workers in [1usize, 2, 4] {
            for read in 1..=19u64 {
                let one = MemSource::new(bytes, 16, Some(read));
                let other = MemSource::new(bytes, 16, Some(read));
                let alike = answers_alike(&rt, rt.alloc(), workers, one, other)?;
                assert!(rt; alike, "{new}, read {read}, {workers} workers");
            }
        }
    }
    Ok(())
}

#[test]
fn streams_that_never_end_behind_each_fault(rt: HostRuntime) -> Result<(), Fail> {
    for (old, new) in FAULTS {
        let text = TWO_SITES.replace(rt.alloc(), old, new)?;
        for workers in [1usize, 2, 4] {
            for byte in [b'x', b'\n'] {
                let one = FromRead::new(text.as_bytes().chain(io::repeat(byte)));
                let other = FromRead::new(text.as_bytes().chain(io::repeat(byte)));
                let alike = answers_alike(&rt, rt.alloc(), workers, one, other)?;
                assert!(rt; alike, "{new}, {byte}, {workers} workers");
            }
        }
    }
    Ok(())
}

/// So many lines of two bytes, or one line of so many bytes.
fn filled(alloc: Global, line: &str, lines: usize) -> Result<String, Fail> {
    let mut text = String::new(alloc);
    text.push_str("sgt 1\n{\"decisions\":[],\"sites\":2}\nsite 0\n")?;
    for _line in 0..lines {
        text.push_str(line)?;
    }
    Ok(text)
}

#[test]
fn a_line_that_is_too_long_is_known_at_once(rt: HostRuntime) -> Result<(), Fail> {
    let text = filled(rt.alloc(), "x", MAX_LINE + 1)?;
    let reads = text.len() as u64 / 4_096 + 2;
    for workers in [1usize, 2, 4] {
        let one = MemSource::new(text.as_bytes(), 4_096, Some(reads));
        let other = MemSource::new(text.as_bytes(), 4_096, Some(reads));
        assert!(rt;
            answers_alike(&rt, rt.alloc(), workers, one, other)?,
            "{workers}"
        );
    }
    Ok(())
}

#[test]
fn long_sections_are_judged_as_they_are_read(rt: HostRuntime) -> Result<(), Fail> {
    let mut text = String::new(rt.alloc());
    text.push_str("sgt 1\n{\"decisions\":[{\"withdraw\":1}],\"sites\":2}\nsite 0\nitem x=5\n")?;
    for _read in 0..500_000u32 {
        text.push_str("r1[x]=5\n")?;
    }
    text.push_str("a1\nfinal x=5\nend\nsite 1\nend\n")?;
    for (old, new) in [
        ("a1", "a1"),
        ("a1", "c1"),
        ("final x=5\nend", "final x=5"),
        ("site 1", "site 2"),
    ] {
        let changed = text.replace(rt.alloc(), old, new)?;
        for workers in [2usize, 3] {
            let one = MemSource::new(changed.as_bytes(), 65_536, None);
            let other = MemSource::new(changed.as_bytes(), 65_536, None);
            assert!(rt;
                answers_alike(&rt, rt.alloc(), workers, one, other)?,
                "{new}"
            );
        }
    }
    Ok(())
}

// The same with so many withdrawn transactions that line 2 is a long one.
fn with_a_long_line(alloc: Global) -> Result<String, Fail> {
    let mut withdrawn = String::new(alloc);
    for tx in 3..5_000u32 {
        let decision = format!(in alloc; ",{{\"withdraw\":{tx}}}")?;
        withdrawn.push_str(decision.as_str())?;
    }
    let end = format!(in alloc; "}}]}}{withdrawn}],\"sites\"")?;
    Ok(TWO_SITES.replace(alloc, "}]}],\"sites\"", end.as_str())?)
}

#[test]
fn faults_of_a_long_line(rt: HostRuntime) -> Result<(), Fail> {
    let long = with_a_long_line(rt.alloc())?;
    assert!(rt; long.len() > LONG);
    for (old, new) in [
        ("kind", "kind"),
        ("kind", "sort"),
        ("rank\":0", "rank\":1"),
        ("refuse\":2", "refuse\":1"),
        ("site\":1,\"to\":1", "site\":1,\"to\":2"),
        ("r2[x]=6", "r2[x]=5"),
    ] {
        let text = long.replace(rt.alloc(), old, new)?;
        assert!(rt; agrees(&rt, rt.alloc(), text.as_bytes(), 3)?, "{new}");
    }
    Ok(())
}

#[test]
fn each_read_fails(rt: HostRuntime) -> Result<(), Fail> {
    let text = TWO_SITES.as_bytes();
    for read in 1..=18u64 {
        let mut reader = MemSource::new(text, 16, Some(read));
        let mut writer = MemSink::new(rt.alloc(), 100)?;
        let fail = audit_with(&rt, rt.alloc(), 2, &mut reader, &mut writer).err();
        assert!(rt;
            fail == Some(EngineFail::ReadFault) && writer.bytes().is_empty(),
            "{read}"
        );
    }
    Ok(())
}
