//! Whole runs over memory, and schedules that gates bring about.

use crate::gates::{HoldThree, HoldUntil, SixteenTake};
use sgt_names::{EngineFail, MemSink, MemSource, Outcome, SiteNo};
use sgt_service::{Reading, read_input, run_scripts};
use sgt_workers::{NoGate, Place};
use std::alloc::Global;
use std::sync::Wait;
use std::test::Fail;
use std::thread::Threads;

/// Room for what a run writes.
const ROOM: usize = 8_192;

// A write is read back.
const INPUT: &str = "site 0 x=5 y=0\nw[0.x]=7\nr[0.x] w[0.y]=0.x+1\n";

const OUTPUT: &str = "s1 committed 1 tries 1
s2 committed 2 tries 1
yes 2 committed 0 refused 0 withdrawn
---
sgt 1
{\"decisions\":[{\"commit\":1,\"rank\":0},{\"commit\":2,\"rank\":1}],\"sites\":1}
site 0
item x=5
item y=0
w1[x]=7
c1
r2[x]=7
w2[y]=8
c2
final x=7
final y=8
end
";

// A sum above the greatest value.
const LARGE: &str = "site 0 x=18446744073709551615\nr[0.x] w[0.x]=0.x+1\n";

const WITHDRAWN: &str = "s1 withdrawn 1 tries 1
yes 0 committed 0 refused 1 withdrawn
---
sgt 1
{\"decisions\":[{\"withdraw\":1}],\"sites\":1}
site 0
item x=18446744073709551615
r1[x]=18446744073709551615
a1
final x=18446744073709551615
end
";

// No script.
const NONE: &str = "yes 0 committed 0 refused 0 withdrawn
---
sgt 1
{\"decisions\":[],\"sites\":1}
site 0
item x=5
final x=5
end
";

// The last is the number of the first read that fails, where one does.
const ROWS: [(&str, &str, Outcome, Option<u64>); 6] = [
    (INPUT, OUTPUT, Outcome::Yes, None),
    (LARGE, WITHDRAWN, Outcome::No, None),
    ("site 0 x=5\n", NONE, Outcome::Yes, None),
    // an item that isn't there, a source that no earlier operation names, no line at all. Behind a line that can't be
    // read no further read is made: it would fail
    (
        "site 0 x=5\nw[0.x]=1\nr[0.q]\n",
        "! L1 line 3\n",
        Outcome::Unreadable,
        Some(28),
    ),
    (
        "site 0 x=5\nd[0.x]=1 w[0.x]=0.x+1\n",
        "! L1 line 2\n",
        Outcome::Unreadable,
        Some(34),
    ),
    ("", "! L1 line 1\n", Outcome::Unreadable, None),
];

// How a run of one worker ends, of whose input one byte is read at a time.
fn ended<R: Threads + Wait + Sync>(
    rt: &R,
    alloc: Global,
    input: &str,
    fail_at: Option<u64>,
    writer: &mut MemSink,
) -> Result<Outcome, EngineFail> {
    let mut reader = MemSource::new(input.as_bytes(), 1, fail_at);
    run_scripts(rt, alloc, &mut reader, writer, 1, 4, &NoGate)
}

#[test]
fn rows_of_one_worker(rt: HostRuntime) -> Result<(), Fail> {
    for (input, output, outcome, fail_at) in ROWS {
        let mut writer = MemSink::new(rt.alloc(), ROOM)?;
        let ended = ended(&rt, rt.alloc(), input, fail_at, &mut writer);
        assert_eq!(rt; ended, Ok(outcome));
        assert_eq!(rt; writer.bytes(), output.as_bytes());
    }
    let mut reader = MemSource::new(INPUT.as_bytes(), 7, None);
    let reading = read_input(rt.alloc(), &mut reader)?;
    assert!(rt; matches!(&reading, Reading::Readable(_)));
    Ok(())
}

const BETWEEN: &str = "site 0 x=5
site 1 u=0
site 2 y=2
site 3 a=0
site 4 b=0
r[3.a] w[0.x]=6 w[1.u]=1 w[2.y]=3
r[4.b] r[0.x] r[2.y]
";

// Which of the two begins first isn't fixed.
const REFUSED: [&str; 2] = [
    "s1 committed 1 tries 1
s2 refused 2 tries 1
yes 1 committed 1 refused 0 withdrawn
---
sgt 1
{\"decisions\":[{\"commit\":1,\"rank\":0},{\"refuse\":2,\"walk\":[{\"item\":\"y\",\"kind\":\"rw\",\"site\":2,\"to\":1},\
{\"item\":\"x\",\"kind\":\"wr\",\"site\":0,\"to\":2}]}],\"sites\":5}
",
    "s1 committed 2 tries 1
s2 refused 1 tries 1
yes 1 committed 1 refused 0 withdrawn
---
sgt 1
{\"decisions\":[{\"commit\":2,\"rank\":0},{\"refuse\":1,\"walk\":[{\"item\":\"y\",\"kind\":\"rw\",\"site\":2,\"to\":2},\
{\"item\":\"x\",\"kind\":\"wr\",\"site\":0,\"to\":1}]}],\"sites\":5}
",
];

const TRIED_AGAIN: [&str; 2] = [
    "s1 committed 1 tries 1
s2 committed 3 tries 2
yes 2 committed 1 refused 0 withdrawn
",
    "s1 committed 2 tries 1
s2 committed 3 tries 2
yes 2 committed 1 refused 0 withdrawn
",
];

// One reads between two blocks of the other's step: an item that is written, and one that isn't yet. It is refused;
// tried again, it reads both as they were written.
#[test]
fn read_between_blocks(rt: HostRuntime) -> Result<(), Fail> {
    let (inner, last) = (SiteNo::new(1)?, SiteNo::new(2)?);
    let (mine, other) = (SiteNo::new(3)?, SiteNo::new(4)?);
    let again = (["r3[x]=6", "r3[x]=6"], ["r3[y]=3", "r3[y]=3"]);
    let rows = [
        (
            1,
            Outcome::No,
            REFUSED,
            (["r2[x]=6", "r1[x]=6"], ["r2[y]=2", "r1[y]=2"]),
        ),
        (2, Outcome::Yes, TRIED_AGAIN, again),
    ];
    for (tries, outcome, starts, reads) in rows {
        let gate = HoldThree::new(
            HoldUntil::new(Place::AfterRead(mine), Place::AfterRead(other)),
            HoldUntil::new(Place::AfterRead(other), Place::InInstall(inner)),
            HoldUntil::new(Place::InInstall(inner), Place::AfterRead(last)),
        );
        let mut reader = MemSource::new(BETWEEN.as_bytes(), 64, None);
        let mut writer = MemSink::new(rt.alloc(), ROOM)?;
        let ended = run_scripts(&rt, rt.alloc(), &mut reader, &mut writer, 2, tries, &gate);
        assert!(rt; !gate.failed());
        assert_eq!(rt; ended, Ok(outcome));
        let written = str::from_utf8(writer.bytes())?;
        let order = if written.starts_with(starts[0]) { 0 } else { 1 };
        assert!(rt; written.starts_with(starts[order]));
        assert!(rt; written.contains(reads.0[order]) && written.contains(reads.1[order]));
    }
    Ok(())
}

// Sixteen workers, of which each takes one job once all have.
#[test]
fn sixteen_that_read(rt: HostRuntime) -> Result<(), Fail> {
    let mut input = String::from_str(rt.alloc(), "site 0 x=5\n")?;
    for _ in 0..16 {
        input.push_str("r[0.x]\n")?;
    }
    let gate = SixteenTake::new();
    let mut reader = MemSource::new(input.as_bytes(), 64, None);
    let mut writer = MemSink::new(rt.alloc(), ROOM)?;
    let ended = run_scripts(&rt, rt.alloc(), &mut reader, &mut writer, 16, 1, &gate);
    assert!(rt; !gate.failed());
    assert_eq!(rt; ended, Ok(Outcome::Yes));
    let written = str::from_utf8(writer.bytes())?;
    assert!(rt; written.contains("yes 16 committed 0 refused 0 withdrawn\n"));
    Ok(())
}
