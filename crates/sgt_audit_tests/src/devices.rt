//! Readers and writers that fail at each place, and growths that are refused.

use crate::bundles::{ONLY_CYCLE, OWN_READ_BEFORE_WRITE, RANK_MOVES, READER_TORN};
use sgt_audit::{Verdict, audit};
use sgt_names::{EngineFail, MemSink, MemSource};
use sgt_serial::serial;
use std::alloc::Global;
use std::test::Fail;

/// How the audit or the serial run of a text ends, by a reader and a writer.
fn fail_of(
    alloc: Global,
    serially: bool,
    reader: &mut MemSource<'_>,
    writer: &mut MemSink,
) -> Option<EngineFail> {
    if serially {
        serial(alloc, reader, writer).err()
    } else {
        audit(alloc, reader, writer).err()
    }
}

/// Whether a reader of one byte a read that fails at this read is answered as that, and nothing written.
fn read_fails(alloc: Global, serially: bool, text: &str, read: u64) -> Result<bool, Fail> {
    let mut reader = MemSource::new(text.as_bytes(), 1, Some(read));
    let mut writer = MemSink::new(alloc, 100)?;
    let fail = fail_of(alloc, serially, &mut reader, &mut writer);
    Ok(fail == Some(EngineFail::ReadFault) && writer.bytes().is_empty())
}

// Also the read that would tell the end.
#[test]
fn each_read_fails(rt: HostRuntime) -> Result<(), Fail> {
    for (serially, text, reads) in [
        (false, OWN_READ_BEFORE_WRITE, 104u64),
        (true, RANK_MOVES, 156),
    ] {
        for read in 1..=reads {
            assert!(rt; read_fails(rt.alloc(), serially, text, read)?, "{read}");
        }
        assert!(rt; !read_fails(rt.alloc(), serially, text, reads.saturating_add(1))?);
    }
    Ok(())
}

/// Whether a writer that takes so many bytes and then fails is answered as that, and holds that front of the answer.
fn write_fails(
    alloc: Global,
    serially: bool,
    text: &str,
    takes: usize,
    answer: &str,
) -> Result<bool, Fail> {
    let mut reader = MemSource::new(text.as_bytes(), 9, None);
    let mut writer = MemSink::new(alloc, takes)?;
    let fail = fail_of(alloc, serially, &mut reader, &mut writer);
    Ok(
        fail == Some(EngineFail::WriteFault)
            && writer.bytes().len() == takes
            && answer.as_bytes().starts_with(writer.bytes()),
    )
}

#[test]
fn each_write_fails(rt: HostRuntime) -> Result<(), Fail> {
    for (serially, text, answer) in [
        (
            false,
            OWN_READ_BEFORE_WRITE,
            "yes 1 committed 0 refused 0 withdrawn\n",
        ),
        (
            true,
            RANK_MOVES,
            "t1\nr1[0.x]=5\nw1[0.y]=3\nt2\nw2[0.x]=6\nfinal 0.x=6\nfinal 0.y=3\n",
        ),
    ] {
        for takes in 0..answer.len() {
            let fails = write_fails(rt.alloc(), serially, text, takes, answer)?;
            assert!(rt; fails, "{takes}");
        }
    }
    Ok(())
}

// A reader that fails behind the line with the fault isn't met.
#[test]
fn no_read_behind_a_fault(rt: HostRuntime) -> Result<(), Fail> {
    let wrong =
        "sgt 1\n{\"decisions\":[{\"commit\":1,\"rank\":0}],\"sites\":1}\nsite 0\nitem x=5\nr1[x]=4\n";
    for serially in [false, true] {
        let mut reader = MemSource::new(wrong.as_bytes(), 1, Some(wrong.len() as u64 + 1));
        let mut writer = MemSink::new(rt.alloc(), 100)?;
        let fail = fail_of(rt.alloc(), serially, &mut reader, &mut writer);
        assert!(rt; fail.is_none() && writer.bytes() == b"no line 5 F10\n".as_slice());
    }
    Ok(())
}

/// Texts that are valid, and how many of their transactions are committed and refused.
const VALID: [(&str, u64, u64); 3] = [
    (OWN_READ_BEFORE_WRITE, 1, 0),
    (ONLY_CYCLE, 1, 1),
    (READER_TORN, 1, 1),
];

/// What is answered on the text.
fn answer(alloc: Global, text: &str) -> Result<Verdict, EngineFail> {
    let mut reader = MemSource::new(text.as_bytes(), 65_536, None);
    let mut writer = MemSink::new(alloc, 100)?;
    audit(alloc, &mut reader, &mut writer)
}

fn yes(committed: u64, refused: u64) -> Verdict {
    Verdict::Yes {
        committed,
        refused,
        withdrawn: 0,
    }
}

// Where no growth is refused, memory is never wanted.
#[test]
fn ample_audit(rt: HostRuntime) -> Result<(), Fail> {
    for (text, committed, refused) in VALID {
        assert_eq!(rt;
            answer(rt.alloc(), text),
            Ok(yes(committed, refused)),
            "{text}"
        );
    }
    Ok(())
}

// Where one growth is refused, its audit may want memory. None is refused to the same audit made again, which has its
// verdict: so one that wanted memory for no refusal would want it twice.
#[test]
fn growth_audit(rt: HostRuntime) -> Result<(), Fail> {
    for (text, committed, refused) in VALID {
        let mut found = answer(rt.alloc(), text);
        if found == Err(EngineFail::Memory) {
            found = answer(rt.alloc(), text);
        }
        assert_eq!(rt; found, Ok(yes(committed, refused)), "{text}");
    }
    Ok(())
}
