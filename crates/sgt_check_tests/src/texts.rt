//! What no clause says: that texts are read where memory can be had.

use sgt_history::{Kind, Operation};
use sgt_history_text::{
    HistoryText, LineFault, MAX_HISTORY_LINE, Names, Reading, Wanted, read_history,
};
use sgt_names::MemSource;
use std::alloc::Global;
use std::test::Fail;

/// Neither times nor sessions.
const NOTHING: Wanted = Wanted {
    real_time: false,
    sessions: false,
};

/// What the bytes are read as, a few at a time.
fn told(alloc: Global, bytes: &[u8]) -> Result<HistoryText, Fail> {
    let mut reader = MemSource::new(bytes, 7, None);
    Ok(read_history(alloc, &mut reader, NOTHING)?)
}

/// The line and the fault, if it is no history.
fn fault(alloc: Global, bytes: &[u8]) -> Result<Option<(u64, LineFault)>, Fail> {
    match told(alloc, bytes)? {
        HistoryText::Read(_) => Ok(None),
        HistoryText::Unreadable { line, fault } => Ok(Some((line, fault))),
    }
}

const TWO: &str =
    "{\"tx\":\"T-1\",\"end\":\"commit\",\"ops\":[[\"r\",\"c\\u0031\",0],[\"w\",5,1,\"5\"]]}\n { \"ops\" : [[\"r\", \"5\", 0], [\"r\",5,1,\"\\u0035\"], [\"w\",\"c1\",18446744073709551615, -9223372036854775808]], \"more\":[{\"tx\":1}], \"end\":\"commit\", \"tx\":[], \"tx\":7, \"end\":\"abort\" }\r\n";

/// Whether the name with the number is this one.
fn is_name(names: &Names, number: usize, text: &str) -> bool {
    number < names.len() && names.get(number) == text.as_bytes()
}

#[test]
fn two_lines(rt: HostRuntime) -> Result<(), Fail> {
    let HistoryText::Read(reading) = told(rt.alloc(), TWO.as_bytes())? else {
        return Err(Fail::new("no history"));
    };
    let Reading {
        history,
        ids,
        items,
        values,
        ..
    } = &reading;
    assert_eq!(rt; ids.len(), 2);
    assert!(rt; is_name(ids, 0, "\"T-1\"") && is_name(ids, 1, "7"));
    assert_eq!(rt; items.len(), 3);
    assert!(rt;
        is_name(items, 0, "\"c1\"") && is_name(items, 1, "5") && is_name(items, 2, "\"5\"")
    );
    assert_eq!(rt; values.len(), 2);
    assert!(rt; is_name(values, 0, "\"5\"") && is_name(values, 1, "-9223372036854775808"));
    assert_eq!(rt; history.lines.len(), 2);
    assert!(rt; history.lines[0].commits && !history.lines[1].commits);
    assert_eq!(rt; history.lines[0].end, 2);
    assert_eq!(rt; history.lines[1].end, 5);
    let last = Operation {
        version: u64::MAX,
        item: 0,
        kind: Kind::Write,
        value: Some(1),
    };
    assert!(rt; history.operations[4] == last);
    assert!(rt; history.operations[1].value == history.operations[3].value);
    Ok(())
}

#[test]
fn no_line_and_no_last_lf(rt: HostRuntime) -> Result<(), Fail> {
    let HistoryText::Read(reading) = told(rt.alloc(), b"")? else {
        return Err(Fail::new("no history"));
    };
    assert!(rt; reading.ids.is_empty() && reading.history.lines.is_empty());
    let cut = b"{\"tx\":0,\"end\":\"abort\",\"ops\":[]}";
    assert!(rt; fault(rt.alloc(), cut)?.is_none());
    Ok(())
}

#[test]
fn lines_that_are_none(rt: HostRuntime) -> Result<(), Fail> {
    for line in [
        "",
        "[]",
        "\u{feff}{\"tx\":1,\"end\":\"commit\",\"ops\":[]}",
        "{\"tx\":1,\"end\":\"commit\"}",
        "{\"tx\":\"\",\"end\":\"commit\",\"ops\":[]}",
        "{\"tx\":-1,\"end\":\"commit\",\"ops\":[]}",
        "{\"tx\":1,\"end\":\"Commit\",\"ops\":[]}",
        "{\"tx\":1,\"end\":\"commit\",\"ops\":[],\"x\":\"\\ud800\"}",
        "{\"tx\":1,\"end\":\"commit\",\"ops\":[[\"w\",1,0]]}",
        "{\"tx\":1,\"end\":\"commit\",\"ops\":[[\"r\",1,-1]]}",
        "{\"tx\":1,\"end\":\"commit\",\"ops\":[[\"r\",1,1.0]]}",
        "{\"tx\":1,\"end\":\"commit\",\"ops\":[[\"r\",1,1e3]]}",
        "{\"tx\":1,\"end\":\"commit\",\"ops\":[[\"r\",1,-0]]}",
        "{\"tx\":1,\"end\":\"commit\",\"ops\":[[\"r\",1,18446744073709551616]]}",
        "{\"tx\":1,\"end\":\"commit\",\"ops\":[[\"r\",1,1,[]]]}",
        "{\"tx\":1,\"end\":\"commit\",\"ops\":[[\"r\",1,1,1,1]]}",
        "{\"tx\":1,\"end\":\"commit\",\"ops\":[[\"x\",1,1]]}",
    ] {
        let text = format!(in rt.alloc();
            "{{\"tx\":0,\"end\":\"abort\",\"ops\":[]}}\n{line}\nx\n"
        )?;
        let found = fault(rt.alloc(), text.as_bytes())?;
        assert!(rt; found == Some((2, LineFault::NotALine)), "{line}");
    }
    let broken = b"{\"tx\":\"\xff\",\"end\":\"commit\",\"ops\":[]}\n";
    assert!(rt; fault(rt.alloc(), broken)? == Some((1, LineFault::NotALine)));
    Ok(())
}

#[test]
fn an_id_again(rt: HostRuntime) -> Result<(), Fail> {
    let text =
        b"{\"tx\":7,\"end\":\"abort\",\"ops\":[]}\n{\"tx\":\"7\",\"end\":\"commit\",\"ops\":[]}\n{\"end\":\"abort\",\"ops\":[],\"tx\":7}\n";
    assert!(rt; fault(rt.alloc(), text)? == Some((3, LineFault::IdAgain)));
    Ok(())
}

#[test]
fn a_long_line(rt: HostRuntime) -> Result<(), Fail> {
    let mut text = Vec::from_slice(rt.alloc(), b"{\"tx\":1,\"end\":\"commit\",\"ops\":[]}")?;
    text.resize(MAX_HISTORY_LINE + 1, b' ')?;
    let mut reader = MemSource::new(text.as_slice(), 65536, None);
    match read_history(rt.alloc(), &mut reader, NOTHING)? {
        HistoryText::Unreadable { line, fault } => {
            assert!(rt; line == 1 && fault == LineFault::TooLong);
        }
        HistoryText::Read(_) => return Err(Fail::new("a long line was read")),
    }
    Ok(())
}

#[test]
fn a_deep_line(rt: HostRuntime) -> Result<(), Fail> {
    let mut text = Vec::from_slice(rt.alloc(), b"{\"tx\":1,\"ops\":[],\"end\":\"abort\",\"x\":")?;
    text.resize(text.len() + 100_000, b'[')?;
    text.resize(text.len() + 100_000, b']')?;
    text.push(b'}')?;
    assert!(rt; fault(rt.alloc(), text.as_slice())?.is_none());
    text.push(b']')?;
    assert!(rt; fault(rt.alloc(), text.as_slice())? == Some((1, LineFault::NotALine)));
    Ok(())
}

/// What the bytes are read as, with times and sessions.
fn told_with(alloc: Global, bytes: &[u8]) -> Result<HistoryText, Fail> {
    let mut reader = MemSource::new(bytes, 7, None);
    let wanted = Wanted {
        real_time: true,
        sessions: true,
    };
    Ok(read_history(alloc, &mut reader, wanted)?)
}

#[test]
fn times_and_sessions(rt: HostRuntime) -> Result<(), Fail> {
    let text =
        b"{\"tx\":1,\"end\":\"commit\",\"ops\":[],\"begin\":3,\"done\":5,\"session\":\"a\"}\n{\"tx\":2,\"end\":\"abort\",\"ops\":[]}\n";
    let HistoryText::Read(reading) = told_with(rt.alloc(), text)? else {
        return Err(Fail::new("no history"));
    };
    let times = reading.times.as_slice();
    assert_eq!(rt; times.len(), 2);
    assert!(rt; times[1].is_none());
    assert!(rt;
        match times[0] {
            Some(ran) => ran.begin == 3 && ran.done == 5,
            None => false,
        }
    );
    let sessions = reading.sessions.as_slice();
    assert!(rt; sessions.len() == 2 && sessions[0] == Some(0) && sessions[1].is_none());
    assert!(rt; is_name(&reading.session_names, 0, "\"a\""));
    Ok(())
}
