//! Lines, read and written.

use sgt_names::{Entry, Tx};
use sgt_notation::{
    LINE_ROOM, NotationFault, SectionLine, lines_are_read_back, lines_are_short, lines_have_no_lf,
    lines_have_one_reading, push_number, put_byte, put_bytes, put_last_number, read_entry,
    read_event, read_section, write_entry, write_section, write_section_line,
};
use std::alloc::AllocError;
use std::test::Fail;

/// Whether the line is read, and written again as it was.
fn is_read(out: &mut Vec<u8>, line: &str) -> Result<bool, AllocError> {
    out.clear();
    let Ok(found) = read_section(line.as_bytes()) else {
        return Ok(false);
    };
    write_section(out, &found)?;
    Ok(out.as_slice() == line.as_bytes())
}

const LINES: [&str; 13] = [
    "site 0",
    "site 63",
    "item a_b2c3d4e5f6g7_=18446744073709551615",
    "final x=7",
    "end",
    "r12[x_1]=5",
    "w4294967295[abcdefghijklmnop]=18446744073709551615",
    "d1[x]=3",
    "p1[r2]=10",
    "q2[x]=18446744073709551615",
    "c1",
    "n20",
    "a4294967295",
];

#[test]
fn lines_are_read_and_written(rt: HostRuntime) -> Result<(), Fail> {
    let mut out = Vec::new(rt.alloc());
    for line in LINES {
        assert!(rt; is_read(&mut out, line)?, "{line}");
    }
    lines_are_read_back();
    lines_are_short();
    lines_have_no_lf();
    lines_have_one_reading();
    Ok(())
}

/// Whether the bytes are no line of a section.
fn is_no_line(line: &[u8]) -> bool {
    match read_section(line) {
        Ok(_) => false,
        Err(fault) => fault == NotationFault::NotALine,
    }
}

const NO_LINES: [&str; 23] = [
    "",
    "end\n",
    "end ",
    "End",
    "sgt 1",
    "c1\r",
    "c+1",
    "c0",
    "c01",
    "d1",
    "q1[x]=",
    "c4294967296",
    "r1[x]=05",
    "r1[x]= 5",
    "r1[x]=18446744073709551616",
    "r1[X]=5",
    "r1[1x]=5",
    "r1[abcdefghijklmnopq]=5",
    "item  x=5",
    "final x==5",
    "site 64",
    "site 00",
    "site 256",
];

#[test]
fn other_bytes_are_refused(rt: HostRuntime) {
    for line in NO_LINES {
        assert!(rt; is_no_line(line.as_bytes()), "{line}");
    }
}

// One byte above the greatest length.
#[test]
fn lines_that_are_too_long(rt: HostRuntime) -> Result<(), Fail> {
    let long = vec![in rt.alloc(); b' '; 1_048_577]?;
    assert!(rt; read_entry(&long[1..]) == Err(NotationFault::NotALine));
    assert!(rt; read_entry(&long) == Err(NotationFault::TooLong));
    assert!(rt; read_section(&long) == Err(NotationFault::TooLong));
    assert!(rt; read_event(&long) == Err(NotationFault::TooLong));
    Ok(())
}

#[test]
fn numbers_and_entries_are_written_behind_what_is_there(rt: HostRuntime) -> Result<(), Fail> {
    let entry = Entry::Commit { tx: Tx::new(7)? };
    assert!(rt; read_entry(b"c7") == Ok(entry));
    let mut out = Vec::new(rt.alloc());
    push_number(&mut out, 0)?;
    push_number(&mut out, u64::MAX)?;
    write_entry(&mut out, &entry)?;
    write_section_line(&mut out, &SectionLine::End)?;
    assert!(rt; out.as_slice() == b"018446744073709551615c7end\n".as_slice());
    Ok(())
}

#[test]
fn a_line_is_put_together_from_its_end(rt: HostRuntime) {
    let mut line = [0u8; LINE_ROOM];
    let at = put_last_number(&mut line, u64::MAX);
    let at = put_byte(&mut line, at, b'=');
    let at = put_bytes(&mut line, at, b"final x");
    assert_eq!(rt; &line[at..], b"final x=18446744073709551615\n".as_slice());
}
