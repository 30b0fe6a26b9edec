//! What each mistake is told as.

use sgt_history_words::{Asked, Tail, Unread, answered, unreadable};
use std::alloc::Global;
use std::test::Fail;

const PLAIN: Asked = Asked {
    real_time: false,
    sessions: false,
};

// Whether a line 7 is told so.
fn is_told(alloc: Global, asked: Asked, line: &[u8], words: &str) -> Result<bool, Fail> {
    let wanted = format!(in alloc; "sgt: line 7: {words}\n")?;
    match unreadable(alloc, 7, Unread::NotALine, line, asked)? {
        Some(text) => Ok(text.as_slice() == wanted.as_bytes()),
        None => Ok(words == "nothing"),
    }
}

#[test]
fn lines_that_are_no_json(rt: HostRuntime) -> Result<(), Fail> {
    for (line, words) in [
        (b"".as_slice(), "nothing stands in it"),
        (b" \r", "nothing stands in it"),
        (
            b"\xef\xbb\xbf{}",
            "it begins with a byte order mark (bytes ef bb bf)",
        ),
        (b"sgt 1", "not JSON, but the line of a bundle: sgt 1"),
        (b"{\"tx\":\"\xff\"}", "not UTF-8: column 8: \\xff\"}"),
        (
            b"pay-1,commit,r x 0",
            "not JSON: column 1: pay-1,commit,r x 0",
        ),
        (
            b"{\"tx\":1,\"end\":\"com",
            "not JSON: column 15: a string with no end: \"com",
        ),
        (
            b"{\"tx\":1,",
            "not JSON: the line ends behind column 8, in the midst of a value",
        ),
        (
            b"{\"tx\":\"\\ud800\"}",
            "not JSON: column 8: half a surrogate pair: \\ud800\"}",
        ),
        (
            b"{\"tx\":\"\\ud800\\udc00\\x\"}",
            "not JSON: column 20: an unknown escape: \\x\"}",
        ),
        (
            b"{\"tx\":\"a\tb\"}",
            "not JSON: column 9: a control character in a string: \\u0009b\"}",
        ),
        (b"{'tx':1}", "not JSON: column 2: 'tx':1}"),
        (b"{\"tx\":1 \"end\":2}", "not JSON: column 9: \"end\":2}"),
        (b"[{\"tx\":1}]", "not an object: [{\"tx\":1}]"),
        (b"{} {}\r", "behind the object stands {}"),
    ] {
        assert!(rt; is_told(rt.alloc(), PLAIN, line, words)?, "{words}");
    }
    Ok(())
}

#[test]
fn members_that_are_wrong(rt: HostRuntime) -> Result<(), Fail> {
    for (line, words) in [
        (b"{}".as_slice(), "no member \"tx\""),
        (b"{\"tx\":1}", "no member \"end\""),
        (b"{\"tx\":1,\"end\":\"abort\"}", "no member \"ops\""),
        (b"{\"tx\":1,\"end\":\"abort\",\"ops\":[]}", "nothing"),
        (
            b"{\"tx\": -1 , \"end\":\"abort\",\"ops\":[]}",
            "\"tx\" is -1, and has to be a string of 1 to 256 bytes or a whole number from 0 to 2^64-1",
        ),
        (
            b"{\"end\":\"committed\",\"tx\":1}",
            "\"end\" is \"committed\", and has to be \"commit\" or \"abort\"",
        ),
        (
            b"{\"end\":\"abort\",\"tx\":1,\"ops\":{\"a\":[1, 2]} }",
            "\"ops\" is {\"a\":[1, 2]}, and has to be an array of operations",
        ),
    ] {
        assert!(rt; is_told(rt.alloc(), PLAIN, line, words)?, "{words}");
    }
    Ok(())
}

#[test]
fn operations_that_are_wrong(rt: HostRuntime) -> Result<(), Fail> {
    for (operation, words) in [
        ("[\"r\",1,0],5", "ops[1] is 5, and has to be an array"),
        (
            "[\"r\",1]",
            "ops[0] has 2 elements, and has to have 3 or 4: [\"r\",1]",
        ),
        (
            "[\"r\",1,0,1,2]",
            "ops[0] has 5 elements, and has to have 3 or 4: [\"r\",1,0,1,2]",
        ),
        (
            "[\"read\",1,0]",
            "ops[0]: its kind is \"read\", and has to be \"r\" or \"w\"",
        ),
        (
            "[\"r\",null,0]",
            "ops[0]: its item is null, and has to be a string of 0 to 1024 bytes or a whole number from 0 to 2^64-1",
        ),
        (
            "[\"r\",\"x\",\"1\"]",
            "ops[0]: its version is \"1\", and has to be a whole number from 0 to 2^64-1",
        ),
        (
            "[\"r\",\"x\",-0]",
            "ops[0]: its version is -0, and has to be a whole number from 0 to 2^64-1",
        ),
        (
            "[\"r\",\"x\",0],[\"r\",\"x\",0],[\"w\",\"x\",0]",
            "ops[2]: a write's version is 0, and has to be from 1",
        ),
        (
            "[\"r\",\"x\",0,1.5]",
            "ops[0]: its value is 1.5, and has to be a string, a whole number from -2^63 to 2^64-1, true, false or null",
        ),
    ] {
        let line = format!(in rt.alloc(); "{{\"tx\":1,\"end\":\"abort\",\"ops\":[{operation}]}}")?;
        assert!(rt;
            is_told(rt.alloc(), PLAIN, line.as_bytes(), words)?,
            "{words}"
        );
    }
    Ok(())
}

#[test]
fn members_that_are_asked_for(rt: HostRuntime) -> Result<(), Fail> {
    let asked = Asked {
        real_time: true,
        sessions: true,
    };
    for (members, words) in [
        ("", "no member \"begin\""),
        (",\"begin\":5", "no member \"done\""),
        (
            ",\"begin\":5,\"done\":4",
            "\"begin\" is 5, and \"done\" is 4, which is less",
        ),
        (",\"begin\":5,\"done\":5", "no member \"session\""),
        (",\"begin\":5,\"done\":5,\"session\":\"\"", "nothing"),
    ] {
        let line = format!(in rt.alloc(); "{{\"tx\":1,\"end\":\"abort\",\"ops\":[]{members}}}")?;
        assert!(rt;
            is_told(rt.alloc(), asked, line.as_bytes(), words)?,
            "{words}"
        );
    }
    Ok(())
}

#[test]
fn an_id_again(rt: HostRuntime) -> Result<(), Fail> {
    let line = b"{\"ops\":[],\"tx\":\"a\\u0062\" ,\"end\":\"abort\"}";
    let told = unreadable(rt.alloc(), 3, Unread::IdAgain, line, PLAIN)?.ok_or("nothing")?;
    let words = b"sgt: line 3: \"tx\" is \"a\\u0062\", which an earlier line has\n";
    assert!(rt; told.as_slice() == words.as_slice());
    let long = unreadable(rt.alloc(), 1, Unread::TooLong, b"{", PLAIN)?.ok_or("nothing")?;
    let words = b"sgt: line 1: longer than 16777216 bytes, without its LF\n";
    assert!(rt; long.as_slice() == words.as_slice());
    Ok(())
}

#[test]
fn a_line_that_is_found(rt: HostRuntime) -> Result<(), Fail> {
    let mut tail = Tail::new(rt.alloc());
    for bytes in ["one\ntw", "o\nthree\nfo", "u", "r\nfive\n", "six"] {
        tail.pass(bytes.as_bytes());
    }
    assert!(rt; tail.line(5).is_none() && tail.line(7).is_none());
    assert!(rt; tail.line(6) == Some(b"six".as_slice()));
    assert!(rt; answered(b"! L3 line 12\n") == Some((Unread::IdAgain, 12)));
    assert!(rt; answered(b"yes 1 committed 0 aborted\n").is_none());
    Ok(())
}
