//! The pictures of small answers.

use sgt_history_picture::picture_of;
use std::test::Fail;

/// Two transactions, one below the other, an arrow down and one back to the first.
const WRITE_SKEW: &str = "\
<svg xmlns=\"http://www.w3.org/2000/svg\" width=\"640\" height=\"216\" viewBox=\"0 0 640 216\" font-family=\"monospace\" font-size=\"11\">\n\
<rect width=\"100%\" height=\"100%\" fill=\"#ffffff\"/>\n\
<text x=\"20\" y=\"22\">G2-item: each stands before the next in every order</text>\n\
<path stroke-width=\"2.5\" d=\"M20 42h25\" fill=\"none\" stroke=\"#007a5a\" stroke-dasharray=\"2 3\"/><path fill=\"#007a5a\" d=\"M45 37v10l9 -5z\"/><text x=\"62\" y=\"46\">ww: write, next write</text>\n\
<path stroke-width=\"2.5\" d=\"M236 42h25\" fill=\"none\" stroke=\"#0072b2\"/><path fill=\"#0072b2\" d=\"M261 37v10l9 -5z\"/><text x=\"278\" y=\"46\">wr: write, read</text>\n\
<path stroke-width=\"2.5\" d=\"M420 42h25\" fill=\"none\" stroke=\"#d55e00\" stroke-dasharray=\"8 4\"/><path fill=\"#d55e00\" d=\"M445 37v10l9 -5z\"/><text x=\"462\" y=\"46\">rw: read, next write</text>\n\
<path stroke-width=\"2.5\" d=\"M20 62h25\" fill=\"none\" stroke=\"#7b3294\" stroke-dasharray=\"10 3 2 3\"/><path fill=\"#7b3294\" d=\"M45 57v10l9 -5z\"/><text x=\"62\" y=\"66\">po: one session</text>\n\
<path stroke-width=\"2.5\" d=\"M236 62h25\" fill=\"none\" stroke=\"#555555\" stroke-dasharray=\"5 2\"/><path fill=\"#555555\" d=\"M261 57v10l9 -5z\"/><text x=\"278\" y=\"66\">rt: done before the other begins</text>\n\
<g><title>&quot;a&quot;</title><rect rx=\"5\" fill=\"#e8f0f8\" stroke=\"#333333\" height=\"26\" x=\"60\" width=\"60\" y=\"84\"/><text x=\"70\" y=\"101\">&quot;a&quot;</text></g>\n\
<g><title>&quot;a&quot; rw &quot;b&quot; &quot;y&quot; 0 1 lines 1 2</title><path stroke-width=\"2.5\" d=\"M90 110v31\" fill=\"none\" stroke=\"#d55e00\" stroke-dasharray=\"8 4\"/><path fill=\"#d55e00\" d=\"M85 141h10l-5 9z\"/><text x=\"104\" y=\"133\">rw &quot;y&quot; 0 1 lines 1 2</text></g>\n\
<g><title>&quot;b&quot;</title><rect rx=\"5\" fill=\"#e8f0f8\" stroke=\"#333333\" height=\"26\" x=\"60\" width=\"60\" y=\"150\"/><text x=\"70\" y=\"167\">&quot;b&quot;</text></g>\n\
<g><title>&quot;b&quot; rw &quot;a&quot; &quot;x&quot; 0 1 lines 2 1</title><path stroke-width=\"2.5\" d=\"M90 176v18H24V97H51\" fill=\"none\" stroke=\"#d55e00\" stroke-dasharray=\"8 4\"/><path fill=\"#d55e00\" d=\"M51 92v10l9 -5z\"/><text x=\"104\" y=\"198\">rw &quot;x&quot; 0 1 lines 2 1</text></g></svg>\n";

#[test]
fn draws_a_lost_update(rt: HostRuntime) -> Result<(), Fail> {
    let answer =
        b"no G-single\n\"a <&>'\\\" b\" ww 7 \"x\" 1 2 lines 1 2\n7 rw \"a <&>'\\\" b\" \"x\" 0 1 lines 2 1\n";
    let Some(text) = picture_of(rt.alloc(), answer)? else {
        return Err(Fail::new("no picture"));
    };
    let Ok(text) = std::str::from_utf8(text.as_slice()) else {
        return Err(Fail::new("no text"));
    };
    println!(rt; "{text}")?;
    assert!(rt; text.starts_with("<svg ") && text.ends_with("</svg>\n"));
    assert!(rt;
        text.contains(
            "<title>&quot;a &lt;&amp;&gt;&#39;\\&quot; b&quot; ww 7 &quot;x&quot; 1 2 lines 1 2</title>"
        )
    );
    assert!(rt;
        text.contains(
            "<title>7 rw &quot;a &lt;&amp;&gt;&#39;\\&quot; b&quot; &quot;x&quot; 0 1 lines 2 1</title>"
        )
    );
    Ok(())
}

#[test]
fn draws_what_xml_has(rt: HostRuntime) -> Result<(), Fail> {
    let answer =
        b"no G1c-realtime\n1 po 2 session \"\xef\xbf\xbf\x01\xef\xbf\xbe\xef\xbf\xbd\" lines 1 2\n2 rt 1 done 4 begin 5 lines 2 1\n";
    let Some(text) = picture_of(rt.alloc(), answer)? else {
        return Err(Fail::new("no picture"));
    };
    let Ok(text) = std::str::from_utf8(text.as_slice()) else {
        return Err(Fail::new("no text"));
    };
    assert!(rt;
        text.contains(
            "<title>1 po 2 session &quot;\u{fffd}\u{fffd}\u{fffd}\u{fffd}&quot; lines 1 2</title>"
        )
    );
    Ok(())
}

#[test]
fn draws_no_other_answer(rt: HostRuntime) -> Result<(), Fail> {
    let alloc = rt.alloc();
    assert!(rt; picture_of(alloc, b"yes 2 committed 0 aborted\n")?.is_none());
    assert!(rt;
        picture_of(
            alloc,
            b"no G1a\nline 2 \"T\" r \"x\" 8 written by \"U\" line 1\n"
        )?
        .is_none()
    );
    assert!(rt; picture_of(alloc, b"no order\n\"T\" po \"U\" session 1 lines 2 1\n")?.is_none());
    assert!(rt; picture_of(alloc, b"no G0\n")?.is_none());
    Ok(())
}

// The whole picture, as a browser showed it: boxes in their places, and the last arrow leads back to the first.
#[test]
fn draws_each_in_its_place(rt: HostRuntime) -> Result<(), Fail> {
    let answer =
        b"no G2-item\n\"a\" rw \"b\" \"y\" 0 1 lines 1 2\n\"b\" rw \"a\" \"x\" 0 1 lines 2 1\n";
    let Some(text) = picture_of(rt.alloc(), answer)? else {
        return Err(Fail::new("no picture"));
    };
    let Ok(text) = std::str::from_utf8(text.as_slice()) else {
        return Err(Fail::new("no text"));
    };
    assert_eq!(rt; text, WRITE_SKEW);
    Ok(())
}
