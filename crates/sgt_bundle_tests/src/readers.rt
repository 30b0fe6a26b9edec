//! A reader, cut into lines.

use sgt_names::MemSource;
use sgt_notation::{Lines, Next, find_lf, what_comes_next_is_one};
use std::test::Fail;

const TEXT: &[u8] = b"site 0\n\nr1[x]=5\nlast";

#[test]
fn lines_come_in_any_pieces(rt: HostRuntime) -> Result<(), Fail> {
    let alloc = rt.alloc();
    let mut line = Vec::new(alloc);
    for per_read in [1usize, 3, 65_536] {
        let mut source = MemSource::new(TEXT, per_read, None);
        let mut lines = Lines::new(alloc)?;
        for (wanted, text) in [
            (Next::Line, "site 0"),
            (Next::Line, ""),
            (Next::Line, "r1[x]=5"),
            (Next::Cut, "last"),
            (Next::End, ""),
        ] {
            let next = lines.next(&mut source, &mut line, 7);
            assert!(rt; next == Ok(wanted), "{text} by {per_read}");
            assert!(rt; line.as_slice() == text.as_bytes(), "{text} by {per_read}");
        }
    }
    assert!(rt; find_lf(TEXT) == Some(6));
    what_comes_next_is_one();
    Ok(())
}
