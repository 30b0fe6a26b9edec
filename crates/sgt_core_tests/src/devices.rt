//! Readers that fail behind a fault. Readers and writers that fail elsewhere stand in `sgt_rows`.

use sgt_core::replay;
use sgt_names::{MemSink, MemSource, Outcome};
use std::alloc::Global;
use std::test::Fail;

/// Whether the replay of the input, a byte a read, ends and writes so where the reads behind so many of its bytes fail.
fn reads_no_more(alloc: Global, input: &[u8], bytes: usize, said: &str) -> Result<bool, Fail> {
    let behind = (bytes as u64).saturating_add(1);
    let mut source = MemSource::new(input, 1, Some(behind));
    let mut sink = MemSink::new(alloc, 50)?;
    let outcome = replay(alloc, &mut source, &mut sink)?;
    Ok(outcome == Outcome::Unreadable && sink.bytes() == said.as_bytes())
}

// Behind a line that can't be read no read is made, nor behind the byte by which one is too long.
#[test]
fn reads_behind_a_fault(rt: HostRuntime) -> Result<(), Fail> {
    let alloc = rt.alloc();
    let ends = reads_no_more(alloc, b"site 0\nq\nb\n", 9, "! L1 line 2\n")?;
    assert!(rt; ends);
    let mut long = Vec::from_slice(alloc, b"site 0\n")?;
    long.extend_from_slice(vec![in alloc; b'b'; 1_048_578]?.as_slice())?;
    let ends = reads_no_more(alloc, long.as_slice(), 1_048_584, "! L2 line 2\n")?;
    assert!(rt; ends);
    Ok(())
}
