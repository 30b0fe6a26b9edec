//! A talk in memory.

ghost use Rattle.std.specs.Prelude.{◌≡◌, ◌<◌, Err};

use sgt_names::{MAX_LINE, MemSink, MemSource, Outcome};
use sgt_serve::{
    Bundles, Handed, HandedBundle, KeepFault, Last, MemBundles, NoBundles, Pipe, Refusals,
    ServeFail, serve,
};
use std::test::Fail;

// Replies, a cut that is refused, two that are made, a line that asks nothing, and a last line without its LF.
#[test]
fn a_talk_is_answered_and_cut(rt: HostRuntime) -> Result<(), Fail> {
    let alloc = rt.alloc();
    let input = b"site 0 x=5\nb\nw1[0.x]=6\nx\nc1\nx\nhello\nb\nr1[0.x]\nc1\nb\nx";
    let said = b"b1\nw1[0.x]=6\n! E8\nc1 yes\nx 1\n! L1\nb1\nr1[0.x]=6\nc1 yes\nb2\n! L1\n";
    let mut pipe = Pipe::new(MemSource::new(input, 7, None), MemSink::new(alloc, 200)?);
    let mut bundles = MemBundles::new(alloc, 0);
    let outcome = serve(alloc, &mut pipe, &mut bundles)?;
    assert!(rt; outcome == Outcome::Yes);
    let (_source, sink) = pipe.into_parts();
    assert!(rt; sink.bytes() == said.as_slice());
    let last =
        b"sgt 1\n{\"decisions\":[{\"commit\":1,\"rank\":0},{\"withdraw\":2}],\"sites\":1}\nsite 0\nitem x=6\nr1[x]=6\nc1\nfinal x=6\nend\n";
    let texts = bundles.texts();
    assert!(rt; texts.len() == 2);
    let second = texts[1].as_slice();
    assert!(rt; second == last.as_slice());
    Ok(())
}

// A place that refuses once, and then a read that fails: what was done is kept at the end.
#[test]
fn a_read_that_fails_leaves_the_last_bundle(rt: HostRuntime) -> Result<(), Fail> {
    let alloc = rt.alloc();
    let input = b"site 0 x=5\nb\nw1[0.x]=6\nc1\nx\n";
    let said = b"b1\nw1[0.x]=6\nc1 yes\n! B\n";
    let source = MemSource::new(input, 64, Some(2));
    let mut pipe = Pipe::new(source, MemSink::new(alloc, 200)?);
    let mut bundles = MemBundles::new(alloc, 1);
    let is_fault = match serve(alloc, &mut pipe, &mut bundles) {
        Err(ServeFail::ReadFault(Last::Done)) => true,
        _ => false,
    };
    assert!(rt; is_fault);
    let (_source, sink) = pipe.into_parts();
    assert!(rt; sink.bytes() == said.as_slice());
    let last =
        b"sgt 1\n{\"decisions\":[{\"commit\":1,\"rank\":0}],\"sites\":1}\nsite 0\nitem x=5\nw1[x]=6\nc1\nfinal x=6\nend\n";
    let texts = bundles.texts();
    assert!(rt; texts.len() == 1);
    let first = texts[0].as_slice();
    assert!(rt; first == last.as_slice());
    Ok(())
}

// A place that has no memory for so many bundles, and keeps what comes then.
#[derive(Drop)]
struct Forgetful {
    lacks: u64,
    handed: Handed,
    refusals: Refusals,
}

impl Forgetful {
    fn new(lacks: u64) -> Forgetful {
        Forgetful {
            lacks,
            handed: Handed::new(),
            refusals: Refusals::new(),
        }
    }

    fn answer(&mut self) -> Result<u64, KeepFault>
        ensures handed { self.new.handed ≡ self.old.handed }
        ensures memory { result ≡ Err KeepFault.Memory → self.old.refusals < self.new.refusals }
    {
        if self.lacks == 0 {
            return Ok(1);
        }
        self.lacks -= 1;
        self.refusals.note();
        Err(KeepFault::Memory)
    }
}

impl Bundles for Forgetful {
    ghost handed = { λ b. b.handed };

    ghost refusals = { λ b. b.refusals };

    fn keep(&mut self, text: &[u8]) -> Result<u64, KeepFault> {
        let answer = self.answer();
        self.handed = self.handed.with(&HandedBundle { text, answer });
        answer
    }
}

// A place without memory: the cut is refused for that, nothing is lost, and it may be asked for again; at the end it
// is want of memory.
#[test]
fn a_place_without_memory_is_told_as_such(rt: HostRuntime) -> Result<(), Fail> {
    let alloc = rt.alloc();
    let input = b"site 0 x=5\nb\nw1[0.x]=6\nc1\nx\nx\nb\nr1[0.x]\na1\n";
    let said = b"b1\nw1[0.x]=6\nc1 yes\n! E9\nx 1\nb1\nr1[0.x]=6\na1\n";
    let mut pipe = Pipe::new(MemSource::new(input, 64, None), MemSink::new(alloc, 200)?);
    let mut bundles = Forgetful::new(1);
    let outcome = serve(alloc, &mut pipe, &mut bundles)?;
    assert!(rt; outcome == Outcome::Yes);
    let (_source, sink) = pipe.into_parts();
    assert!(rt; sink.bytes() == said.as_slice());
    let mut pipe = Pipe::new(MemSource::new(input, 64, None), MemSink::new(alloc, 200)?);
    let mut bundles = Forgetful::new(3);
    let is_memory = match serve(alloc, &mut pipe, &mut bundles) {
        Err(ServeFail::Memory) => true,
        _ => false,
    };
    assert!(rt; is_memory);
    Ok(())
}

#[test]
fn a_place_that_keeps_none_counts(rt: HostRuntime) -> Result<(), Fail> {
    let mut bundles = NoBundles::new();
    let first = bundles.keep(b"sgt 1\n")?;
    let second = bundles.keep(b"sgt 1\n")?;
    assert!(rt; first == 1);
    assert!(rt; second == 2);
    Ok(())
}

// In front of the first event a part of a line and a line that is too long are told by their number, and end the talk.
#[test]
fn a_front_that_cant_be_read_is_told(rt: HostRuntime) -> Result<(), Fail> {
    let alloc = rt.alloc();
    let source = MemSource::new(b"site 0 x=5\nb", 64, None);
    let mut pipe = Pipe::new(source, MemSink::new(alloc, 200)?);
    let outcome = serve(alloc, &mut pipe, &mut NoBundles::new())?;
    assert!(rt; outcome == Outcome::Unreadable);
    let (_source, sink) = pipe.into_parts();
    assert!(rt; sink.bytes() == b"! L1 line 2\n".as_slice());
    let mut input = Vec::from_slice(alloc, b"site 0 x=5\n")?;
    let line = vec![in alloc; b'b'; MAX_LINE + 1]?;
    input.extend_from_slice(line.as_slice())?;
    let source = MemSource::new(input.as_slice(), 65_536, None);
    let mut pipe = Pipe::new(source, MemSink::new(alloc, 200)?);
    let outcome = serve(alloc, &mut pipe, &mut NoBundles::new())?;
    assert!(rt; outcome == Outcome::Unreadable);
    let (_source, sink) = pipe.into_parts();
    assert!(rt; sink.bytes() == b"! L2 line 2\n".as_slice());
    Ok(())
}
