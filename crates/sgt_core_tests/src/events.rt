//! What is told of events one after another, with each fault in its place: a fault that is told goes before each
//! greater one that is there too, and the events behind it go on. Expected answers are those of the table of events
//! and refusals.

use crate::rows::opened;
use sgt_core::{Core, CoreFault, Event, Reply, number_of, write_reply};
use sgt_names::{Item, SiteNo, Tx};
use sgt_notation::{EventLine, read_event};
use std::alloc::{AllocError, Global};
use std::test::Fail;

/// Events over x=5 at site 0 and y=2 at site 1, each with the line that is told of it. `gather` stands before the
/// line of the install that it comes before, and `decide` before that of the commit that it is a part of.
struct Script {
    name: &'static str,
    lines: &'static str,
}

const SCRIPTS: [Script; 10] = [
    Script {
        name: "E1, never begun",
        lines: "r1[0.x] -> ! E1
w1[0.x]=1 -> ! E1
d1[0.x]=1 -> ! E1
gather i1@0 -> ! E1
decide c1 -> ! E1
i1@0 -> ! E1
c1 -> ! E1
a1 -> ! E1
r1[5.q] -> ! E1
gather i1@9 -> ! E1
b -> b1
w1[0.x]=6 -> w1[0.x]=6
gather i1@0 -> gather i1@0
r2[0.x] -> ! E1
gather i2@0 -> ! E1
decide c2 -> ! E1
i2@1 -> ! E1
c2 -> ! E1
a2 -> ! E1
decide c1 -> decide c1 yes
i1@0 -> i1@0
z -> z 1",
    },
    Script {
        name: "E2, ended",
        lines: "b -> b1
c1 -> c1 yes
r1[0.x] -> ! E2
w1[0.x]=1 -> ! E2
d1[0.x]=1 -> ! E2
gather i1@0 -> ! E2
decide c1 -> ! E2
i1@0 -> ! E2
c1 -> ! E2
a1 -> ! E2
r1[5.q] -> ! E2
z -> z 1
r1[0.x] -> ! E2
gather i1@0 -> ! E2
decide c1 -> ! E2
i1@0 -> ! E2
c1 -> ! E2
a1 -> ! E2
b -> b2
w2[1.y]=3 -> w2[1.y]=3
gather i2@1 -> gather i2@1
gather i1@0 -> ! E2
c1 -> ! E2
decide c2 -> decide c2 yes
i2@1 -> i2@1
i2@1 -> ! E2
z -> z 2",
    },
    Script {
        name: "E3, a step is open",
        lines: "b -> b1
b -> b2
r1[0.x] -> r1[0.x]=5
gather i1@0 -> gather i1@0
r1[0.x] -> ! E3
w1[0.x]=6 -> ! E3
d1[0.x]=1 -> ! E3
r1[5.q] -> ! E3
gather i2@0 -> ! E3
gather i2@9 -> ! E3
decide c2 -> ! E3
i2@1 -> ! E3
b -> ! E3
c1 -> ! E3
c2 -> ! E3
a1 -> ! E3
a2 -> ! E3
z -> ! E3
r2[0.x] -> r2[0.x]=5
w2[1.y]=3 -> w2[1.y]=3
decide c1 -> decide c1 yes
r1[0.x] -> ! E3
i1@0 -> i1@0
c2 -> c2 yes
z -> z 2",
    },
    Script {
        name: "E4, no such site or item",
        lines: "b -> b1
r1[0.q] -> ! E4
r1[1.x] -> ! E4
r1[2.x] -> ! E4
w1[0.q]=1 -> ! E4
d1[2.x]=1 -> ! E4
gather i1@2 -> ! E4
gather i1@15 -> ! E4
i1@2 -> ! E4
r1[0.x] -> r1[0.x]=5
a1 -> a1
z -> z 0",
    },
    Script {
        name: "E5, not gathered or not decided",
        lines: "b -> b1
r1[0.x] -> r1[0.x]=5
w1[1.y]=3 -> w1[1.y]=3
decide c1 -> ! E5
i1@0 -> ! E5
gather i1@1 -> gather i1@1
decide c1 -> ! E5
i1@1 -> ! E5
i1@0 -> ! E5
gather i1@0 -> gather i1@0
i1@0 -> ! E5
decide c1 -> decide c1 yes
i1@1 -> i1@1
i1@0 -> i1@0
z -> z 1",
    },
    Script {
        name: "E6, done before",
        lines: "b -> b1
b -> b2
w1[0.x]=6 -> w1[0.x]=6
w1[1.y]=7 -> w1[1.y]=7
gather i1@0 -> gather i1@0
gather i1@0 -> ! E6
gather i1@1 -> gather i1@1
gather i1@0 -> ! E6
decide c1 -> decide c1 yes
decide c1 -> ! E6
gather i1@0 -> ! E6
i1@0 -> i1@0
i1@0 -> ! E6
gather i1@0 -> ! E6
decide c1 -> ! E6
r2[0.x] -> r2[0.x]=6
r2[1.y] -> r2[1.y]=2
w2[1.y]=9 -> w2[1.y]=9
d2[0.x]=1 -> d2[0.x]=1
z -> ! E3
r1[0.x] -> ! E3
i1@1 -> i1@1
i1@1 -> ! E2
r2[0.x] -> r2[0.x]=7
c2 -> c2 no
z -> z 1",
    },
    Script {
        name: "E8, a transaction is active",
        lines: "z -> z 0
b -> b1
z -> ! E8
w1[0.x]=6 -> w1[0.x]=6
z -> ! E8
c1 -> c1 yes
z -> z 1
z -> z 1",
    },
    Script {
        name: "E12, not touched",
        lines: "b -> b1
w1[0.x]=6 -> w1[0.x]=6
gather i1@1 -> ! E12
i1@1 -> ! E5
gather i1@0 -> gather i1@0
gather i1@1 -> ! E12
i1@1 -> ! E5
decide c1 -> decide c1 yes
i1@1 -> ! E12
gather i1@1 -> ! E12
i1@0 -> i1@0
z -> z 1",
    },
    Script {
        name: "an increment, then a read",
        lines: "z -> z 0
b -> b1
d1[0.x]=3 -> d1[0.x]=3
r1[0.x] -> r1[0.x]=8
r1[0.y] -> ! E4
r2[0.y] -> ! E1
decide c1 -> ! E5
z -> ! E8
gather i1@0 -> gather i1@0
gather i1@0 -> ! E6
i1@0 -> ! E5
decide c1 -> decide c1 yes
z -> ! E3
i1@0 -> i1@0
z -> z 1",
    },
    Script {
        name: "a lost update",
        lines: "b -> b1
b -> b2
r1[0.x] -> r1[0.x]=5
r2[0.x] -> r2[0.x]=5
w1[0.x]=9 -> w1[0.x]=9
w2[0.x]=9 -> w2[0.x]=9
c1 -> c1 yes
v2 -> v2 no
i2@0 -> i2@0
b -> b3
r3[0.x] -> r3[0.x]=9
a3 -> a3
z -> z 1",
    },
];

/// What is a part of a step: a gather for an install, a decision for a commit.
fn part_of(event: Event) -> Option<Event> {
    match event {
        Event::Install { tx, site } => Some(Event::Gather { tx, site }),
        Event::Commit { tx } => Some(Event::Decide { tx }),
        _ => None,
    }
}

/// The part of a step that stands behind a word.
fn part_in(line: &[u8]) -> Option<Event> {
    match read_event(line) {
        Ok(EventLine::One(event)) => part_of(event),
        _ => None,
    }
}

fn serve_line(core: &mut Core, line: &EventLine) -> Reply {
    match line {
        EventLine::One(event) => core.step(*event),
        EventLine::ToDecide(tx) => core.to_decide(*tx),
    }
}

/// What the core replies to what the text spells.
fn serve(core: &mut Core, text: &str) -> Option<Reply> {
    let bytes = text.as_bytes();
    if let Some(line) = bytes.strip_prefix(b"gather ") {
        let event = part_in(line)?;
        return Some(core.step(event));
    }
    if let Some(line) = bytes.strip_prefix(b"decide ") {
        let event = part_in(line)?;
        return Some(core.step(event));
    }
    let line = read_event(bytes).ok()?;
    Some(serve_line(core, &line))
}

/// Whether the core answers a line's event as the line says.
fn answers(alloc: Global, core: &mut Core, line: &str) -> Result<bool, AllocError> {
    let Some((event, said)) = line.split_once(" -> ") else {
        return Ok(false);
    };
    let Some(reply) = serve(core, event) else {
        return Ok(false);
    };
    let mut told = Vec::new(alloc);
    write_reply(&mut told, event.as_bytes(), &reply)?;
    Ok(told.as_slice() == said.as_bytes())
}

/// The first line of the script that isn't answered so.
fn first_wrong(
    alloc: Global,
    core: &mut Core,
    lines: &'static str,
) -> Result<Option<&'static str>, AllocError> {
    for line in lines.lines() {
        if !answers(alloc, core, line)? {
            return Ok(Some(line));
        }
    }
    Ok(None)
}

#[test]
fn scripts(rt: HostRuntime) -> Result<(), Fail> {
    for script in &SCRIPTS {
        let mut core = opened(rt.alloc(), "site 0 x=5\nsite 1 y=2\n").ok_or("a core")?;
        let wrong = first_wrong(rt.alloc(), &mut core, script.lines);
        assert!(rt; matches!(wrong, Ok(None)), "{}", script.name);
    }
    Ok(())
}

/// Whether so many transactions begin, one after another, and no further one: the window is full.
fn fills(core: &mut Core, places: u64) -> bool {
    for number in 1..=places {
        match core.step(Event::Begin) {
            Reply::Begun { tx } if u64::from(tx.number()) == number => {}
            _ => return false,
        }
    }
    core.step(Event::Begin)
        == Reply::Fault {
            fault: CoreFault::WindowFull,
        }
}

const IN_A_FULL_WINDOW: &str = "w4096[0.x]=9 -> w4096[0.x]=9
gather i4096@0 -> gather i4096@0
b -> ! E3
decide c4096 -> decide c4096 yes
i4096@0 -> i4096@0
b -> ! E7";

// In a step the smaller fault is told, and behind it the greater again.
#[test]
fn full_window(rt: HostRuntime) -> Result<(), Fail> {
    let mut core = opened(rt.alloc(), "site 0 x=5\n").ok_or("a core")?;
    assert!(rt; fills(&mut core, 4096) && core.active() == 4096);
    let wrong = first_wrong(rt.alloc(), &mut core, IN_A_FULL_WINDOW);
    assert!(rt; matches!(wrong, Ok(None)));
    Ok(())
}

#[test]
fn run(rt: HostRuntime) -> Result<(), Fail> {
    let mut core = opened(rt.alloc(), "site 0 x=5\n").ok_or("a core")?;
    let (tx, site, item) = (Tx::new(1)?, SiteNo::new(0)?, Item::new(b"x")?);
    let events = [Event::Begin, Event::Read { tx, site, item }];
    let replies = core.run(rt.alloc(), events.as_slice())?;
    assert!(rt; replies.as_slice() == [Reply::Begun { tx }, Reply::Value { value: 5 }].as_slice());
    Ok(())
}

/// The faults in the order of their numbers, from 1.
const FAULTS: [CoreFault; 12] = [
    CoreFault::Unknown,
    CoreFault::Ended,
    CoreFault::StepOpen,
    CoreFault::UnknownItem,
    CoreFault::NotGathered,
    CoreFault::AlreadyDone,
    CoreFault::WindowFull,
    CoreFault::ActiveLeft,
    CoreFault::Memory,
    CoreFault::GenerationsSpent,
    CoreFault::NumbersSpent,
    CoreFault::NotTouched,
];

const WRITTEN: &str = "sgt 1
{\"decisions\":[{\"commit\":1,\"rank\":0}],\"sites\":2}
site 0
item x=5
r1[x]=5
w1[x]=6
c1
final x=6
end
site 1
item y=2
final y=2
end
";

#[test]
fn text_of_a_core_given_up(rt: HostRuntime) -> Result<(), Fail> {
    let mut core = opened(rt.alloc(), "site 0 x=5\nsite 1 y=2\n").ok_or("a core")?;
    for line in ["b", "r1[0.x]", "w1[0.x]=6", "c1"] {
        assert!(rt; serve(&mut core, line).is_some());
    }
    match core.into_text(rt.alloc()) {
        Ok(text) => assert!(rt; text.as_slice() == WRITTEN.as_bytes()),
        Err(_) => assert!(rt; false),
    }
    Ok(())
}

/// Whether the fault's text begins with this number.
fn begins_with(alloc: Global, fault: CoreFault, number: u64) -> Result<bool, AllocError> {
    let text = format!(in alloc; "{fault}")?;
    let start = format!(in alloc; "E{number}: ")?;
    Ok(text.starts_with(start.as_str()) && number_of(fault) == number)
}

#[test]
fn texts_of_faults(rt: HostRuntime) -> Result<(), Fail> {
    for (number, fault) in (1u64..=12).zip(FAULTS) {
        let begins = begins_with(rt.alloc(), fault, number)?;
        assert!(rt; begins, "{number}");
    }
    Ok(())
}
