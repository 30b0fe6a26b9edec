//! Worked rows of a replay, and cores over their sites.

ghost use Rattle.std.specs.Prelude.{◌≤◌};
ghost use Rattle.sgt_names.specs.Limits.{max_sites};

use sgt_core::{Core, Reading, read_input};
use sgt_names::{Holding, Listed, MemSource};
use sgt_notation::SiteLine;
use std::alloc::{AllocError, Global};

/// A worked row: sites and events, and what is written of them.
pub struct Row {
    pub name: &'static str,
    pub input: &'static str,
    pub output: &'static str,
}

pub const ROWS: [Row; 4] = [
    Row {
        name: "only_cycle_there_is",
        input: "site 0 x=5 y=2
b
b
r1[0.x]
r2[0.y]
w1[0.y]=7
w2[0.x]=8
c1
c2
",
        output: r#"b1
b2
r1[0.x]=5
r2[0.y]=2
w1[0.y]=7
w2[0.x]=8
c1 yes
c2 no
---
sgt 1
{"decisions":[{"commit":1,"rank":0},{"refuse":2,"walk":[{"item":"y","kind":"rw","site":0,"to":1},{"item":"x","kind":"rw","site":0,"to":2}]}],"sites":1}
site 0
item x=5
item y=2
r1[x]=5
r2[y]=2
w1[y]=7
c1
p2[x]=8
n2
final x=5
final y=7
end
"#,
    },
    Row {
        name: "rank_moves_after_commit",
        input: "site 0 x=5 y=2
b
b
r1[0.x]
w2[0.x]=6
c2
w1[0.y]=3
c1
",
        output: r#"b1
b2
r1[0.x]=5
w2[0.x]=6
c2 yes
w1[0.y]=3
c1 yes
---
sgt 1
{"decisions":[{"commit":2,"rank":1},{"commit":1,"rank":0}],"sites":1}
site 0
item x=5
item y=2
r1[x]=5
w2[x]=6
c2
w1[y]=3
c1
final x=6
final y=3
end
"#,
    },
    Row {
        name: "ranks_continue_after_close",
        input: "site 0 x=5 y=2
b
b
r1[0.x]
w2[0.x]=6
c2
w1[0.y]=3
c1
z
b
w3[0.x]=9
c3
",
        output: r#"b1
b2
r1[0.x]=5
w2[0.x]=6
c2 yes
w1[0.y]=3
c1 yes
z 2
b3
w3[0.x]=9
c3 yes
---
sgt 1
{"decisions":[{"commit":2,"rank":1},{"commit":1,"rank":0},{"commit":3,"rank":2}],"sites":1}
site 0
item x=5
item y=2
r1[x]=5
w2[x]=6
c2
w1[y]=3
c1
w3[x]=9
c3
final x=9
final y=3
end
"#,
    },
    Row {
        name: "reader_torn_by_install",
        input: "site 0 x=5
site 1 y=2
b
b
w1[0.x]=6
w1[1.y]=3
v1
i1@0
r2[0.x]
r2[1.y]
i1@1
c2
",
        output: r#"b1
b2
w1[0.x]=6
w1[1.y]=3
v1 yes
i1@0
r2[0.x]=6
r2[1.y]=2
i1@1
c2 no
---
sgt 1
{"decisions":[{"commit":1,"rank":0},{"refuse":2,"walk":[{"item":"y","kind":"rw","site":1,"to":1},{"item":"x","kind":"wr","site":0,"to":2}]}],"sites":2}
site 0
item x=5
w1[x]=6
c1
r2[x]=6
n2
final x=6
end
site 1
item y=2
r2[y]=2
w1[y]=3
c1
n2
final y=3
end
"#,
    },
];

/// A core over the sites of an input. None: the input can't be read, or memory ran out.
pub fn opened(alloc: Global, input: &str) -> Option<Core> {
    let mut source = MemSource::new(input.as_bytes(), 65_536, None);
    match read_input(alloc, &mut source) {
        Ok(Reading::Readable(input)) => match items_of(alloc, input.sites) {
            Ok(items) => core_of(alloc, items.as_slice()),
            Err(_) => None,
        },
        _ => None,
    }
}

fn items_of(alloc: Global, sites: Listed<SiteLine>) -> Result<Vec<Listed<Holding>>, AllocError> {
    let mut items = Vec::new(alloc);
    for site in sites.into_vec() {
        items.push(site.items)?;
    }
    Ok(items)
}

fn core_of(alloc: Global, items: &[Listed<Holding>]) -> Option<Core> {
    if items.is_empty() || items.len() > 64 {
        return None;
    }
    Core::new(alloc, items).ok()
}
