//! Scripts, read.

use sgt_names::{Item, SiteNo};
use sgt_notation::{NotationFault, Op, read_script};
use std::alloc::Global;
use std::test::Fail;

/// Whether the line is read as these operations.
fn is_script(alloc: Global, line: &str, wanted: &[Op]) -> bool {
    match read_script(alloc, line.as_bytes()) {
        Ok(script) => script.operations.as_slice() == wanted,
        Err(_) => false,
    }
}

#[test]
fn each_kind_of_operation(rt: HostRuntime) -> Result<(), Fail> {
    let (zero, site) = (SiteNo::new(0)?, SiteNo::new(63)?);
    let (item, x) = (Item::new(b"x_1")?, Item::new(b"x")?);
    let value = u64::MAX;
    let read = Op::Read { site, item };
    let put = Op::Put { site, item, value };
    let add = Op::Add { site, item, value };
    let sum = Op::Sum {
        site: zero,
        item: x,
        from_site: site,
        from_item: item,
        value: 1,
    };
    let alloc = rt.alloc();
    assert!(rt; is_script(alloc, "r[63.x_1]", &[read]));
    assert!(rt;
        is_script(
            alloc,
            "d[63.x_1]=18446744073709551615 r[63.x_1]",
            &[add, read]
        )
    );
    assert!(rt; is_script(alloc, "r[63.x_1] w[0.x]=63.x_1+1", &[read, sum]));
    assert!(rt;
        is_script(
            alloc,
            "w[63.x_1]=18446744073709551615 w[0.x]=63.x_1+1",
            &[put, sum]
        )
    );
    Ok(())
}

/// Whether the bytes are no script.
fn is_refused(alloc: Global, line: &[u8]) -> bool {
    match read_script(alloc, line) {
        Ok(_) => false,
        Err(fault) => fault == NotationFault::NotALine,
    }
}

const NO_SCRIPTS: [&str; 18] = [
    "",
    " ",
    "r[0.x] ",
    "r[0.x]  r[0.y]",
    "r[x]",
    "r[64.x]",
    "r[0.x]=5",
    "w[0.x]",
    "w[0.x]=05",
    "w[0.x]=18446744073709551616",
    "w[0.x]=5+1",
    "d[0.x]=0.x+1",
    "w[0.x]=0.x+1",
    "d[0.x]=1 w[0.x]=0.x+1",
    "r[1.x] w[0.x]=0.x+1",
    "w[0.x]=0.y+1 r[0.y]",
    "r[0.x] w[0.x]=0.x+",
    "c",
];

#[test]
fn other_bytes_are_no_scripts(rt: HostRuntime) {
    for line in NO_SCRIPTS {
        assert!(rt; is_refused(rt.alloc(), line.as_bytes()), "{line}");
    }
}
