//! Expected values are worked by hand.

use sgt_bundle::{Bundle, SiteLog, from_line};
use sgt_names::{Item, Listed, SiteNo};
use sgt_notation::{SectionLine, read_section};
use sgt_serial::{SerialFail, SerialReport, serial_run};
use std::alloc::Global;
use std::process::Abort;
use std::test::Fail;

// The log that the lines of a section spell, without its first and last line.
fn log(alloc: Global, section: &str) -> Result<SiteLog, Fail> {
    let mut items = Vec::new(alloc);
    let mut entries = Vec::new(alloc);
    let mut finals = Vec::new(alloc);
    for line in section.split(' ') {
        let line = line.replace(alloc, "_", " ")?;
        match read_section(line.as_bytes())? {
            SectionLine::Initial(holding) => items.push(holding)?,
            SectionLine::Logged(entry) => entries.push(entry)?,
            SectionLine::Final(holding) => finals.push(holding)?,
            _ => {}
        }
    }
    Ok(SiteLog {
        items: Listed::new(items),
        entries: Listed::new(entries),
        finals: Listed::new(finals),
    })
}

// The bundle of these decisions and sections.
fn bundle(alloc: Global, decisions: &str, sections: &[&str]) -> Result<Bundle, Fail> {
    let count = sections.len();
    let line = format!(in alloc; "{{\"decisions\":[{decisions}],\"sites\":{count}}}")?;
    let certificate = from_line(alloc, line.as_bytes())?;
    let mut sites = Vec::new(alloc);
    for section in sections {
        sites.push(log(alloc, section)?)?;
    }
    Ok(Bundle::new(certificate, sites).ok_or("no bundle")?)
}

// The text of a report, on one line, or the difference.
fn shown(alloc: Global, answer: Result<SerialReport, SerialFail>) -> Result<String, Fail> {
    match answer {
        Ok(report) => {
            let text = String::from_utf8(report.to_text(alloc)?)?;
            Ok(text.replace(alloc, "\n", " ")?)
        }
        Err(SerialFail::Differs(tx, site, item)) => {
            let tx = tx.map_or(0, |tx| tx.number());
            let site = site.number();
            let item = String::from_utf8(Vec::from_slice(alloc, item.as_bytes())?)?;
            Ok(format!(in alloc; "Z1 {tx} {site}.{item}")?)
        }
        Err(fail) => Ok(format!(in alloc; "{fail}")?),
    }
}

// Each bundle's run is answered so.
fn check(rt: &impl Abort, alloc: Global, cases: &[(&str, &[&str], &str)]) -> Result<(), Fail> {
    for (decisions, sections, wanted) in cases {
        let bundle = bundle(alloc, decisions, sections)?;
        let found = shown(alloc, serial_run(alloc, &bundle))?;
        assert!(rt; found.as_str() == *wanted, "{decisions}: {found}");
    }
    Ok(())
}

const ONE: &str = "{\"commit\":1,\"rank\":0}";

const ONE_TWO: &str = "{\"commit\":1,\"rank\":0},{\"commit\":2,\"rank\":1}";

#[test]
fn messages(rt: HostRuntime) -> Result<(), Fail> {
    let alloc = rt.alloc();
    assert!(rt; shown(alloc, Err(SerialFail::Memory))?.as_str() == "Z2: memory");
    let fail = SerialFail::Differs(None, SiteNo::new(0)?, Item::new(b"x")?);
    let message = format!(in alloc; "{fail}")?;
    assert!(rt; message.as_str() == "Z1: the serial run differs from the record");
    Ok(())
}

#[test]
fn runs_that_agree(rt: HostRuntime) -> Result<(), Fail> {
    check(
        &rt,
        rt.alloc(),
        &[
            (
                "{\"commit\":2,\"rank\":1},{\"commit\":1,\"rank\":0}",
                &["item_x=5 item_y=2 r1[x]=5 w2[x]=6 c2 w1[y]=3 c1 final_x=6 final_y=3"],
                "t1 r1[0.x]=5 w1[0.y]=3 t2 w2[0.x]=6 final 0.x=6 final 0.y=3 ",
            ),
            (
                "{\"commit\":1,\"rank\":0},{\"refuse\":2,\"walk\":[{\"item\":\"y\",\"kind\":\"rw\",\"site\":0,\"to\":1},{\"item\":\"x\",\"kind\":\"rw\",\"site\":0,\"to\":2}]}",
                &["item_x=5 item_y=2 r1[x]=5 r2[y]=2 w1[y]=7 c1 p2[x]=8 n2 final_x=5 final_y=7"],
                "t1 r1[0.x]=5 w1[0.y]=7 final 0.x=5 final 0.y=7 ",
            ),
            // The ranks are wrong, and the values can't tell.
            (
                "{\"commit\":1,\"rank\":1},{\"commit\":2,\"rank\":0}",
                &["item_x=5 w1[x]=7 c1 w2[x]=7 c2 final_x=7"],
                "t2 w2[0.x]=7 t1 w1[0.x]=7 final 0.x=7 ",
            ),
            // Equal ranks run in the order of the decisions.
            (
                "{\"commit\":2,\"rank\":4294967295},{\"commit\":1,\"rank\":4294967295},{\"commit\":3,\"rank\":0}",
                &["item_x=5 w1[x]=8 w2[x]=7 r3[x]=5 final_x=8"],
                "t3 r3[0.x]=5 t2 w2[0.x]=7 t1 w1[0.x]=8 final 0.x=8 ",
            ),
            // Equal names of two sites are two items; reads go by site and then by log, before the writes.
            (
                ONE,
                &[
                    "item_b=1 item_x=5 w1[b]=3 r1[x]=5 r1[b]=1 final_b=3 final_x=5",
                    "item_x=2 w1[x]=9 r1[x]=2 final_x=9",
                ],
                "t1 r1[0.x]=5 r1[0.b]=1 r1[1.x]=2 w1[0.b]=3 w1[1.x]=9 final 0.b=3 final 0.x=5 final 1.x=9 ",
            ),
            // Who isn't committed isn't run; who has no entry stands alone.
            (
                "{\"withdraw\":2},{\"refuse\":3,\"walk\":[]},{\"commit\":1,\"rank\":7}",
                &["item_x=5 r2[x]=1 w2[x]=1 r3[x]=3 w3[x]=3 w4[x]=4 final_x=5"],
                "t1 final 0.x=5 ",
            ),
            ("{\"withdraw\":1}", &["end"], ""),
            // Increments among the writes, in log order, behind the reads; sums are modulo 2^64.
            (
                ONE_TWO,
                &[
                    "item_x=18446744073709551615 item_y=2 d1[x]=2 w1[y]=9 c1 r2[x]=1 d2[y]=1 c2 final_x=1 final_y=10",
                    "item_x=7 d1[x]=1 final_x=8",
                ],
                "t1 d1[0.x]=2 w1[0.y]=9 d1[1.x]=1 t2 r2[0.x]=1 d2[0.y]=1 final 0.x=1 final 0.y=10 final 1.x=8 ",
            ),
            // Increments of two transactions in either order; what was only asked for isn't run.
            (
                "{\"commit\":2,\"rank\":1},{\"commit\":1,\"rank\":0}",
                &["item_x=5 d2[x]=4 c2 d1[x]=3 c1 q3[x]=1 n3 final_x=12"],
                "t1 d1[0.x]=3 t2 d2[0.x]=4 final 0.x=12 ",
            ),
            (
                "{\"commit\":1,\"rank\":0},{\"commit\":1,\"rank\":1}",
                &["item_x=18446744073709551615 w1[x]=0 final_x=0"],
                "t1 w1[0.x]=0 t1 w1[0.x]=0 final 0.x=0 ",
            ),
        ],
    )
}

#[test]
fn first_differences(rt: HostRuntime) -> Result<(), Fail> {
    check(
        &rt,
        rt.alloc(),
        &[
            (ONE, &["item_x=5 r1[x]=4 w1[x]=6 c1 final_x=6"], "Z1 1 0.x"),
            // A read is compared with what was there before the transaction's own writes.
            (ONE, &["item_x=5 w1[x]=6 r1[x]=6 c1 final_x=6"], "Z1 1 0.x"),
            // An item that isn't there, read or written; the reads come first.
            (ONE, &["item_x=5 r1[z]=5 r1[x]=1 final_x=5"], "Z1 1 0.z"),
            (ONE, &["item_x=5 w1[z]=5 w1[y]=5 final_x=1"], "Z1 1 0.z"),
            (ONE, &["item_x=5 w1[z]=5 r1[x]=1 final_x=5"], "Z1 1 0.x"),
            // An increment is no write of its number, and its item has to be there.
            (ONE, &["item_x=5 d1[x]=3 c1 final_x=3"], "Z1 0 0.x"),
            (ONE, &["item_x=5 d1[z]=3 c1 final_x=5"], "Z1 1 0.z"),
            // An item of another site.
            (
                ONE,
                &["item_x=5 final_x=5", "item_y=5 r1[x]=5 final_y=5"],
                "Z1 1 1.x",
            ),
            // By rank, then by site, then by log.
            (
                "{\"commit\":1,\"rank\":1},{\"commit\":2,\"rank\":0}",
                &["item_x=5 r1[x]=1 r2[x]=1 final_x=5"],
                "Z1 2 0.x",
            ),
            (
                ONE,
                &[
                    "item_x=5 item_y=5 r1[y]=1 r1[x]=1 final_x=5 final_y=5",
                    "item_a=5 r1[a]=1 final_a=5",
                ],
                "Z1 1 0.y",
            ),
            // Who runs later sees what was written.
            (
                ONE_TWO,
                &["item_x=5 w1[x]=6 c1 r2[x]=5 c2 final_x=6"],
                "Z1 2 0.x",
            ),
            // Equal ranks in the order of the decisions.
            (
                "{\"commit\":2,\"rank\":0},{\"commit\":1,\"rank\":0}",
                &["item_x=5 w1[x]=8 w2[x]=7 final_x=7"],
                "Z1 0 0.x",
            ),
            // The final values, by site and name.
            (ONE, &["item_x=5 w1[x]=6 c1 final_x=5"], "Z1 0 0.x"),
            (
                ONE,
                &[
                    "item_a=1 item_x=5 w1[x]=6 c1 final_a=1 final_x=6",
                    "item_a=1 item_b=2 final_a=2 final_b=1",
                ],
                "Z1 0 1.a",
            ),
        ],
    )
}
