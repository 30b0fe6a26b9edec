//! Certificates with their tables.

use sgt_audit_decisions::{Decided, Steps, are_cycles, are_ranks};
use sgt_bundle::from_line;
use sgt_names::{Entry, Tx};
use std::alloc::{AllocError, Global};
use std::test::Fail;

const FIRST: &str = r#"{"commit":1,"rank":0}"#;

const THIRD: &str = r#"{"commit":3,"rank":1}"#;

const SECOND_REFUSED: &str = r#"{"refuse":2,"walk":["#;

const TO_1: &str = r#"{"item":"x","kind":"ww","site":0,"to":1}"#;

const TO_2: &str = r#"{"item":"x","kind":"ww","site":0,"to":2}"#;

const TO_3: &str = r#"{"item":"x","kind":"ww","site":0,"to":3}"#;

/// Whether the walks have the shape of cycles, if there is a table.
fn walks(alloc: Global, found: &Option<Decided>) -> Result<Option<bool>, AllocError> {
    match found {
        Some(decided) => Ok(Some(are_cycles(alloc, decided)?)),
        None => Ok(None),
    }
}

#[test]
fn ranks_and_doubled_decisions(rt: HostRuntime) -> Result<(), Fail> {
    let alloc = rt.alloc();
    for (decisions, ranks, table) in [
        (r#""#, true, true),
        (r#"{"commit":1,"rank":1},{"commit":2,"rank":0}"#, true, true),
        (
            r#"{"commit":1,"rank":0},{"commit":2,"rank":0}"#,
            false,
            true,
        ),
        (
            r#"{"commit":1,"rank":2},{"commit":2,"rank":0}"#,
            false,
            true,
        ),
        (r#"{"commit":9,"rank":0},{"withdraw":9}"#, true, false),
        (r#"{"commit":90,"rank":0},{"withdraw":90}"#, true, false),
    ] {
        let line = format!(in alloc; "{{\"decisions\":[{decisions}],\"sites\":1}}")?;
        let certificate = from_line(alloc, line.as_bytes())?;
        assert_eq!(rt; are_ranks(alloc, certificate.decisions())?, ranks, "{line}");
        assert_eq!(rt;
            Decided::new(alloc, certificate)?.is_some(),
            table,
            "{line}"
        );
    }
    Ok(())
}

#[test]
fn cycles(rt: HostRuntime) -> Result<(), Fail> {
    let alloc = rt.alloc();
    for (before, walk, after, wanted) in [
        (FIRST, [TO_1, TO_2].as_slice(), THIRD, true),
        (FIRST, [TO_1, TO_1, TO_2].as_slice(), THIRD, false),
        (FIRST, [TO_3, TO_2].as_slice(), THIRD, false),
        (FIRST, [TO_1, TO_3].as_slice(), THIRD, false),
        (FIRST, [TO_2].as_slice(), THIRD, false),
        (THIRD, [TO_3, TO_2].as_slice(), FIRST, true),
    ] {
        let mut line = format!(in alloc; "{{\"decisions\":[{before},{SECOND_REFUSED}")?;
        for (n, step) in walk.iter().enumerate() {
            line.push_str(if n == 0 { "" } else { "," })?;
            line.push_str(step)?;
        }
        line.push_str("]},")?;
        line.push_str(after)?;
        line.push_str("],\"sites\":1}")?;
        let found = Decided::new(alloc, from_line(alloc, line.as_bytes())?)?;
        assert!(rt; walks(alloc, &found)? == Some(wanted), "{line}");
    }
    Ok(())
}

/// The number, the rank, and the number for an end of a commit.
fn looked_up(decided: &Decided, tx: Tx) -> (Option<usize>, Option<u32>, Option<usize>) {
    let ruling = decided.ruling_on(&Entry::Commit { tx });
    (decided.number_of(tx), ruling.rank, ruling.suiting)
}

#[test]
fn look_ups(rt: HostRuntime) -> Result<(), Fail> {
    let alloc = rt.alloc();
    let line = r#"{"decisions":[{"withdraw":7},{"commit":4294967295,"rank":5}],"sites":3}"#;
    if let Some(decided) = Decided::new(alloc, from_line(alloc, line.as_bytes())?)? {
        assert_eq!(rt; looked_up(&decided, Tx::new(7)?), (Some(0), None, None));
        assert_eq!(rt;
            looked_up(&decided, Tx::new(4294967295)?),
            (Some(1), Some(5), Some(1))
        );
        assert_eq!(rt; looked_up(&decided, Tx::new(8)?), (None, None, None));
        assert_eq!(rt;
            (decided.decisions().len(), decided.into_certificate().sites),
            (2, 3)
        );
    } else {
        assert!(rt; false);
    }
    Ok(())
}

/// How many steps stand at the site, and which transaction the first comes from.
fn at(steps: &Steps, site: usize) -> (usize, Option<u32>) {
    let edges = steps.at(site);
    (edges.len(), edges.first().map(|edge| edge.from.number()))
}

#[test]
fn steps_by_site(rt: HostRuntime) -> Result<(), Fail> {
    let alloc = rt.alloc();
    let back = r#"{"item":"x","kind":"ww","site":1,"to":2}"#;
    let line = format!(in alloc;
        "{{\"decisions\":[{FIRST},{SECOND_REFUSED}{TO_1},{back}]}}],\"sites\":2}}"
    )?;
    let found = Decided::new(alloc, from_line(alloc, line.as_bytes())?)?;
    if let Some(decided) = &found {
        let steps = decided.steps(alloc)?;
        assert_eq!(rt; at(&steps, 0), (1, Some(2)));
        assert_eq!(rt; at(&steps, 1), (1, Some(1)));
        assert_eq!(rt; at(&steps, 2), (0, None));
    } else {
        assert!(rt; false);
    }
    Ok(())
}
