//! Bundles: what they are made of, and their texts.

use sgt_bundle::{
    Bundle, Certificate, SiteLog, any_increment, begin_section,
    bundles_are_spelled_in_their_formats, committed_transactions_run, end_section, from_line,
    no_bytes_spell_two_bundles, push_head, push_section, ranks_are_distinct,
    serial_order_is_by_rank, valid_bundles_run_serially,
};
use sgt_names::{Entry, Holding, Item, Listed, SiteNo, Tx};
use sgt_notation::{SectionLine, write_section_line};
use std::alloc::{AllocError, Global};
use std::test::Fail;

const LINE: &str =
    "{\"decisions\":[{\"commit\":2,\"rank\":0},{\"commit\":1,\"rank\":1}],\"sites\":1}";

const TEXT: &str =
    "sgt 2\n{\"decisions\":[{\"commit\":2,\"rank\":0},{\"commit\":1,\"rank\":1}],\"sites\":1}\nsite 0\nitem x=5\nd2[x]=4\nc2\nd1[x]=3\nc1\nfinal x=12\nend\n";

const TWO_SITES: &str =
    "sgt 2\n{\"decisions\":[{\"commit\":2,\"rank\":0},{\"commit\":1,\"rank\":1}],\"sites\":2}\nsite 0\nitem x=5\nd2[x]=4\nc2\nd1[x]=3\nc1\nfinal x=12\nend\nsite 1\nitem x=5\nd2[x]=4\nc2\nd1[x]=3\nc1\nfinal x=12\nend\n";

/// The log of an item's two values and the entries between.
fn log_of(
    alloc: Global,
    first: Holding,
    entries: &[Entry],
    last: Holding,
) -> Result<SiteLog, AllocError> {
    Ok(SiteLog {
        items: Listed::new(Vec::from_slice(alloc, &[first])?),
        entries: Listed::new(Vec::from_slice(alloc, entries)?),
        finals: Listed::new(Vec::from_slice(alloc, &[last])?),
    })
}

/// The log of two increments.
fn increments(alloc: Global) -> Result<SiteLog, Fail> {
    let (one, two, item) = (Tx::new(1)?, Tx::new(2)?, Item::new(b"x")?);
    let entries = [
        Entry::Add {
            tx: two,
            item,
            value: 4,
        },
        Entry::Commit { tx: two },
        Entry::Add {
            tx: one,
            item,
            value: 3,
        },
        Entry::Commit { tx: one },
    ];
    let (first, last) = (Holding { item, value: 5 }, Holding { item, value: 12 });
    Ok(log_of(alloc, first, &entries, last)?)
}

/// A vector of one log.
fn one(alloc: Global, log: SiteLog) -> Result<Vec<SiteLog>, AllocError> {
    let mut logs = Vec::new(alloc);
    logs.push(log)?;
    Ok(logs)
}

/// Whether the parts make a bundle of this text, and are given back.
fn is_text(alloc: Global, certificate: Certificate, sites: Vec<SiteLog>, text: &str) -> bool {
    let Some(bundle) = Bundle::new(certificate, sites) else {
        return false;
    };
    let is_text = match bundle.to_text(alloc) {
        Ok(spelled) => spelled.as_slice() == text.as_bytes(),
        Err(_) => false,
    };
    let (certificate, sites) = bundle.into_parts();
    is_text && certificate.sites == 1 && sites.len() == 1
}

#[test]
fn texts(rt: HostRuntime) -> Result<(), Fail> {
    let sites = one(rt.alloc(), increments(rt.alloc())?)?;
    let certificate = from_line(rt.alloc(), LINE.as_bytes())?;
    assert!(rt; is_text(rt.alloc(), certificate, sites, TEXT));
    bundles_are_spelled_in_their_formats();
    committed_transactions_run();
    no_bytes_spell_two_bundles();
    ranks_are_distinct();
    serial_order_is_by_rank();
    valid_bundles_run_serially();
    Ok(())
}

#[test]
fn text_of_parts(rt: HostRuntime) -> Result<(), Fail> {
    let log = increments(rt.alloc())?;
    let certificate = from_line(rt.alloc(), LINE.as_bytes())?;
    let entries = log.entries.as_slice();
    let mut text = Vec::new(rt.alloc());
    push_head(&mut text, any_increment(entries), &certificate)?;
    push_section(
        &mut text,
        SiteNo::new(0)?,
        log.items.as_slice(),
        entries,
        log.finals.as_slice(),
    )?;
    assert!(rt; text.as_slice() == TEXT.as_bytes());
    Ok(())
}

#[test]
fn section_in_parts(rt: HostRuntime) -> Result<(), Fail> {
    let log = increments(rt.alloc())?;
    let certificate = from_line(rt.alloc(), LINE.as_bytes())?;
    let mut text = Vec::new(rt.alloc());
    push_head(&mut text, true, &certificate)?;
    begin_section(&mut text, SiteNo::new(0)?, log.items.as_slice())?;
    for entry in log.entries.as_slice() {
        write_section_line(&mut text, &SectionLine::Logged(*entry))?;
    }
    end_section(&mut text, log.finals.as_slice())?;
    assert!(rt; text.as_slice() == TEXT.as_bytes());
    Ok(())
}

#[test]
fn text_of_a_bundle_given_up(rt: HostRuntime) -> Result<(), Fail> {
    let mut sites = one(rt.alloc(), increments(rt.alloc())?)?;
    sites.push(increments(rt.alloc())?)?;
    let mut certificate = from_line(rt.alloc(), LINE.as_bytes())?;
    certificate.sites = 2;
    match Bundle::new(certificate, sites) {
        Some(bundle) => {
            let text = bundle.into_text(rt.alloc())?;
            assert!(rt; text.as_slice() == TWO_SITES.as_bytes());
        }
        None => assert!(rt; false),
    }
    Ok(())
}
