//! An entry of a site's log, with its site.

ghost use Rattle.std.specs.Prelude.{◌≡◌};
ghost use Rattle.sgt_serial.specs.Report.{read_at, write_at};

use crate::report::{SiteChange, SiteValue};
use sgt_names::{Change, Entry, SiteNo};

/// An entry of a site's log.
#[derive(Clone, Copy)]
pub struct SiteEntry {
    pub site: SiteNo,
    pub entry: Entry,
}

/// What it reads, if it is a read.
#[inline(always)]
pub fn read_of(own: &SiteEntry) -> Option<SiteValue>
    ensures { result ≡ read_at own.now.site own.now.entry }
{
    let site = own.site;
    match own.entry {
        Entry::Read { tx: _, item, value } => Some(SiteValue { site, item, value }),
        _ => None,
    }
}

/// What it does to its item, if it changes it.
#[inline(always)]
pub fn write_of(own: &SiteEntry) -> Option<SiteChange>
    ensures { result ≡ write_at own.now.site own.now.entry }
{
    let site = own.site;
    match own.entry {
        Entry::Write { tx: _, item, value } => Some(SiteChange {
            site,
            item,
            change: Change::Put(value),
        }),
        Entry::Add { tx: _, item, value } => Some(SiteChange {
            site,
            item,
            change: Change::Add(value),
        }),
        _ => None,
    }
}
