//! How many entries of a site's log were counted.

ghost use Rattle.std.specs.Prelude.{◌≡◌, ◌↔◌, IsTrue};
ghost use Rattle.sgt_service_settle.specs.Settled.{is_read, AreEntriesCounted, IsCounted, AreCountedAt};

use sgt_names::Entry;
use sgt_service_agreement::EntryCounts;
use sgt_site::{EntryLog, Site};

pub(crate) fn is_read(entry: &Entry) -> bool
    ensures { result ≡ is_read entry.now }
{
    matches!(entry, Entry::Read { .. })
}

// How many of the entries are reads, and how many are others.
fn counts_in(log: &EntryLog) -> EntryCounts
    ensures { AreEntriesCounted result log.now.entries }
{
    let mut counts = EntryCounts {
        reads: 0,
        others: 0,
    };
    for place in 0..log.len() {
        if is_read(&log.at(place)) {
            counts.reads += 1;
        } else {
            counts.others += 1;
        }
    }
    counts
}

/// Whether it is the site of this number, with the entries that were counted.
pub(crate) fn is_counted(site: &Site, number: u8, counts: EntryCounts) -> bool
    ensures { IsTrue result ↔ IsCounted number counts site.now }
{
    site.number().number() == number && counts_in(site.log()) == counts
}

/// Whether the first site, if there is one, is the site 0, with the entries that were counted.
pub(crate) fn has_first_counts(sites: &[Site], counts: &[EntryCounts]) -> bool
    ensures { IsTrue result ↔ AreCountedAt sites.now counts.now 0 }
{
    let Some(site) = sites.first() else {
        return true;
    };
    let Some(counts) = counts.first() else {
        return true;
    };
    is_counted(site, 0, *counts)
}
